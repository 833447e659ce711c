//! Which moves may be made, and because of which other task the next act of one may not be made as yet: found out
//! over what is kept of the tasks, their tree and a dependency system, with no memory.
#![tactic(auto)]

mod enabling;
mod hindrance;
mod stopping;
mod waiting;

pub use enabling::{is_let, is_through, join_of, may_fold, may_join, may_let, may_step};
pub use hindrance::hindrance_of;
pub use stopping::is_still;
