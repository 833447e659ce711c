//! Work on neighbouring jobs in groups, each group on a thread of its own where one can be made.
#![tactic(auto)]

mod group;
mod groups;
mod work;

pub use groups::in_groups;
pub use work::Work;
