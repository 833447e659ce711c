//! Laws of what is missing of a program's clauses, for each program as which a text is accepted.
#![tactic(auto)]

mod asks;
mod cells;
mod exact;
mod once;

pub use asks::{programs_release_plainly, programs_settle_in_two, texts_release_by_dependencies};
pub use cells::{
    codes_name_their_cells, codes_touch_their_cells, programs_leave_clauses,
    programs_name_their_cells, programs_touch_their_cells,
};
pub use exact::{codes_end_well_alike, nothing_is_told_exactly, told_faults_are_own};
pub use once::missing_is_one;
