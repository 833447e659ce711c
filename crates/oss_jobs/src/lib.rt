//! Jobs: what a worker holds of one task while it works on it, its body and the numbers that it goes by in a table.
#![tactic(auto)]

mod entries;
mod job;
mod printing;

pub use entries::count_cells;
pub use job::Job;
