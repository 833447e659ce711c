//! What the clauses of each task lack: the free run, and beside it what its tasks ask of each cell.
#![tactic(auto)]

mod creation;
mod following;
mod lacks;
mod slots;
mod walk;

pub use lacks::{Lacks, TaskLacks};
pub use walk::find_lacks;
