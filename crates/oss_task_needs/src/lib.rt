//! What the clauses of a task say of each cell, what the task asks of each, and what its clauses lack, kept by ranges of cells.
#![tactic(auto)]

mod asking;
mod givens;
mod mending;
mod runs;

pub use asking::TaskNeeds;
pub use givens::Givens;
pub use mending::Mending;
