//! What is told of a program whose clauses lack something: task by task the clauses that are missing, those that have to give way, the
//! waits that are missing, and what is used behind a release.
#![tactic(auto)]

mod missing;
mod words;

pub use missing::{Late, LateUse, Missing, MissingWait, RunFault, TaskMissing, Wanting};
pub use words::word_of_clause;
