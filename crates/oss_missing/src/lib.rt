//! All that is missing of the clauses of a program: what they lack, where a `taskwait` is missing, and what is used behind a release,
//! task by task, by two walks over the free run.
#![tactic(auto)]

mod finding;
mod task;

pub use finding::find_missing;
