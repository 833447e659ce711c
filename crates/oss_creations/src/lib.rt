//! The creation of a task, by a job that a seat of a field works with.
#![tactic(auto)]

mod counting;
mod creating;
mod delivering;
mod linking;

pub use creating::{create, go_past};
