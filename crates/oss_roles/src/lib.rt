//! How the words, slots and views of a table of jobs stand for a state of the machine of tasks, between any two steps
//! of all seats.
#![tactic(auto)]

pub mod jobs;
pub mod laws;
