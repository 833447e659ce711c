//! What the open tasks of a run ask of each cell, act by act: the task that acts, and its creators, which wait for it. At the end of
//! a task it is known what its clauses lack, and its creator asks for what they say with that.
#![tactic(auto)]

mod open_needs;
mod open_task;

pub use open_needs::OpenNeeds;
