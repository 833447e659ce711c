//! Programs whose bodies do the same acts: the machine makes the same moves with both.
#![tactic(auto)]

pub mod laws;
