//! Runs by turns, one task at a time by priorities, and what holds of them.
#![tactic(auto)]

pub mod laws;
