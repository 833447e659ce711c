//! Generated programs: texts with any number of tasks, each made from two numbers.
#![tactic(auto)]

mod numbers;
mod program;
mod tasks;

pub use program::generated;
