//! The text of what is missing of a program's clauses: a line for each clause, wait and late use. Lines that read alike of tasks
//! of one line are told once, and the others are counted.
#![tactic(auto)]

mod alike;
mod clauses;
mod lines;
mod names;
mod tasks;
mod text;
mod told;
mod words;

pub use text::missing_text;
