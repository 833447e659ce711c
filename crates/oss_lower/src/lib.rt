//! Lowering: the code that a program becomes.
#![tactic(auto)]

mod around;
mod clauses;
mod data;
mod functions;
mod looping;
mod program;
mod simple;
mod single;
mod statements;

pub use program::lower;
