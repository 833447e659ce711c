//! Laws about the graphs of programs: a program has the graph of its code, and it has one.
#![tactic(auto)]

mod laws;

pub use laws::{graphs_alike, graphs_are_one};
