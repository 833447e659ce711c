//! The graph of the tasks of a program, found beside its sequential run.
//!
//! What follows the run act by act keeps of each task that runs or waits the access lists of its children. At a creation
//! the new task is a node more, with the edges that these lists give it.
#![tactic(auto)]

mod coming;
mod found;
mod run;

pub use run::graph;
