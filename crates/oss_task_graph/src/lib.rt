//! What the graph of a run is: its tasks, on which earlier ones each stands, and where a fault stopped the run; and what it
//! means that a graph is that of a program's sequential run.
#![tactic(auto)]

mod graph;

pub use graph::{Edge, Graph, Node, Stop};
