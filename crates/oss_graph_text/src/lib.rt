//! The text of a graph of tasks, as Graphviz reads it: a line for each task, a box round those that stand below one, a line
//! for each edge with the cells by name, and the fault in red.
#![tactic(auto)]

mod edges;
mod end;
mod labels;
mod laws;
mod nodes;
mod points;
mod text;
mod words;

pub use laws::{a_graph_has_one_text, boxes_hold_all_below};
pub use text::graph_text;
