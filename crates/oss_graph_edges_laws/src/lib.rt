//! What the edges of a graph say of waiting: each is a wait, for an earlier task in conflict with none between that conflicts
//! with both, and leads between two nodes; and where two tasks conflict a way leads from the one to the other.
#![tactic(auto)]

mod laws;

pub use laws::{
    edges_are_nearest, edges_are_waits, edges_join_nodes, groups_are_whole, no_edge_leads_past,
    ways_are_drawn,
};
