//! The edges between the children of one task, found one child after the other: of each new child it is told on which
//! earlier ones it stands, and for which cells.
//!
//! Of each cell the newest member of the last group of its list is kept, and of the group before. The members of a group
//! are a list that shares its end with the groups of other cells, and cells that are alike are kept as one piece. So a
//! new child costs the pieces of its accesses, and what its edges cost.
#![tactic(auto)]

mod edges;
mod groups;
mod members;
mod part;
mod siblings;

pub use siblings::Siblings;
