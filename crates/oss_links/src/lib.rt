//! What the accesses to one cell, hung in lists, tell of the tasks that were opened and of the cells that they
//! have given up: laws, and no code. A dependency system that keeps such lists for each cell takes them from
//! here.
#![tactic(auto)]

pub mod laws;
