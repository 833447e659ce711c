//! Bodies of a state in a list are what a core may keep of it: a law, carried by a function that does nothing.
#![tactic(auto)]

mod laws;

pub use laws::listed_tasks_stand;
