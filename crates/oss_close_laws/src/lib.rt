//! The jobs of a table in which nothing is under way, in the order of their numbers, have the bodies that a core may keep of
//! its state, and what they have printed are its prints: laws, each carried by a function that does nothing.
#![tactic(auto)]

mod laws;

pub use laws::{closed_tables_list, listed_bodies_print};
