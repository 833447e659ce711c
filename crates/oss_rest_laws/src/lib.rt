//! What the words and slots of a table of jobs tell of the state for which they stand, if nothing is under way: a law,
//! carried by a function that does nothing.
#![tactic(auto)]

mod laws;

pub use laws::idle_fields_tell;
