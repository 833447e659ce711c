//! The end of a program's run and that of its code are told alike, and a program has one end with one explanation.
#![tactic(auto)]

mod laws;

pub use laws::{endings_alike, endings_are_one};
