//! The audit of a program and that of its code are one, and a program has one audit.
#![tactic(auto)]

mod laws;

pub use laws::{audits_alike, audits_are_one};
