//! How parallel a program can be at best is told by its code.
#![tactic(auto)]

mod laws;

pub use laws::{spans_agree, spans_alike};
