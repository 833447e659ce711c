//! The static rules of programs, and where each global lies.
#![tactic(auto)]

mod heads;
mod known;
mod program;
mod sections;
mod simple;
mod statements;

pub use known::{Known, resolve};
