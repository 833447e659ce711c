//! How parallel a program can be at best: its ticks, and a longest chain of acts that each wait for the one before.
#![tactic(auto)]

mod beside;
mod best;
mod close;
mod frame;
mod lines;
mod link;
mod marks;
mod node;
mod pass;
mod run;
mod table;
mod walk;

pub use beside::span;
pub use lines::chain_lines;
pub use link::{Link, SpanRun};
