//! The sequential run: one act after the other, each task where it is created.
#![tactic(auto)]

mod run;
mod stage;
mod turn;

pub use run::{Ran, begin, serial};
pub use stage::{Stage, Turned};
