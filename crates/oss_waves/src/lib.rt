//! Runs by waves: each task that may act does its part, on threads, and then what may be given up is given up,
//! until no move is left.
#![tactic(auto)]

mod noting;
mod parts;
mod passing;
mod rounds;
mod run;
mod team;
mod waving;

pub use run::{WaveRun, waves};
