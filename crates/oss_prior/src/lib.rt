//! A run by one worker, one task at a time, by priorities.
#![tactic(auto)]

mod choosing;
mod passing;
mod ready;
mod run;
mod stepping;
mod turning;
mod turns;

pub use run::{SingleRun, single};
