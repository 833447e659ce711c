//! Trials of whole programs through the public calls of the crates below: schedules chosen at random, tasks
//! that meet on two threads, and waves stepped by hand, for which a wave and a pass stand here as one thread
//! makes them.
#![tactic(auto)]

#[cfg(test)]
mod tests;
mod waving;

pub use crate::waving::{pass_once, wave};
