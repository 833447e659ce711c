//! Runs by waves: the part of one task in a wave, a wave, the passes behind it and the whole run, and what
//! holds of them.
#![tactic(auto)]

pub mod laws;
