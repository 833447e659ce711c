//! Dependency systems beside each other: each keeps with it what it was told, so that both are told the same,
//! and are to answer alike.
#![tactic(auto)]

#[cfg(test)]
mod tests;
mod told;

pub use crate::told::Told;
