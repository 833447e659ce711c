//! Trials of creations by the calls of a field, by a seat that one thread drives by hand.
#![tactic(auto)]

#[cfg(test)]
mod creation_tests;
mod trials;
