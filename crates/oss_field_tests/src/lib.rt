//! Trials of fields by seats that one thread drives by hand.
#![tactic(auto)]

#[cfg(test)]
mod field_tests;
mod trials;
