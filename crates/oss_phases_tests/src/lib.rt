//! Runs in phases, tried over a table that only counts.
#![tactic(auto)]

#[cfg(test)]
mod counting_tests;
