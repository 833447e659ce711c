//! The cells of a program in fragments: cells that stand side by side and have the same accesses share one line
//! of accesses.
#![tactic(auto)]

mod cutting;
mod fragment;
mod fragments;
mod giving;
mod opening;
mod places;
mod reserving;
mod splitting;

pub use fragment::Fragment;
pub use fragments::Fragments;
