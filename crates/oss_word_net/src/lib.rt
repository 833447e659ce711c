//! The access words of many tasks in one table, moved by single atomic steps of many threads.
#![tactic(auto)]

mod closing;
mod delivering;
mod families;
mod giving;
mod held;
mod holding;
mod linking;
mod masks;
mod net;
mod rule;
mod seat;
mod seats;
mod sight;
mod steps;

pub use net::WordNet;
pub use seat::WordSeat;
