//! How a job that a seat of a field works with waits, and how its task lets go of its cells and ends: the calls of the field in
//! the order that each asks for.
#![tactic(auto)]

mod giving;
mod looking;
mod waiting;

pub use giving::{give_up_cell, give_up_own, leave_cell};
pub use looking::{all_done, newest_done, wait_is_met};
pub use waiting::{await_last, wait};
