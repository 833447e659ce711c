//! What a task asks of one cell, and what its clauses lack for it.
#![tactic(auto)]

mod clause;
mod demand;
mod lack;
mod lacking;
mod laws;
mod least;
mod mending;
mod modes;
mod need;

pub use clause::{Clause, Given};
pub use demand::Demand;
pub use lack::Lack;
pub use laws::{
    added_is_joined, fewer_are_not_met, given_is_right, lacks_are_faults, lacks_are_told,
    mended_is_met,
};
pub use need::Need;
