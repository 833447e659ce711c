//! Accesses to a cell that are done, with all before them, may be left out of the lists of the cell: laws, and
//! a copy of a line that leaves them out.
#![tactic(auto)]

mod copying;
pub mod laws;
mod remainder;

pub use remainder::{Remainder, has_spent, remainder_of};
