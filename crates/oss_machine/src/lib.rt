//! The machine: it runs one task body in a code, from one ask to the next.
#![tactic(auto)]

mod activation;
mod ask;
mod failure;
mod instructions;
mod judge;
mod laws;
mod machine;
mod outcome;
mod running;
mod touch;

pub use ask::Ask;
pub use failure::{Failure, Miss, Stretch};
pub use judge::Judge;
pub use laws::{codes_are_lively, machines_wait};
pub use machine::Machine;
pub use touch::Touch;
