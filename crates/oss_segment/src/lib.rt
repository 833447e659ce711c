//! One task's part of a wave: what its body does alone over a memory that nobody changes meanwhile.
#![tactic(auto)]

mod going;
mod happening;
mod making;
mod ready;
mod run;
mod segment;

pub use ready::Ready;
pub use run::segment_of;
pub use segment::Segment;
