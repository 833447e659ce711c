//! The dependency system by ranges and messages: cells that no cut divides share the lists of their accesses,
//! and flags tell what may go on.
#![tactic(auto)]

mod asking;
mod lookups;
mod parts;
mod regions;
mod reserved;
mod system;
mod walking;

pub use regions::Regions;
