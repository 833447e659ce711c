//! What the tasks of a run wait for: the dependency systems, and the plain lists, which are the simplest of them.
#![tactic(auto)]

mod asking;
mod closing;
mod column;
mod cutting;
mod deps;
mod frame;
mod giving;
mod growing;
mod lookups;
mod opened;
mod opening;
mod plain;
mod reserved;
mod reserving;
mod splitting;
mod walking;
mod want;

pub use deps::Deps;
pub use opened::Open;
pub use plain::PlainDeps;
