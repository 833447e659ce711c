//! The judge of one task: what the task may do with each cell, what it has lent, and its limits.
#![tactic(auto)]

mod changes;
mod checks;
mod context;
mod given;
mod given_rights;
mod joined;
mod lending;
mod mark;
mod modes;
mod refused;
mod right;
mod touches;

pub use context::Context;
pub use given_rights::Given;
pub use refused::JudgeRefused;
pub use right::Right;
