//! The acts of a job that a seat of a field holds: the calls of the field in the order that each act asks for.
#![tactic(auto)]

mod news;
mod taking;
mod touching;

pub use news::deliver_all;
pub use taking::{put, take};
pub use touching::{fold, go_alone, load, store};
