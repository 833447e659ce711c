//! The open tasks of a sequential run, and what each act makes of them; and of the free run what each act is.
#![tactic(auto)]

mod deed;
mod laws;

pub use deed::Deed;
pub use laws::{free_deeds_are_acts, open_tasks_go_on};
