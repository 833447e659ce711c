//! What is kept of each task of a run: its body, in a box, and the cells that it still owes. And which of the tasks
//! stands before the first fault of the program's order.
#![tactic(auto)]

mod boxed_body;
mod faults;
mod held;

pub use boxed_body::BoxedBody;
pub use faults::{FaultSeen, first_fault};
pub use held::{Held, Owed};
