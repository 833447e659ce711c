//! Task loops written out: each as a block with a loop that creates a task for so many turns at a time.
#![tactic(auto)]

mod block;
mod expressions;
mod laws;
mod names;
mod parts;
mod round;
mod statements;
mod walk;

pub use block::written;
pub use laws::writing_out_keeps;
pub use walk::write_out;
