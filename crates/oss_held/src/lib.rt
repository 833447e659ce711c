//! A state of the machine of tasks in one owner's hand: what a table that threads share is opened over, and what it leaves.
#![tactic(auto)]

mod held;
mod points;

pub use held::Held;
