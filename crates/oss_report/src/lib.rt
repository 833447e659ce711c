//! The texts that tell of faults, refusals, replays, and what the globals hold.
#![tactic(auto)]

mod dump;
mod lines;
mod replays;
mod runs;
mod words;

pub use dump::dump_bytes;
pub use lines::{fault_line, refusal_line};
pub use replays::{not_enabled_line, schedule_line, unfinished_line};
pub use runs::{order_lines, who_lines};
pub use words::word_of_fault;
