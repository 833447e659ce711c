//! The words of the command line.
#![tactic(auto)]

mod command;
mod operands;
mod options;
mod soak;
mod values;

pub use command::{Command, Replay, WordsRefused, read_words};
pub use options::{DepsKind, Options, RunMode};
pub use soak::Soak;
