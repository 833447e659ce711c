//! Programs, read from their texts.
#![tactic(auto)]

mod beginnings;
mod calls;
mod forms;
mod laws;
mod programs;
mod simple;
mod statements;
mod tokens;

pub use calls::parse;
pub use laws::a_text_has_one_parse;
