//! The tokens of a program text.
#![tactic(auto)]

mod blanks;
mod bytes;
mod directives;
mod keywords;
mod laws;
mod names;
mod numbers;
mod reader;
mod strings;
mod symbols;
mod taken;

pub use laws::a_text_has_one_reading;
pub use oss_syntax::{Token, TokenKind};
pub use reader::tokens;
