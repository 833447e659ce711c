//! Tokens one at a time, and expressions, read from tokens.
#![tactic(auto)]

mod calls;
mod counted;
mod cursor;
mod expressions;
mod kinds;
mod laws;
mod limits;
pub mod reading;
mod refusals;

pub use calls::expression;
pub use laws::an_expression_has_one_answer;
