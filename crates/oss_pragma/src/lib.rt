//! Pragmas, read from tokens.
#![tactic(auto)]

mod calls;
mod clauses;
mod found;
mod laws;
mod pragmas;
pub mod reading;
mod sections;

pub use calls::pragma;
pub use laws::a_pragma_has_one_answer;
