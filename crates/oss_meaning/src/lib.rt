//! What programs mean: definitions of the whole language, and the values of which they speak.
#![tactic(auto)]

mod clauses;
mod names;
mod value;

pub use clauses::Declared;
pub use names::{Found, Target, Typed};
pub use value::Value;
