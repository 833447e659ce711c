//! Lowering of expressions and sections: the instructions that evaluate them, what their names stand for, and
//! the listing in which instructions are written.
#![tactic(auto)]

mod expressions;
mod listing;
mod names;
mod numbers;
mod scope;
mod section_lists;
mod site;
mod typed;

pub use expressions::{Under, arguments, call, place, value};
pub use listing::{Jump, Listing};
pub use names::Names;
pub use numbers::{deeper, narrow};
pub use scope::Scope;
pub use section_lists::{optional_value, sections};
pub use site::Site;
pub use typed::operator;
