//! What names stand for at a place of a program text, the kinds of its expressions, and the rules that these break.
#![tactic(auto)]

mod expressions;
mod finding;
mod globals;
mod locals;
mod operators;
mod scope;
mod table;

pub use expressions::{call, expression, is_named_main, value, value_in};
pub use finding::{
    Finding, at_place, before, first_of, kind_of, kind_of_number, refused, refused_if, taken_by,
    wrong,
};
pub use globals::Globals;
pub use locals::Locals;
pub use operators::{kind_of_binary, kind_of_element};
pub use scope::Scope;
pub use table::NameTable;
