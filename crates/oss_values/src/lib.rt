//! What operators make of the values of a program, and what variables keep of them.
#![tactic(auto)]

mod binary;
mod keeping;
mod number;
mod pointer;
mod unary;

pub use binary::apply;
pub use keeping::{convert, keep};
pub use number::{is_zero, number_in};
pub use pointer::{shift, signed, unsigned};
pub use unary::{prefix, truth_value};
