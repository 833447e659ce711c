//! What explains why a program comes to a fault: what an explanation holds, what it means that it is one of a program's
//! sequential run, and its text, sentence by sentence.
//!
//! An explanation keeps no label of a task, but the instruction with which its body begins; and of a shift, or of a place
//! outside of its global, it keeps no numbers. Its text is written with the labels (`Labels` of `oss_labels`) and what failed
//! (`Failure` of `oss_machine`) beside it.
#![tactic(auto)]

mod chain;
mod deed;
mod explained;
mod failure;
mod holds;
mod labels;
mod laws;
mod lent;
mod names;
mod reason;
mod rules;
mod text;
mod uncovered;

pub use explained::{Deed, Explained, Failing, Held, Later, Link, Reason, Touching, Use, Word};
pub use laws::{
    an_ask_is_told_in_one_way, what_fails_is_told_in_one_way, what_is_held_is_told_in_one_way,
};
pub use text::explain_text;
