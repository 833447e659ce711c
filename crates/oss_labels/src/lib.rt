//! Labels of tasks, by the instructions with which their bodies begin.
#![tactic(auto)]

mod clauses;
mod creations;
mod joining;
mod labels;
mod laws;
mod listing;
mod walk;

pub use labels::{Labelled, Labels};
pub use laws::{bodies_begin_apart, codes_stand_at_places, labels_are_told};
pub use listing::labels_by_entry;
