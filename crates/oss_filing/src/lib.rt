//! The words with which a table begins over a run that is under way: entries are filed one after the other, those that
//! their tasks have given up are given up, and messages are delivered until none is held.
#![tactic(auto)]

mod counting;
mod filing;
mod laws;
mod own;
mod row;

pub use counting::counts;
pub use filing::file;
pub use laws::{filed_rows_rest, filed_rows_stand, planned_rows_fit, row_counts_stand};
pub use row::Row;
