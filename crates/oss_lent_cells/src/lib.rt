//! What a task has lent of each cell to its children, kept by ranges of cells.
#![tactic(auto)]

mod cells;
mod holder;
mod lending;

pub use cells::LentCells;
pub use holder::{Child, Holder, Lent, counted};
