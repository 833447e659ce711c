//! The private slots of a task's reductions: one value for each cell that a strong reduction of the task names,
//! into which the task folds, and which is joined into the cell later.
#![tactic(auto)]

mod home;
mod operators;
mod table;

pub use home::Home;
pub use operators::combined;
pub use table::Slots;
