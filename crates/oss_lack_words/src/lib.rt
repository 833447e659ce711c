//! How what the clauses of a task lack is told: as clauses with the pieces of the cells that they name.
#![tactic(auto)]

mod adding;
mod all_words;
mod cells;
mod old_words;
mod replacing;
mod same;

pub use adding::lacking;
pub use replacing::wanting;
