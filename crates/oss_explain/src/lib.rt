//! Why a program comes to a fault, found beside its sequential run.
//!
//! What follows a run act by act notes what may bear on its fault. At the fault this is searched: for the words of the
//! task that acts, the cells that fail, who has a lent cell, and where a cell was released.
#![tactic(auto)]

mod asked_cells;
mod at_cell;
mod begun;
mod deeds;
mod directives;
mod ending;
mod failing;
mod fault;
mod finding;
mod holders;
mod holding;
mod ledger;
mod lending;
mod modes;
mod releases;
mod run;
mod told;
mod wanting;
mod who;
mod words_of;

pub use ending::{Ending, Finish};
pub use run::explain;
