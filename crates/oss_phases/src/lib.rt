//! Phases of a run: each works on a table that is opened over a held state, with a crew of workers, and closes the table to a held
//! state again, until the run has ended.
#![tactic(auto)]

mod growth;
mod phase;
mod phased;
mod run;

pub use phased::{Closed, Opened, Phased};
pub use run::{Outcome, run_phases};
