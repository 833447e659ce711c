//! The free run: the sequential run of a code in which no clause binds a task. It is followed act by act, and at each act
//! it shows what the program itself asks there, clauses and all.
#![tactic(auto)]

mod counts;
mod laws;
mod memory;
mod run;
mod task;

pub use laws::{codes_leave_clauses, free_runs_need_no_clauses};
pub use run::{FreeRun, Turned};
