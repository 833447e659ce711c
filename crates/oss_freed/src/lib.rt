//! The free run: the sequential run of a program in which every task may write every cell.
#![tactic(auto)]

mod laws;

pub use laws::{freed_faults_are_its_own, freed_is_lively, freed_runs_need_no_clauses};
