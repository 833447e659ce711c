//! The audit of a program: what its clauses name and its tasks never touch.
#![tactic(auto)]

mod begun;
mod lines;
mod run;
mod runs;
mod unused;
mod watch;

pub use lines::audit_lines;
pub use run::audit;
pub use unused::{AuditRun, Unused};
