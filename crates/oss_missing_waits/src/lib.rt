//! Where a `taskwait` is missing, and what is used behind a release: a second walk over the free run, by the clauses that all tasks have
//! once what they lack is mended.
#![tactic(auto)]

mod following;
mod hindering;
mod holding;
mod using;
mod waits;
mod walk;

pub use waits::TaskWaits;
pub use walk::find_waits;
