//! Whether a list of links is a chain of a program's run, and how many ticks it has.
#![tactic(auto)]

mod links;
mod modes;
mod note;
mod point;
mod queries;
mod record;
mod run;
mod sought;
mod tasks;
mod waiting;
mod watch;

pub use run::check_chain;
