//! Dependencies by access words: a dependency system whose answers are read off a net of atomic words, one
//! entry for each task and cell.
#![tactic(auto)]

mod beside;
mod book;
mod entry;
mod growing;
mod lookups;
mod own;
mod system;
mod words;

pub use system::WordDeps;
