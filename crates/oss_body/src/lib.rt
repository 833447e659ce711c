//! Bodies: one task of a program and the tasks that it includes, each with its machine and what the judge knows of it.
#![tactic(auto)]

mod act;
mod below;
mod body;
mod copies;
mod draft;
mod drafting;
mod frame;
mod judging;
mod looking;
mod mains;
pub mod memory;
mod own;
mod place;
mod rushing;
mod tasks;

pub use act::{Act, Creation};
pub use body::Body;
pub use mains::{main_body, main_is_set};
