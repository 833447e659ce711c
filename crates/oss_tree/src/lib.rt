//! The tree of the tasks of a run: where each stands, which are complete, and what they printed, in point order.
#![tactic(auto)]

pub mod laws;
mod marks;
mod output;
mod paths;
mod task;
mod tree;

pub use oss_model::{Point, TaskNo};
pub use output::Print;
pub use task::Task;
pub use tree::Tree;
