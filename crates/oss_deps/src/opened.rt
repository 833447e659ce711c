//! What a dependency system keeps of each task that was opened.

use oss_syntax::{Access, List};

/// That a task was opened: its number, that of its creator, and its accesses. Main is number 0, and is never opened.
#[derive(Drop)]
pub struct Open {
    /// The number of the task in the run, which need not tell the order of openings.
    pub task: u64,
    pub parent: u64,
    pub accesses: List<Access>,
}
