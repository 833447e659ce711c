//! One task of the tree. It names its creator and its children by numbers, since no task is ever removed.

use oss_model::{Point, TaskNo};
use oss_syntax::List;

/// A task of a tree.
#[derive(Drop)]
pub struct Task {
    /// Its point.
    pub point: Point,
    /// The task that created it; `None` for main.
    pub parent: Option<TaskNo>,
    /// The tasks that it created, in the order of their creation.
    pub children: List<TaskNo>,
    /// Whether it has the clause `wait`.
    pub wait: bool,
    /// Whether its body has ended.
    pub ended: bool,
    /// Whether it has given up each of its cells.
    pub gave_all: bool,
}
