//! What an audit tells.

use oss_model::{Answer, Point};
use oss_syntax::{List, Range};

/// A longest run of neighbouring cells that the clauses of a task name, and that neither it nor a task below it
/// touches.
#[derive(Drop)]
pub struct Unused {
    /// The point of the task.
    pub point: Point,
    /// The cells: one at least.
    pub range: Range,
}

/// What an audit gives.
#[derive(Drop)]
pub struct AuditRun {
    /// The output and the cells at the end of the sequential run, or the fault that stopped it with the output
    /// before it.
    pub answer: Answer,
    /// The unused cells of all tasks but main, included ones too, in point order and rising; none where a fault
    /// stopped the run.
    pub unused: List<Unused>,
}
