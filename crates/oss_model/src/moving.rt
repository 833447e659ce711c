//! The moves of the task machine. A schedule is a list of them.

use crate::task_no::TaskNo;

/// A move of the machine of tasks.
#[derive(Clone, Copy, Debug)]
pub enum Move {
    /// The next act of the body of a task.
    Step(TaskNo),
    /// A task gives up a cell.
    Let(TaskNo, u32),
    /// The slot of a task is joined into the cell, which the task then has given up.
    Join(TaskNo, u32),
}
