//! What clauses lack, task by task.

use oss_missing_lines::RunFault;
use oss_model::Point;
use oss_syntax::{Access, List};
use oss_task_needs::Mending;

/// What the clauses of a task lack.
pub struct TaskLacks {
    pub task: Point,
    /// The line of its creation.
    pub line: u32,
    /// The clauses of its creation, in text order.
    pub clauses: List<Access>,
    /// Of a final task, or one that a final task creates, a weak clause counts as strong.
    pub is_final: bool,
    /// What they lack of each cell, and what they say of it once that is mended.
    pub mending: Mending,
}

// By hand, so that who lets one go calls this, and does not take it apart at each exit.
impl Drop for TaskLacks {
    fn drop(self) {
        let TaskLacks {
            task,
            line: _,
            clauses,
            is_final: _,
            mending,
        } = self;
        drop(task);
        drop(clauses);
        drop(mending);
    }
}

/// What the clauses of all tasks lack.
pub struct Lacks {
    /// Each task that was created, in order of creation. Main is none of them.
    pub tasks: List<TaskLacks>,
    /// What stopped the run; `None` where main has ended.
    pub fault: Option<RunFault>,
}

// By hand, so that who lets one go calls this, and does not take it apart at each exit.
impl Drop for Lacks {
    fn drop(self) {
        let Lacks { tasks, fault: _ } = self;
        drop(tasks);
    }
}
