//! The lines of the second walk, task by task.

use oss_missing_lines::Late;
use oss_syntax::List;

/// What tasks do too early, or too late: the lines of each, in the order of the run.
pub struct TaskWaits {
    pub main: List<Late>,
    /// Each task that was created, in order of creation.
    pub tasks: List<List<Late>>,
}

// By hand, so that who lets one go calls this, and does not take it apart at each exit.
impl Drop for TaskWaits {
    fn drop(self) {
        let TaskWaits { main, tasks } = self;
        drop(main);
        drop(tasks);
    }
}
