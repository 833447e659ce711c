//! New tasks.

ghost use Rattle.std.specs.Prelude.{◌≡◌, ◌≤◌, length, OnOk};
ghost use Rattle.oss_wakeups.specs.Watching.{HasGrown, IsAdded};

use crate::watch::Watch;
use oss_model::TaskNo;
use std::alloc::AllocError;

impl Watch {
    /// A new task is awake, and nobody watches it.
    fn add(&mut self, task: TaskNo) -> Result<(), AllocError>
        ensures { OnOk result (IsAdded task self.old self.new) }
    {
        self.asleep.push(false)?;
        self.watchers.push(Vec::new(self.alloc))?;
        self.awake.push(task)?;
        Ok(())
    }

    /// The new tasks, up to so many in all, are awake, and nobody watches them.
    pub(crate) fn grow(&mut self, count: u64) -> Result<(), AllocError>
        requires { length self.old.asleep.items ≤ count }
        ensures { OnOk result (HasGrown count self.old self.new) }
    {
        for number in self.asleep.len() as u64..count {
            self.add(TaskNo(number))?;
        }
        Ok(())
    }
}
