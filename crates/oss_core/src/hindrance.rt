//! Which tasks wait for which.

ghost use Rattle.std.specs.Prelude.{◌≡◌, ◌<◌, ◌↔◌, length, IsTrue, MatchOption};
ghost use Rattle.oss_code.specs.declared.code.CodeParts.{CodeParts};

use crate::machine::Core;
use oss_deps::Deps;
use oss_enabled_moves::hindrance_of;
use oss_model::TaskNo;

impl<D: Deps> Core<D> {
    ghost use Rattle.oss_core.specs.Cores.{kept_of};
    ghost use Rattle.oss_core.specs.Hindered.{IsFree, IsHindered, IsSpent};
    ghost use Rattle.oss_core.specs.Kept.{IsRunning};

    /// A task because of which the next act of this one may not be made as yet: one whose access stands in its
    /// way, or a child for which it waits. `None` exactly where nothing hinders the task: its next act may be
    /// made, or it has none, since it has ended or stands before a fault. Condition: it is a task of the core.
    /// It takes no memory, and the core stays.
    pub fn hindrance(&mut self, task: TaskNo) -> Option<TaskNo>
        requires running { (code : CodeParts) × IsRunning code (kept_of D.seen self.old) }
        requires there { task.0 < length self.old.tree.tasks }
        ensures hindrance { MatchOption result (IsFree (kept_of D.seen self.old) task.0) (λ u.
            IsHindered (kept_of D.seen self.old) task.0 u.0) }
        ensures same { kept_of D.seen self.new ≡ kept_of D.seen self.old }
    {
        let body = &self.tasks[task.0 as usize].body;
        hindrance_of(body, &self.tree, &mut self.deps, task)
    }

    /// Whether the task has ended and owes no cell, so that it does nothing any more. Condition: it is a task
    /// of the core. It takes no memory.
    pub fn spent(&self, task: TaskNo) -> bool
        requires running { (code : CodeParts) × IsRunning code (kept_of D.seen self.now) }
        requires there { task.0 < length self.now.tree.tasks }
        ensures { IsTrue result ↔ IsSpent (kept_of D.seen self.now) task.0 }
    {
        let known = self.tree.task(task);
        known.ended && known.gave_all
    }
}
