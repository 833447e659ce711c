//! Whole ranges of cells that a task gives up by lets.

ghost use Rattle.std.specs.Prelude.{◌≡◌, ◌≤◌, ◌<◌, ℕ, length, MatchResult, OnOk};
ghost use Rattle.oss_core.specs.Giving.{HoldsCell};
ghost use Rattle.oss_core.specs.Passing.{HasClearedRange, LetsRange, OwesRange};

use crate::giving::{is_empty, note_given};
use crate::machine::Core;
use oss_deps::Deps;
use oss_kept_tasks::Held;
use oss_model::TaskNo;
use oss_syntax::Range;
use std::alloc::AllocError;

/// The task at a place owes the cells of a range no more. The answer is whether it owes none now.
fn clear_range(tasks: &mut Vec<Held>, at: usize, range: Range) -> Result<bool, AllocError>
    requires owes { OwesRange tasks.old.items at range.lo range.hi }
    ensures { MatchResult result (λ last. HasClearedRange at range.lo range.hi last tasks.old.items
        tasks.new.items) (λ e. Unit {0}) }
{
    let held = &mut tasks[at];
    held.owed.clear(range)?;
    Ok(is_empty(&held.owed))
}

impl<D: Deps> Core<D> {
    ghost use Rattle.oss_core.specs.Cores.{kept_of};

    /// A task gives up the cells of a range by lets, one after the other. It costs what one let does. After
    /// want of memory the core is given up.
    pub(crate) fn let_range(&mut self, task: TaskNo, range: Range) -> Result<(), AllocError>
        requires sizes { length self.old.tree.tasks ≡ length self.old.tasks.items }
        requires owes { OwesRange self.old.tasks.items task.0 range.lo range.hi }
        requires holds { (c : ℕ) → range.lo ≤ c → c < range.hi → HoldsCell (D.seen self.old.deps) task.0 c }
        ensures { OnOk result (LetsRange task.0 range.lo range.hi (kept_of D.seen self.old) (kept_of D.seen self.new)) }
    {
        self.deps.prepare(range)?;
        let last = clear_range(&mut self.tasks, task.0 as usize, range)?;
        note_given(&mut self.tree, task, last);
        self.deps.give(task, range);
        Ok(())
    }
}
