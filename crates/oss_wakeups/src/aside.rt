//! Turns of one task at a time, while the others that can act stand aside.

ghost use Rattle.std.specs.Prelude.{◌≡◌, ◌≤◌, ◌<◌, ◌⊎◌, [], ◌∷◌, ℕ, length, IfOk, OnOk, Some, slice_get};
ghost use Rattle.oss_code.specs.declared.code.CodeParts.{CodeParts};
ghost use Rattle.oss_core.specs.declared.passing.Passed.{Passed as Given};
ghost use Rattle.oss_core.specs.Cores.{kept_of, tasks_in};
ghost use Rattle.oss_core.specs.Kept.{IsRunning, Kept};
ghost use Rattle.oss_model.specs.Order.{IsIn};
ghost use Rattle.oss_tree.specs.Tasks.{number};
ghost use Rattle.oss_wakeups.specs.Asides.{AreFree, CanAct, HasSetAside, HasTaken, IsSetAside, IsWatchBut, StoodAside};
ghost use Rattle.oss_wakeups.specs.Watches.{HasNoLet, IsPassOf, IsWaveOf};
ghost use Rattle.oss_wakeups.specs.Watching.{IsApart};

use crate::waking::set_flag;
use crate::watch::Watch;
use oss_core::{Core, Passed, Turn};
use oss_deps::Deps;
use oss_model::{Move, TaskNo};
use std::alloc::AllocError;
use std::mem;

impl Watch {
    /// A task that stood aside is awake from now on.
    fn take(&mut self, task: TaskNo) -> Result<(), AllocError>
        requires { task.0 < length self.old.asleep.items }
        ensures { OnOk result (HasTaken task self.old self.new) }
    {
        set_flag(&mut self.asleep, task.0 as usize, false);
        self.awake.push(task)?;
        Ok(())
    }

    /// A task that stood aside had a turn: it is awake now, and so are the tasks that it created, and those that
    /// watched it or one above it, if it has ended. It costs n log n for the n tasks that are awake then, and how
    /// deep the task is nested. Out of memory is the one error, and after it the run is given up.
    pub fn after_turn<D: Deps>(&mut self, core: &Core<D>, turn: Turn) -> Result<(), AllocError>
        requires running { (code : CodeParts) × IsRunning code (kept_of D.seen core.now) }
        requires apart { IsApart self.old }
        requires idle { IsIn turn.task self.old.awake.items → ⊥ }
        requires there { turn.task.0 < length self.old.asleep.items }
        requires more { length self.old.asleep.items ≤ length (tasks_in core.now) }
        ensures { OnOk result ((code : CodeParts) (before : Kept) → IsRunning code before →
            IsSetAside before self.old → IsWaveOf (turn ∷ []) before (kept_of D.seen core.now) →
            IsWatchBut (StoodAside before turn.task.0) (kept_of D.seen core.now) self.new) }
    {
        self.take(turn.task)?;
        self.grow(core.count())?;
        self.wake_ended(core.tree(), &[turn])?;
        self.sort(core)
    }

    /// A pass gave these up, while some tasks stood aside: those are awake now that watched a task of which
    /// something was passed, or one above it. It costs what `after_pass` does. Out of memory is the one error, and
    /// after it the run is given up.
    pub fn after_gifts<D: Deps>(
        &mut self,
        core: &Core<D>,
        passed: &[Passed],
    ) -> Result<(), AllocError>
        requires running { (code : CodeParts) × IsRunning code (kept_of D.seen core.now) }
        requires apart { IsApart self.old }
        requires size { length self.old.asleep.items ≡ length (tasks_in core.now) }
        requires there { (at : ℕ) (one : Given) → slice_get passed.now at ≡ Some one →
            one.task.0 < length (tasks_in core.now) }
        ensures { OnOk result ((code : CodeParts) (before from : Kept) (task : ℕ) → IsRunning code before →
            IsWatchBut (StoodAside from task) before self.old →
            IsPassOf passed.now before (kept_of D.seen core.now) →
            IsWatchBut (StoodAside from task) (kept_of D.seen core.now) self.new) }
    {
        self.wake_passed(core.tree(), passed)?;
        self.sort(core)
    }

    /// Lets a task go that does nothing any more, lets one sleep that waits for another, sets one aside that can
    /// act, or keeps it awake. The core stays.
    fn set_one_aside<D: Deps>(
        &mut self,
        core: &mut Core<D>,
        task: TaskNo,
        free: &mut Vec<TaskNo>,
    ) -> Result<(), AllocError>
        requires running { (code : CodeParts) × IsRunning code (kept_of D.seen core.old) }
        requires there { task.0 < length (tasks_in core.old) }
        requires asleep { length self.old.asleep.items ≡ length (tasks_in core.old) }
        requires watchers { length self.old.watchers.items ≡ length (tasks_in core.old) }
        ensures aside { OnOk result (HasSetAside (kept_of D.seen core.old) task free.old.items free.new.items
            self.old self.new) }
        ensures same { kept_of D.seen core.new ≡ kept_of D.seen core.old }
    {
        if core.enabled(&Move::Step(task)) {
            free.push(task)?;
            return Ok(());
        }
        self.rest_one(core, task)
    }

    /// Of the tasks that are awake those are set aside that can act; those sleep from now on that wait for another,
    /// which they watch; and those are let go that do nothing any more. Who stays awake has ended and still owes a
    /// cell, or stands before a fault. The answer has those that are set aside. Condition: no cell may be given up by
    /// a let, as behind the last pass of a turn. It costs what the tasks that are awake and their accesses do. The
    /// core stays. After out of memory the run is given up.
    pub fn set_aside<D: Deps>(&mut self, core: &mut Core<D>) -> Result<Vec<TaskNo>, AllocError>
        requires running { (code : CodeParts) × IsRunning code (kept_of D.seen core.old) }
        requires watch { (from : Kept) × (task : ℕ) ×
            IsWatchBut (StoodAside from task) (kept_of D.seen core.old) self.old }
        requires quiet { HasNoLet (kept_of D.seen core.old) }
        ensures free { IfOk result (λ free. AreFree (kept_of D.seen core.old) free.items) }
        ensures all { IfOk result (λ free. (from : Kept) (task v : ℕ) →
            IsWatchBut (StoodAside from task) (kept_of D.seen core.old) self.old → CanAct (kept_of D.seen core.old) v →
            IsIn (number v) free.items ⊎ StoodAside from task v) }
        ensures watch { OnOk result ((from : Kept) (task : ℕ) →
            IsWatchBut (StoodAside from task) (kept_of D.seen core.old) self.old →
            ((v : ℕ) → StoodAside from task v → CanAct (kept_of D.seen core.old) v) →
            IsSetAside (kept_of D.seen core.old) self.new) }
        ensures same { kept_of D.seen core.new ≡ kept_of D.seen core.old }
    {
        let awake = mem::replace(&mut self.awake, Vec::new(self.alloc));
        let mut free = Vec::new(self.alloc);
        for task in awake.as_slice() {
            self.set_one_aside(core, *task, &mut free)?;
        }
        Ok(free)
    }
}
