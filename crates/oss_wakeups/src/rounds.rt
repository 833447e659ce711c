//! Who is awake from wave to wave.

ghost use Rattle.std.specs.Prelude.{◌≡◌, ◌<◌, ℕ, length, IfOk, OnOk, Some, slice_get};
ghost use Rattle.oss_code.specs.declared.code.CodeParts.{CodeParts};
ghost use Rattle.oss_core.specs.declared.passing.Passed.{Passed as Given};
ghost use Rattle.oss_core.specs.declared.turns.Turn.{Turn as Told};
ghost use Rattle.oss_core.specs.Cores.{kept_of, tasks_in};
ghost use Rattle.oss_core.specs.Kept.{IsRunning};
ghost use Rattle.oss_wakeups.specs.Watches.{IsBehindPass, IsBehindWave, IsWatch};
ghost use Rattle.oss_wakeups.specs.Watching.{HasSorted, IsApart};

use crate::watch::Watch;
use oss_core::{Core, Passed, Turn};
use oss_deps::Deps;
use std::alloc::{AllocError, Global};
use std::mem;

impl Watch {
    /// All tasks of a core are awake. Want of memory is the one error.
    pub fn new<D: Deps>(alloc: Global, core: &Core<D>) -> Result<Watch, AllocError>
        requires { (code : CodeParts) × IsRunning code (kept_of D.seen core.now) }
        ensures { IfOk result (λ watch. IsWatch (kept_of D.seen core.now) watch) }
    {
        let mut watch = Watch::empty(alloc);
        watch.grow(core.count())?;
        watch.sort(core)?;
        Ok(watch)
    }

    /// Those that are awake stand in point order.
    pub(crate) fn sort<D: Deps>(&mut self, core: &Core<D>) -> Result<(), AllocError>
        requires running { (code : CodeParts) × IsRunning code (kept_of D.seen core.now) }
        requires apart { IsApart self.old }
        requires size { length self.old.asleep.items ≡ length (tasks_in core.now) }
        ensures { OnOk result (HasSorted (tasks_in core.now) self.old self.new) }
    {
        let awake = mem::replace(&mut self.awake, Vec::new(self.alloc));
        self.awake = core.in_point_order(awake)?;
        Ok(())
    }

    /// A wave had these turns: the tasks that it created are awake now, and those that watched a task which has
    /// ended in it. It costs n log n for the n tasks that are awake then, and for each that has ended how deep
    /// it is nested. Want of memory is the one error, and after it the run is given up.
    pub fn after_wave<D: Deps>(&mut self, core: &Core<D>, turns: &[Turn]) -> Result<(), AllocError>
        requires running { (code : CodeParts) × IsRunning code (kept_of D.seen core.now) }
        requires behind { IsBehindWave turns.now (kept_of D.seen core.now) self.old }
        requires there { (at : ℕ) (turn : Told) → slice_get turns.now at ≡ Some turn →
            turn.task.0 < length (tasks_in core.now) }
        ensures { OnOk result (IsWatch (kept_of D.seen core.now) self.new) }
    {
        self.grow(core.count())?;
        self.wake_ended(core.tree(), turns)?;
        self.sort(core)
    }

    /// A pass gave these up: those are awake now that watched a task of which something was passed, or one
    /// above it. It costs n log n for the n tasks that are awake then, and for each that was passed how deep
    /// its task is nested. Want of memory is the one error, and after it the run is given up.
    pub fn after_pass<D: Deps>(
        &mut self,
        core: &Core<D>,
        passed: &[Passed],
    ) -> Result<(), AllocError>
        requires running { (code : CodeParts) × IsRunning code (kept_of D.seen core.now) }
        requires behind { IsBehindPass passed.now (kept_of D.seen core.now) self.old }
        requires there { (at : ℕ) (one : Given) → slice_get passed.now at ≡ Some one →
            one.task.0 < length (tasks_in core.now) }
        ensures { OnOk result (IsWatch (kept_of D.seen core.now) self.new) }
    {
        self.wake_passed(core.tree(), passed)?;
        self.sort(core)
    }
}
