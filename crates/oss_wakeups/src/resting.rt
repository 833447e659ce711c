//! Going to sleep.

ghost use Rattle.std.specs.Prelude.{◌≡◌, ◌<◌, length, OnOk};
ghost use Rattle.oss_code.specs.declared.code.CodeParts.{CodeParts};
ghost use Rattle.oss_core.specs.Cores.{kept_of, tasks_in};
ghost use Rattle.oss_core.specs.Kept.{IsRunning};
ghost use Rattle.oss_wakeups.specs.Watches.{HasNoLet, HasRested, IsWatch, StayAwake};
ghost use Rattle.oss_wakeups.specs.Watching.{HasWatched};

use crate::waking::set_flag;
use crate::watch::Watch;
use oss_core::Core;
use oss_deps::Deps;
use oss_model::TaskNo;
use std::alloc::AllocError;
use std::mem;

impl Watch {
    /// A task sleeps from now on, and watches another.
    fn send_to_sleep(&mut self, task: TaskNo, other: TaskNo) -> Result<(), AllocError>
        requires task { task.0 < length self.old.asleep.items }
        requires other { other.0 < length self.old.watchers.items }
        ensures { OnOk result (HasWatched task other self.old self.new) }
    {
        set_flag(&mut self.asleep, task.0 as usize, true);
        self.watchers[other.0 as usize].push(task)?;
        Ok(())
    }

    /// Lets a task go that does nothing any more, lets one sleep that waits for another, or keeps it awake.
    pub(crate) fn rest_one<D: Deps>(
        &mut self,
        core: &mut Core<D>,
        task: TaskNo,
    ) -> Result<(), AllocError>
        requires running { (code : CodeParts) × IsRunning code (kept_of D.seen core.old) }
        requires there { task.0 < length (tasks_in core.old) }
        requires asleep { length self.old.asleep.items ≡ length (tasks_in core.old) }
        requires watchers { length self.old.watchers.items ≡ length (tasks_in core.old) }
        ensures rested { OnOk result (HasRested (kept_of D.seen core.old) task self.old self.new) }
        ensures same { kept_of D.seen core.new ≡ kept_of D.seen core.old }
    {
        if core.spent(task) {
            return Ok(());
        }
        match core.hindrance(task) {
            Some(other) => self.send_to_sleep(task, other)?,
            None => self.awake.push(task)?,
        }
        Ok(())
    }

    /// Of the tasks that are awake those sleep from now on that wait for another, which they watch, and those
    /// are let go that do nothing any more: who stays awake may make its next act, or has none, since it stands
    /// before a fault, or has ended and still owes a cell. Condition: no cell may be given up by a let, as
    /// behind the last pass of a round. It costs what the tasks that are awake and their accesses do. The core
    /// stays. After want of memory the run is given up.
    pub fn rest<D: Deps>(&mut self, core: &mut Core<D>) -> Result<(), AllocError>
        requires running { (code : CodeParts) × IsRunning code (kept_of D.seen core.old) }
        requires watch { IsWatch (kept_of D.seen core.old) self.old }
        requires quiet { HasNoLet (kept_of D.seen core.old) }
        ensures watch { OnOk result (IsWatch (kept_of D.seen core.new) self.new) }
        ensures awake { OnOk result (StayAwake (kept_of D.seen core.new) self.new.awake.items) }
        ensures same { kept_of D.seen core.new ≡ kept_of D.seen core.old }
    {
        let awake = mem::replace(&mut self.awake, Vec::new(self.alloc));
        for task in awake.as_slice() {
            self.rest_one(core, *task)?;
        }
        Ok(())
    }
}
