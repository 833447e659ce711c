//! Waking those that watch a task.

ghost use Rattle.std.specs.Prelude.{◌≡◌, ◌<◌, ◌↔◌, ◌∷◌, [], ℕ, true, length, IsTrue, OnOk, Some, slice_get, slice_set};
ghost use Rattle.oss_core.specs.declared.passing.Passed.{Passed as Given};
ghost use Rattle.oss_core.specs.declared.turns.Turn.{Turn as Told};
ghost use Rattle.oss_tree.specs.Tasks.{number};
ghost use Rattle.oss_wakeups.specs.Watches.{IsAboveEnded, IsAbovePassed};
ghost use Rattle.oss_wakeups.specs.Watching.{HasWoken, HasWokenOf, IsAsleep, IsAtOrAbove};

use crate::watch::Watch;
use oss_core::{Passed, Turn};
use oss_model::TaskNo;
use oss_tree::Tree;
use std::alloc::AllocError;
use std::mem;

/// Whether the task with this number sleeps.
fn is_asleep(asleep: &[bool], at: usize) -> bool
    ensures { IsTrue result ↔ (slice_get asleep.now at ≡ Some true) }
{
    match asleep.get(at) {
        Some(flag) => *flag,
        None => false,
    }
}

/// Notes whether the task with this number sleeps.
pub(crate) fn set_flag(asleep: &mut Vec<bool>, at: usize, flag: bool)
    requires { at < length asleep.old.items }
    ensures { asleep.new.items ≡ slice_set asleep.old.items at flag }
{
    asleep[at] = flag;
}

/// The list of those that watch a task is taken away.
fn take_watchers(watchers: &mut Vec<Vec<TaskNo>>, at: usize, none: Vec<TaskNo>) -> Vec<TaskNo>
    requires { at < length watchers.old.items }
    ensures taken { slice_get watchers.old.items at ≡ Some result }
    ensures left { watchers.new.items ≡ slice_set watchers.old.items at none }
{
    mem::replace(&mut watchers[at], none)
}

impl Watch {
    /// A task that sleeps is awake from now on.
    fn wake_up(&mut self, task: TaskNo) -> Result<(), AllocError>
        requires { IsAsleep self.old task.0 }
        ensures { OnOk result (HasWokenOf (task ∷ []) self.old self.new) }
    {
        set_flag(&mut self.asleep, task.0 as usize, false);
        self.awake.push(task)?;
        Ok(())
    }

    /// Wakes a task, where it sleeps.
    fn wake_one(&mut self, task: TaskNo) -> Result<(), AllocError>
        ensures { OnOk result (HasWokenOf (task ∷ []) self.old self.new) }
    {
        if is_asleep(self.asleep.as_slice(), task.0 as usize) {
            self.wake_up(task)?;
        }
        Ok(())
    }

    /// Wakes those of these tasks that sleep.
    fn wake_all(&mut self, waiting: &[TaskNo]) -> Result<(), AllocError>
        ensures { OnOk result (HasWokenOf waiting.now self.old self.new) }
    {
        for task in waiting {
            self.wake_one(*task)?;
        }
        Ok(())
    }

    /// Wakes each task that watches this one.
    fn wake_watchers(&mut self, task: TaskNo) -> Result<(), AllocError>
        requires { task.0 < length self.old.watchers.items }
        ensures { OnOk result (HasWoken (λ u. u ≡ task.0) self.old self.new) }
    {
        let none = Vec::new(self.alloc);
        let waiting = take_watchers(&mut self.watchers, task.0 as usize, none);
        self.wake_all(waiting.as_slice())
    }

    /// Wakes each task that watches this one, or one above it. It costs what the task is nested, and who is woken.
    fn wake_above(&mut self, tree: &Tree, task: TaskNo) -> Result<(), AllocError>
        requires there { task.0 < length tree.now.tasks }
        requires sizes { length self.old.watchers.items ≡ length tree.now.tasks }
        ensures { OnOk result (HasWoken (λ u. IsAtOrAbove tree.now.tasks u task.0) self.old self.new) }
    {
        let _tasks = tree.count();
        let mut next = Some(task);
        'levels: while let Some(at) = next {
            self.wake_watchers(at)?;
            next = tree.task(at).parent;
        }
        Ok(())
    }

    /// Wakes those that watch a task which has ended in one of these turns, or one above it.
    pub(crate) fn wake_ended(&mut self, tree: &Tree, turns: &[Turn]) -> Result<(), AllocError>
        requires there { (at : ℕ) (turn : Told) → slice_get turns.now at ≡ Some turn →
            turn.task.0 < length tree.now.tasks }
        requires sizes { length self.old.watchers.items ≡ length tree.now.tasks }
        ensures { OnOk result (HasWoken (IsAboveEnded tree.now.tasks turns.now) self.old self.new) }
    {
        for turn in turns {
            if tree.task(turn.task).ended {
                self.wake_above(tree, turn.task)?;
            }
        }
        Ok(())
    }

    /// Wakes those that watch a task of which something was passed, or one above it.
    pub(crate) fn wake_passed(&mut self, tree: &Tree, passed: &[Passed]) -> Result<(), AllocError>
        requires there { (at : ℕ) (one : Given) → slice_get passed.now at ≡ Some one →
            one.task.0 < length tree.now.tasks }
        requires sizes { length self.old.watchers.items ≡ length tree.now.tasks }
        ensures { OnOk result (HasWoken (IsAbovePassed tree.now.tasks passed.now) self.old self.new) }
    {
        for one in passed {
            self.wake_above(tree, one.task)?;
        }
        Ok(())
    }
}
