//! Acts of one task at a time, and what its body tells of it.

ghost use Rattle.std.specs.Prelude.{◌≡◌, ◌<◌, [], ℕ, length, IfOk, List as Items, OnOk, Some, slice_get};
ghost use Rattle.oss_code.specs.declared.code.CodeParts.{CodeParts};
ghost use Rattle.oss_machine.specs.Frames.{CodeScript};
ghost use Rattle.oss_model.specs.Bodies.{Start};
ghost use Rattle.oss_body.specs.Relation.{IsBody, has_begun};

use crate::machine::{Core, is_creation};
use oss_code::Code;
use oss_deps::Deps;
use oss_model::{Move, TaskNo};
use std::alloc::AllocError;

impl<D: Deps> Core<D> {
    ghost use Rattle.oss_model.specs.declared.moving.Move.{Move as Meant};
    ghost use Rattle.oss_kept_tasks.specs.declared.held.Held.{Held as Known};
    ghost use Rattle.oss_core.specs.Acting.{HasActed, HasActedAlone};
    ghost use Rattle.oss_core.specs.Changes.{IsMade, MayMove};
    ghost use Rattle.oss_core.specs.Cores.{kept_of};
    ghost use Rattle.oss_core.specs.Kept.{IsRunning};

    /// Whether an act of the task is done. Condition: it is a task of the core. It takes no memory.
    pub fn begun(&self, task: TaskNo) -> bool
        requires { task.0 < length (kept_of D.seen self.now).tasks }
        ensures { (held : Known) → slice_get (kept_of D.seen self.now).tasks task.0 ≡ Some held →
            result ≡ has_begun held.body }
    {
        self.tasks[task.0 as usize].body.begun()
    }

    /// The value of the clause `priority` of the task, and 0 without one. Condition: it is a task of the core. It
    /// takes no memory.
    pub fn priority(&self, task: TaskNo) -> i64
        requires { task.0 < length (kept_of D.seen self.now).tasks }
        ensures { (code : CodeParts) (start : Start CodeScript) (found : Items ℕ) (held : Known) →
            slice_get (kept_of D.seen self.now).tasks task.0 ≡ Some held → IsBody code start found held.body →
            result ≡ start.order.priority }
    {
        self.tasks[task.0 as usize].body.priority()
    }

    /// Makes the next act of a task where it may be made, and tells whether it was: where it was not, the core
    /// stays. The code is the one with which the core was made. Out of memory is the one error, and after it the
    /// core is given up.
    pub fn act(&mut self, code: &Code, task: TaskNo) -> Result<bool, AllocError>
        requires { IsRunning code.now (kept_of D.seen self.old) }
        ensures { IfOk result (λ made. HasActed made code.now task (kept_of D.seen self.old)
            (kept_of D.seen self.new)) }
    {
        if !self.may_move(&Move::Step(task)) {
            return Ok(false);
        }
        self.act_now(code, task)?;
        Ok(true)
    }

    /// The next act of a task, which may be made.
    fn act_now(&mut self, code: &Code, task: TaskNo) -> Result<(), AllocError>
        requires running { IsRunning code.now (kept_of D.seen self.old) }
        requires may { MayMove (kept_of D.seen self.old) (Meant.Step task) }
        ensures made { OnOk result (IsMade code.now (kept_of D.seen self.old) (kept_of D.seen self.new) (Meant.Step
            task)) }
        ensures alone { OnOk result (HasActedAlone task.0 (kept_of D.seen self.old) (kept_of D.seen self.new)) }
    {
        if is_creation(self.tasks[task.0 as usize].body.pending()) {
            self.create(code, task)
        } else {
            self.step(code, task)
        }
    }
}
