//! Waves: the parts of all tasks that may act.

ghost use Rattle.std.specs.Prelude.{◌≡◌, ◌≤◌, ◌<◌, ◌++◌, [], ℕ, length, IfOk, List as Items, OnOk};
ghost use Rattle.oss_model.specs.Bodies.{Start};
ghost use Rattle.oss_model.specs.Machine.{State};
ghost use Rattle.oss_model.specs.Order.{IsIn};
ghost use Rattle.oss_model.specs.declared.task_no.TaskNo.{TaskNo as Number};
ghost use Rattle.oss_code.specs.declared.code.CodeParts.{CodeParts};
ghost use Rattle.oss_machine.specs.Frames.{CodeScript};
ghost use Rattle.oss_body.specs.declared.body.Body.{Body as Known};
ghost use Rattle.oss_segment.specs.Segments.{IsKnown};
ghost use Rattle.oss_core.specs.Turns.{ArePartsOf, IsBeside, IsFilled};

use crate::machine::Core;
use crate::putting::put_body;
use crate::turns::Turn;
use oss_code::Code;
use oss_deps::Deps;
use oss_kept_tasks::BoxedBody;
use oss_model::TaskNo;
use oss_segment::Segment;
use std::alloc::{AllocError, Global};

/// The bodies that are out in a wave, with the tasks that they are of, in point order.
#[derive(Drop)]
pub struct Lent {
    /// The tasks.
    pub steppers: Vec<TaskNo>,
    /// The body of each, in the same order.
    pub bodies: Vec<BoxedBody>,
}

/// A body that stands in the place of one that is out: one of those that have served before, or a new one.
fn spare_of(
    alloc: Global,
    code: &Code,
    spares: &mut Vec<BoxedBody>,
) -> Result<BoxedBody, AllocError>
    requires { length code.now.first ≤ 1048576 }
    ensures { Unit {0} }
{
    match spares.pop() {
        Some(spare) => Ok(spare),
        None => BoxedBody::main(alloc, code, 1),
    }
}

impl<D: Deps> Core<D> {
    ghost use Rattle.oss_core.specs.Cores.{kept_of};
    ghost use Rattle.oss_core.specs.Awake.{HaveSteppers};
    ghost use Rattle.oss_core.specs.Kept.{IsRunning, Kept};
    ghost use Rattle.oss_core.specs.Leaving.{WasWave};
    ghost use Rattle.oss_core.specs.Turns.{AwaitsParts, HasLent, HasWaved, IsMidway, KeepsTasks, Midway};

    /// A wave begins: the bodies of those of these tasks that may act go out, and spare ones stand in their
    /// places until `end_wave`. Conditions: the list has each task that may step, in point order; the code has
    /// at most 1,048,576 cells. After want of memory the core is given up.
    pub fn begin_wave(
        &mut self,
        code: &Code,
        asked: &[TaskNo],
        spares: &mut Vec<BoxedBody>,
    ) -> Result<Lent, AllocError>
        requires running { IsRunning code.now (kept_of D.seen self.old) }
        requires asked { HaveSteppers (kept_of D.seen self.old) asked.now }
        requires cells { length code.now.first ≤ 1048576 }
        ensures { IfOk result (λ lent. HasLent code.now (kept_of D.seen self.old) (kept_of D.seen self.new)
            lent.steppers.items lent.bodies.items) }
    {
        let steppers = self.steppers(asked)?;
        let bodies = self.lend(code, steppers.as_slice(), spares)?;
        Ok(Lent { steppers, bodies })
    }

    /// The wave ends: the parts of these tasks are put in, one after the other in point order. The answer tells
    /// how many acts each task made; of a task that made none nothing is kept otherwise. Condition: these are
    /// the parts of the bodies that are out, over the memory of the core. After want of memory the core is
    /// given up.
    pub fn end_wave(
        &mut self,
        steppers: &[TaskNo],
        parts: Vec<Segment>,
        spares: &mut Vec<BoxedBody>,
    ) -> Result<Vec<Turn>, AllocError>
        requires { (code : CodeParts) × (before : Kept) ×
            AwaitsParts code before (kept_of D.seen self.old) steppers.now parts.items }
        ensures waved { IfOk result (λ turns. (code : CodeParts) (before : Kept) →
            AwaitsParts code before (kept_of D.seen self.old) steppers.now parts.items →
            HasWaved code before (kept_of D.seen self.new) turns.items) }
        ensures turned { IfOk result (λ turns. (code : CodeParts) (before : Kept) →
            AwaitsParts code before (kept_of D.seen self.old) steppers.now parts.items →
            WasWave turns.items before (kept_of D.seen self.new)) }
        ensures tasks { OnOk result (KeepsTasks self.old.tree.tasks self.new.tree.tasks) }
    {
        self.put_all(steppers, parts, spares)
    }

    /// The bodies of these tasks go out, and others stand in their places meanwhile. After want of memory the
    /// core is given up.
    fn lend(
        &mut self,
        code: &Code,
        steppers: &[TaskNo],
        spares: &mut Vec<BoxedBody>,
    ) -> Result<Vec<BoxedBody>, AllocError>
        requires there { (v : Number) → IsIn v steppers.now → v.0 < length self.old.tasks.items }
        requires cells { length code.now.first ≤ 1048576 }
        ensures out { IfOk result (λ bodies. IsFilled steppers.now bodies.items self.new.tasks.items
            self.old.tasks.items) }
        ensures beside { OnOk result (IsBeside (kept_of D.seen self.old) (kept_of D.seen self.new)) }
    {
        let mut bodies = Vec::new(self.alloc);
        for task in steppers {
            let spare = spare_of(self.alloc, code, spares)?;
            let body = put_body(&mut self.tasks, task.0 as usize, spare);
            bodies.push(body)?;
        }
        Ok(bodies)
    }

    /// The parts of these tasks are put in, one after the other. After want of memory the core is given up.
    fn put_all(
        &mut self,
        steppers: &[TaskNo],
        parts: Vec<Segment>,
        spares: &mut Vec<BoxedBody>,
    ) -> Result<Vec<Turn>, AllocError>
        requires { IsMidway steppers.now steppers.now parts.items [] (kept_of D.seen self.old) }
        ensures { IfOk result (λ turns. (code : CodeParts) (main : Start CodeScript) (first : Items ℕ)
            (s : State CodeScript) (before : Kept) →
            Midway code main first s before steppers.now steppers.now parts.items [] (kept_of D.seen self.old) →
            Midway code main first s before steppers.now [] [] turns.items (kept_of D.seen self.new)) }
    {
        let mut turns = Vec::new(self.alloc);
        let mut at: usize = 0;
        for part in parts {
            let task = steppers[at];
            let acts = part.count;
            self.put(task, part, spares)?;
            turns.push(Turn { task, acts })?;
            at += 1;
        }
        Ok(turns)
    }
}
