//! Which tasks may step.

ghost use Rattle.std.specs.Prelude.{◌≡◌, IfOk, OnOk};
ghost use Rattle.oss_code.specs.declared.code.CodeParts.{CodeParts};
ghost use Rattle.oss_enabled_moves.specs.Enabled.{MayStep};
ghost use Rattle.oss_core.specs.Steppers.{IsAddedWhere};

use crate::machine::Core;
use oss_deps::Deps;
use oss_model::{Move, TaskNo};
use std::alloc::AllocError;

impl<D: Deps> Core<D> {
    ghost use Rattle.oss_core.specs.Cores.{kept_of};
    ghost use Rattle.oss_core.specs.Awake.{HaveSteppers};
    ghost use Rattle.oss_core.specs.Kept.{IsRunning};
    ghost use Rattle.oss_core.specs.Steppers.{AreSteppers};

    /// The tasks whose next acts may be made, in point order: those of the list that may step. Condition: the
    /// list has each task that may step, in point order; others may stand in it, as in a list of all that are
    /// not complete. Want of memory is the one error, and the core stays in any case.
    pub fn steppers(&mut self, asked: &[TaskNo]) -> Result<Vec<TaskNo>, AllocError>
        requires running { (code : CodeParts) × IsRunning code (kept_of D.seen self.old) }
        requires asked { HaveSteppers (kept_of D.seen self.old) asked.now }
        ensures steppers { IfOk result (λ steppers. AreSteppers (kept_of D.seen self.old) steppers.items) }
        ensures same { kept_of D.seen self.new ≡ kept_of D.seen self.old }
    {
        let mut steppers = Vec::new(self.alloc);
        for task in asked {
            self.add_stepper(*task, &mut steppers)?;
        }
        Ok(steppers)
    }

    /// Adds a task behind the others where it may step. The core stays.
    fn add_stepper(&mut self, task: TaskNo, steppers: &mut Vec<TaskNo>) -> Result<(), AllocError>
        requires running { (code : CodeParts) × IsRunning code (kept_of D.seen self.old) }
        ensures added { OnOk result (IsAddedWhere (MayStep self.old.tasks.items self.old.tree.tasks
            (D.seen self.old.deps) task.0) task steppers.old.items steppers.new.items) }
        ensures same { kept_of D.seen self.new ≡ kept_of D.seen self.old }
    {
        if self.may_move(&Move::Step(task)) {
            steppers.push(task)?;
        }
        Ok(())
    }
}
