//! A held state.

ghost use Rattle.std.specs.Prelude.{◌≡◌, ◌≤◌, ℕ, length, IfOk, IfSome, None};
ghost use Rattle.oss_body.specs.Mains.{code_main};
ghost use Rattle.oss_code.specs.declared.code.CodeParts.{CodeParts};
ghost use Rattle.oss_core.specs.Parts.{AreParts};
ghost use Rattle.oss_machine.specs.Frames.{CodeScript};
ghost use Rattle.oss_machine.specs.Machines.{asks};
ghost use Rattle.oss_model.specs.Answers.{IsAnswer, IsStopped};
ghost use Rattle.oss_model.specs.Machine.{State};
ghost use Rattle.oss_model.specs.Moves.{opening as start_of};
ghost use Rattle.oss_held.specs.Needs.{IsNeeded};
ghost use Rattle.oss_held.specs.Points.{ArePoints};
ghost use Rattle.oss_held.specs.States.{ArePartsOfRun, IsHeldState, IsSame};

use crate::points::{all_tasks, points_of};
use oss_code::Code;
use oss_core::{Core, CoreParts};
use oss_deps::PlainDeps;
use oss_model::{Answer, Point};
use oss_syntax::List;
use std::alloc::{AllocError, Global};
use std::marker::Model;

/// A state of the machine of tasks that a run of a code can reach, in one owner's hand. Contracts say of which states it is
/// one (`IsHeldState`). No call changes which these are, and what is made is a state of some run.
pub struct Held {
    alloc: Global,
    /// The tasks, their tree, the memory, and what they wait for.
    core: Core<PlainDeps>,
    /// How many entries a table over the state needs.
    entries: u64,
}

// By hand, so that who lets one go calls this, and does not take it apart at each exit.
impl Drop for Held {
    fn drop(self) {
        let Held {
            alloc: _,
            core,
            entries: _,
        } = self;
        drop(core);
    }
}

impl Model for Held {
    ghost use Rattle.oss_held.specs.States.{IsOfRun, Contents};

    ghost Value = { Contents };

    ghost view = { λ h. record {
      tasks = h.core.tasks.items;
      tree = h.core.tree;
      deps = h.core.deps;
      cells = h.core.cells.items;
      entries = h.entries;
    } };

    ghost invariant = { λ h. IsOfRun (record {
      tasks = h.core.tasks.items;
      tree = h.core.tree;
      deps = h.core.deps;
      cells = h.core.cells.items;
      entries = h.entries;
    }) };
}

impl Held {
    /// The state at the beginning: main alone, which has done nothing, over the cells of its code, with so much fuel for
    /// each task. It takes memory, and want of it is the one error. Condition: the code has at most 1,048,576 cells.
    pub fn opening(alloc: Global, code: &Code, fuel: u32) -> Result<Held, AllocError>
        requires cells { length code.now.first ≤ 1048576 }
        ensures { IfOk result (λ held. IsHeldState code.now fuel held
            (start_of (code_main code.now fuel) code.now.first)) }
    {
        let core = Core::new(alloc, code, fuel, PlainDeps::new(alloc))?;
        Ok(Held {
            alloc,
            core,
            entries: 1,
        })
    }

    /// The state of these parts of a core, over which a table needs so many entries. They are those of some state that a run
    /// can reach, and what is made is held of each such state. It takes memory, and want of it is the one error: the parts
    /// are let go then.
    pub fn of_parts(alloc: Global, parts: CoreParts, entries: u64) -> Result<Held, AllocError>
        requires run { ArePartsOfRun parts entries }
        ensures { IfOk result (λ held. (code : CodeParts) (fuel : ℕ) (s : State CodeScript) →
            AreParts code (code_main code fuel) code.first parts s → IsNeeded s entries →
            IsHeldState code fuel held s) }
    {
        let core = Core::together(alloc, parts, PlainDeps::new(alloc))?;
        Ok(Held {
            alloc,
            core,
            entries,
        })
    }

    /// The answer of the run if the state is stopped: exactly that of the definitions; `None` exactly if a move may still be
    /// made. The held state stays as it is, and does so if memory is wanting, which is the one error.
    pub fn answer(&mut self) -> Result<Option<Answer>, AllocError>
        ensures some { IfOk result (λ a. IfSome a (λ b. (code : CodeParts) (fuel : ℕ) (s : State CodeScript) →
            IsHeldState code fuel self.old s → IsStopped (asks code) s × IsAnswer (asks code) s b)) }
        ensures none { IfOk result (λ a. a ≡ None → (code : CodeParts) (fuel : ℕ) (s : State CodeScript) →
            IsHeldState code fuel self.old s → IsStopped (asks code) s → ⊥) }
        ensures same { IsSame self.old self.new }
        ensures states { (code : CodeParts) (fuel : ℕ) (s : State CodeScript) → IsHeldState code fuel self.old s →
            IsHeldState code fuel self.new s }
    {
        self.core.answer()
    }

    /// How many entries a table over the state needs: main's, and of each other task one of its own and one for each of its
    /// cells. It takes no memory.
    pub fn needs(&self) -> u64
        ensures { (code : CodeParts) (fuel : ℕ) (s : State CodeScript) → IsHeldState code fuel self.now s →
            IsNeeded s result }
    {
        self.entries
    }

    /// The points of all tasks of the state, each once, in point order. It takes memory, and want of it is the one error.
    pub fn points(&self) -> Result<List<Point>, AllocError>
        ensures { IfOk result (λ points. (code : CodeParts) (fuel : ℕ) (s : State CodeScript) →
            IsHeldState code fuel self.now s → ArePoints s points) }
    {
        let tasks = all_tasks(self.alloc, self.core.count())?;
        let ordered = self.core.in_point_order(tasks)?;
        points_of(self.alloc, self.core.tree(), ordered.as_slice())
    }
}
