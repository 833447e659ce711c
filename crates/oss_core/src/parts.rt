//! The parts of a core, and a core that is put together of them.

ghost use Rattle.std.specs.Prelude.{◌≡◌, [], false, ℕ, IfOk, List as Items};
ghost use Rattle.oss_code.specs.declared.code.CodeParts.{CodeParts as Parts};
ghost use Rattle.oss_deps.specs.Seen.{Seen};
ghost use Rattle.oss_machine.specs.Frames.{CodeScript};
ghost use Rattle.oss_model.specs.Bodies.{Start};
ghost use Rattle.oss_model.specs.Machine.{State};

use crate::machine::Core;
use crate::retelling::{tell_cells, tell_tasks};
use oss_deps::Deps;
use oss_kept_tasks::Held;
use oss_tree::Tree;
use std::alloc::{AllocError, Global};

/// What a core keeps beside its dependency system. Contracts say for which states the parts stand (`AreParts`).
#[derive(Drop)]
pub struct CoreParts {
    /// The body of each task and what it still owes, by the number of the task.
    pub tasks: Vec<Held>,
    /// Where the tasks stand, and what they have printed.
    pub tree: Tree,
    /// The memory: one number of 64 bits for each cell.
    pub cells: Vec<u64>,
}

impl<D: Deps> Core<D> {
    ghost use Rattle.oss_core.specs.Cores.{kept_of};
    ghost use Rattle.oss_core.specs.Kept.{IsCore};
    ghost use Rattle.oss_core.specs.Parts.{AreParts, IsToldOf, kept_with};
    ghost use Rattle.oss_core.specs.Retelling.{AreSome};

    /// The core of these parts and this dependency system, which may be of another kind than the one that the parts had.
    /// It stands for each state of the parts, if the system was told of the same tasks and of the cells that they have
    /// given up. It takes no memory.
    pub fn with_deps(alloc: Global, parts: CoreParts, deps: D) -> Core<D>
        ensures kept { kept_of D.seen result ≡ kept_with (D.seen deps) parts }
        ensures deps { result.deps ≡ deps }
        ensures core { (code : Parts) (main : Start CodeScript) (first : Items ℕ) (s : State CodeScript) (seen : Seen)
            (core : IsCore code main first (kept_with seen parts) s) → IsToldOf code core.bodies seen (D.seen deps) →
            IsCore code main first (kept_of D.seen result) s }
    {
        let CoreParts { tasks, tree, cells } = parts;
        Core {
            alloc,
            tasks,
            tree,
            deps,
            cells,
        }
    }

    /// The core of these parts over a dependency system that was told nothing, and is told now of all tasks and of the
    /// cells that they have given up. It stands for each state of the parts, of which there is one. Out of memory, the
    /// parts are let go.
    pub fn together(alloc: Global, parts: CoreParts, deps: D) -> Result<Core<D>, AllocError>
        requires some { AreSome parts.tasks.items parts.tree }
        requires opens { (D.seen deps).opens ≡ [] }
        requires given { (t c : ℕ) → (D.seen deps).given t c ≡ false }
        ensures kept { IfOk result (λ core. kept_of D.seen core ≡ kept_with (D.seen core.deps) parts) }
        ensures core { IfOk result (λ core. (code : Parts) (main : Start CodeScript) (first : Items ℕ)
            (s : State CodeScript) → AreParts code main first parts s → IsCore code main first (kept_of D.seen core) s) }
    {
        let mut deps = deps;
        let tasks = parts.tasks.as_slice();
        tell_tasks(&mut deps, tasks, &parts.tree)?;
        tell_cells(&mut deps, tasks, &parts.tree)?;
        Ok(Core::with_deps(alloc, parts, deps))
    }
}
