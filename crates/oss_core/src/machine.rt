//! The machine of tasks.

ghost use Rattle.std.specs.Prelude.{◌≡◌, ◌≤◌, ◌↔◌, [], false, length, ℕ, Err, IfOk, IsTrue, List as Items, MatchOption, OnOk};
ghost use Rattle.oss_body.specs.Acts.{creates};
ghost use Rattle.oss_body.specs.Mains.{code_main};
ghost use Rattle.oss_code.specs.declared.code.CodeParts.{CodeParts};
ghost use Rattle.oss_machine.specs.Frames.{CodeScript};
ghost use Rattle.oss_machine.specs.Machines.{asks};
ghost use Rattle.oss_model.specs.Bodies.{Start};
ghost use Rattle.oss_model.specs.Machine.{State};
ghost use Rattle.oss_model.specs.Moves.{opening};
ghost use Rattle.oss_tree.specs.Tasks.{HasPoint};

use crate::fault::ApplyFault;
use crate::parts::CoreParts;
use oss_body::{Act, main_is_set};
use oss_code::Code;
use oss_deps::Deps;
use oss_enabled_moves::{join_of, may_join, may_let, may_step};
use oss_kept_tasks::{BoxedBody, Held};
use oss_model::{Move, TaskNo};
use oss_ranges::RangeMap;
use oss_tree::Tree;
use std::alloc::{AllocError, Global};

/// The machine of tasks over a dependency system: their bodies, where they stand, what they have printed, which
/// cells they are still to give up, and the memory. It makes the moves of the definitions, one at a time, in
/// whatever order they are asked for.
pub struct Core<D: Deps> {
    pub(crate) alloc: Global,
    /// What is kept of each task, by its number.
    pub(crate) tasks: Vec<Held>,
    /// Where the tasks stand, and what they have printed.
    pub(crate) tree: Tree,
    /// What may go on, as far as cells go.
    pub(crate) deps: D,
    /// The memory: one number of 64 bits for each cell.
    pub(crate) cells: Vec<u64>,
}

// By hand, so that who lets one go calls this, and does not take it apart at each exit.
impl<D: Deps> Drop for Core<D> {
    fn drop(self) {
        let Core {
            alloc: _,
            tasks,
            tree,
            deps,
            cells,
        } = self;
        drop(tasks);
        drop(tree);
        drop(deps);
        drop(cells);
    }
}

/// Whether an act creates a task of the machine.
pub(crate) fn is_creation(act: &Act) -> bool
    ensures { result ≡ creates act.now }
{
    match act {
        Act::Create { included, .. } => !*included,
        Act::Tick => false,
        Act::Load(_) => false,
        Act::Store(_, _) => false,
        Act::Fold { .. } => false,
        Act::Await => false,
        Act::Wait => false,
        Act::WaitOn(_) => false,
        Act::Release { .. } => false,
        Act::Print { .. } => false,
        Act::End => false,
        Act::Fault { .. } => false,
    }
}

impl<D: Deps> Core<D> {
    ghost use Rattle.oss_model.specs.declared.moving.Move.{Move as Meant};
    ghost use Rattle.oss_core.specs.declared.fault.ApplyFault.TheVariants as faults;
    ghost use Rattle.oss_core.specs.Changes.{IsMade, IsMove, MayMove};
    ghost use Rattle.oss_core.specs.Cores.{kept_of};
    ghost use Rattle.oss_core.specs.Kept.{IsCore, IsRunning};
    ghost use Rattle.oss_core.specs.Parts.{AreParts, kept_with};

    /// The machine at its beginning: main alone, which has done nothing, over the cells of its code. Want of
    /// memory is the one error. Condition: the code has at most 1,048,576 cells, and in the dependency system
    /// no task is open and no cell given up.
    pub fn new(alloc: Global, code: &Code, fuel: u32, deps: D) -> Result<Core<D>, AllocError>
        requires cells { length code.now.first ≤ 1048576 }
        requires opens { (D.seen deps).opens ≡ [] }
        requires given { (t c : ℕ) → (D.seen deps).given t c ≡ false }
        ensures { IfOk result (λ core. IsCore code.now (code_main code.now fuel) code.now.first
            (kept_of D.seen core) (opening (code_main code.now fuel) code.now.first)) }
    {
        main_is_set(code, fuel);
        let body = BoxedBody::main(alloc, code, fuel)?;
        let main = Held {
            body,
            owed: RangeMap::new(alloc),
        };
        let mut tasks = Vec::new(alloc);
        tasks.push(main)?;
        Ok(Core {
            alloc,
            tasks,
            tree: Tree::new(alloc)?,
            deps,
            cells: Vec::from_slice(alloc, code.first().as_slice())?,
        })
    }

    /// The task that has this point; `None` exactly where none has. It takes no memory.
    pub fn find(&self, point: &[u16]) -> Option<TaskNo>
        ensures { MatchOption result ((t : ℕ) → HasPoint self.now.tree.tasks t point.now →
            ⊥) (λ task. HasPoint self.now.tree.tasks task.0 point.now) }
    {
        self.tree.find(point)
    }

    /// Whether a move may be made: exactly where the definitions allow it from the state for which the core
    /// stands. It takes no memory, and the core stays.
    pub fn enabled(&mut self, m: &Move) -> bool
        requires { (code : CodeParts) × IsRunning code (kept_of D.seen self.old) }
        ensures may { IsTrue result ↔ MayMove (kept_of D.seen self.old) m.now }
        ensures enabled { (code : CodeParts) (main : Start CodeScript) (first : Items ℕ)
            (s : State CodeScript) → IsCore code main first (kept_of D.seen self.old) s →
            (IsTrue result ↔ ((n : State CodeScript) × IsMove (asks code) self.old.tree.tasks m.now s n)) }
        ensures same { kept_of D.seen self.new ≡ kept_of D.seen self.old }
    {
        self.may_move(m)
    }

    /// The same, told of what is kept alone.
    pub(crate) fn may_move(&mut self, m: &Move) -> bool
        requires { (code : CodeParts) × IsRunning code (kept_of D.seen self.old) }
        ensures may { IsTrue result ↔ MayMove (kept_of D.seen self.old) m.now }
        ensures same { kept_of D.seen self.new ≡ kept_of D.seen self.old }
    {
        let tasks = self.tasks.as_slice();
        match m {
            Move::Step(task) => may_step(tasks, &self.tree, &mut self.deps, *task),
            Move::Let(task, cell) => may_let(tasks, &self.tree, *task, *cell),
            Move::Join(task, cell) => may_join(tasks, &self.tree, &mut self.deps, *task, *cell),
        }
    }

    /// Makes a move that may be made. After want of memory the core is given up.
    fn make(&mut self, code: &Code, m: Move) -> Result<(), AllocError>
        requires running { IsRunning code.now (kept_of D.seen self.old) }
        requires may { MayMove (kept_of D.seen self.old) m }
        ensures { OnOk result (IsMade code.now (kept_of D.seen self.old) (kept_of D.seen self.new) m) }
    {
        match m {
            Move::Step(task) => self.make_step(code, task),
            Move::Let(task, cell) => self.let_go(task, cell),
            Move::Join(task, cell) => self.make_join(code, task, cell),
        }
    }

    /// Makes a step that may be made.
    fn make_step(&mut self, code: &Code, task: TaskNo) -> Result<(), AllocError>
        requires running { IsRunning code.now (kept_of D.seen self.old) }
        requires may { MayMove (kept_of D.seen self.old) (Meant.Step task) }
        ensures { OnOk result (IsMade code.now (kept_of D.seen self.old) (kept_of D.seen self.new) (Meant.Step task)) }
    {
        if is_creation(self.tasks[task.0 as usize].body.pending()) {
            self.create(code, task)
        } else {
            self.step(code, task)
        }
    }

    /// Makes a join that may be made.
    fn make_join(&mut self, code: &Code, task: TaskNo, cell: u32) -> Result<(), AllocError>
        requires running { IsRunning code.now (kept_of D.seen self.old) }
        requires may { MayMove (kept_of D.seen self.old) (Meant.Join task cell) }
        ensures { OnOk result (IsMade code.now (kept_of D.seen self.old) (kept_of D.seen self.new)
            (Meant.Join task cell)) }
    {
        match join_of(self.tasks[task.0 as usize].owed.get(cell)) {
            Some(op) => self.join(code, task, cell, op),
            None => unreachable!(),
        }
    }

    /// Makes a move: `Ok` exactly where it was enabled and was made, so that the core stands for a state to
    /// which the move leads. `NotNow` comes exactly where it is not enabled, before memory is taken, and the
    /// core is as it was. `Memory` comes of an enabled move alone, and after it the core is given up. The code
    /// is the one with which the core was made.
    pub fn apply(&mut self, code: &Code, m: Move) -> Result<(), ApplyFault>
        requires { IsRunning code.now (kept_of D.seen self.old) }
        ensures ok { OnOk result (IsMade code.now (kept_of D.seen self.old) (kept_of D.seen self.new) m) }
        ensures not_now { result ≡ Err faults.NotNow →
            (main : Start CodeScript) (first : Items ℕ) (s : State CodeScript) →
            IsCore code.now main first (kept_of D.seen self.old) s → (n : State CodeScript) →
            IsMove (asks code.now) self.old.tree.tasks m s n → ⊥ }
        ensures same { result ≡ Err faults.NotNow → kept_of D.seen self.new ≡ kept_of D.seen self.old }
        ensures now { (result ≡ Err faults.NotNow → ⊥) →
            (main : Start CodeScript) (first : Items ℕ) (s : State CodeScript) →
            IsCore code.now main first (kept_of D.seen self.old) s → (n : State CodeScript) ×
            IsMove (asks code.now) self.old.tree.tasks m s n }
    {
        if !self.enabled(&m) {
            return Err(ApplyFault::NotNow);
        }
        match self.make(code, m) {
            Ok(()) => Ok(()),
            Err(full) => Err(ApplyFault::Memory(full)),
        }
    }

    /// What the core keeps, and its dependency system. The parts are those of each state for which the core stands. It
    /// takes no memory.
    pub fn apart(self) -> (CoreParts, D)
        ensures kept { kept_with (D.seen result.1) result.0 ≡ kept_of D.seen self }
        ensures deps { result.1 ≡ self.deps }
        ensures parts { (code : CodeParts) (main : Start CodeScript) (first : Items ℕ) (s : State CodeScript) →
            IsCore code main first (kept_of D.seen self) s → AreParts code main first result.0 s }
    {
        let Core {
            alloc: _,
            tasks,
            tree,
            deps,
            cells,
        } = self;
        (CoreParts { tasks, tree, cells }, deps)
    }

    /// The dependency system, as the moves have left it; all else is let go.
    pub fn into_deps(self) -> D
        ensures { result ≡ self.deps }
    {
        let Core {
            alloc: _,
            tasks,
            tree,
            deps,
            cells,
        } = self;
        drop(tasks);
        drop(tree);
        drop(cells);
        deps
    }
}
