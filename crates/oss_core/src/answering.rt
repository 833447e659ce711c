//! The answer of a machine that stands still.

ghost use Rattle.std.specs.Prelude.{◌≡◌, ◌<◌, ◌≤◌, ◌↔◌, ◌+◌, ℕ, length, IfOk, IfSome, IsTrue, List as Items, None};
ghost use Rattle.oss_code.specs.declared.code.CodeParts.{CodeParts};
ghost use Rattle.oss_machine.specs.Frames.{CodeScript};
ghost use Rattle.oss_machine.specs.Machines.{asks};
ghost use Rattle.oss_model.specs.Answers.{IsAnswer, IsStopped};
ghost use Rattle.oss_model.specs.Bodies.{Start};
ghost use Rattle.oss_model.specs.Machine.{State};
ghost use Rattle.oss_kept_tasks.specs.FirstFault.{AreKeyed, IsFaultless, IsFirstFault};
ghost use Rattle.oss_core.specs.Stops.{AreUnfinishedTo, HasUnfinished, IsAnswerOf, IsStill};

use crate::machine::Core;
use oss_deps::Deps;
use oss_enabled_moves::is_still;
use oss_kept_tasks::first_fault;
use oss_model::{Answer, FaultKind, Point, TaskNo};
use oss_syntax::Cells;
use oss_tree::Tree;
use std::alloc::AllocError;

/// How many of the tasks up to this one are not complete, so many of those below it not being complete.
fn with_task(tree: &Tree, task: TaskNo, unfinished: u64) -> u64
    requires there { task.0 < length tree.now.tasks }
    requires few { unfinished ≤ task.0 }
    requires told { AreUnfinishedTo tree.now.tasks task.0 unfinished }
    ensures few { result ≤ task.0 + 1 }
    ensures told { AreUnfinishedTo tree.now.tasks (task.0 + 1) result }
{
    // (its clause tells that the tasks are those of a tree)
    let _count = tree.count();
    if tree.complete(task) {
        unfinished
    } else {
        unfinished + 1
    }
}

/// How many of the tasks are not complete.
fn unfinished_in(tree: &Tree) -> u64
    ensures { AreUnfinishedTo tree.now.tasks (length tree.now.tasks) result }
{
    let mut unfinished = 0;
    for at in 0..tree.count() {
        unfinished = with_task(tree, TaskNo(at), unfinished);
    }
    unfinished
}

impl<D: Deps> Core<D> {
    ghost use Rattle.oss_core.specs.Cores.{kept_of};
    ghost use Rattle.oss_core.specs.Kept.{IsCore, IsRunning};

    /// Whether no move may be made: exactly where the state for which the core stands is stopped. The core
    /// stays. It takes no memory.
    pub fn stopped(&mut self) -> bool
        requires { (code : CodeParts) × IsRunning code (kept_of D.seen self.old) }
        ensures still { IsTrue result ↔ IsStill (kept_of D.seen self.old) }
        ensures stopped { (code : CodeParts) (main : Start CodeScript) (first : Items ℕ)
            (s : State CodeScript) → IsCore code main first (kept_of D.seen self.old) s →
            (IsTrue result ↔ IsStopped (asks code) s) }
        ensures same { kept_of D.seen self.new ≡ kept_of D.seen self.old }
    {
        is_still(self.tasks.as_slice(), &self.tree, &mut self.deps)
    }

    /// How many tasks are not complete. It takes no memory.
    pub fn unfinished(&self) -> u64
        ensures { (code : CodeParts) (main : Start CodeScript) (first : Items ℕ) (s : State CodeScript) →
            IsCore code main first (kept_of D.seen self.now) s → HasUnfinished (asks code) s result }
    {
        unfinished_in(&self.tree)
    }

    /// The answer of a stopped state: exactly that of the definitions; `None` exactly where a move is left. The
    /// core stays. Want of memory is the one error.
    pub fn answer(&mut self) -> Result<Option<Answer>, AllocError>
        requires { (code : CodeParts) × IsRunning code (kept_of D.seen self.old) }
        ensures some { IfOk result (λ a. IfSome a (λ b. (code : CodeParts) (main : Start CodeScript)
            (first : Items ℕ) (s : State CodeScript) → IsCore code main first (kept_of D.seen self.old) s →
            IsStopped (asks code) s × IsAnswer (asks code) s b)) }
        ensures none { IfOk result (λ a. a ≡ None →
            (code : CodeParts) (main : Start CodeScript) (first : Items ℕ) (s : State CodeScript) →
            IsCore code main first (kept_of D.seen self.old) s → IsStopped (asks code) s → ⊥) }
        ensures same { kept_of D.seen self.new ≡ kept_of D.seen self.old }
    {
        if !self.stopped() {
            return Ok(None);
        }
        let answer = self.answer_now()?;
        Ok(Some(answer))
    }

    /// The answer, where the machine stands still.
    fn answer_now(&self) -> Result<Answer, AllocError>
        ensures { IfOk result (λ a. IsAnswerOf (kept_of D.seen self.now) a × AreKeyed self.now.tasks.items) }
    {
        match first_fault(self.tasks.as_slice()) {
            Some(seen) => self.fault_answer(seen.kind, seen.line, seen.key),
            None => self.done_answer(),
        }
    }

    /// The answer where no task stands before a fault.
    fn done_answer(&self) -> Result<Answer, AllocError>
        requires { IsFaultless self.now.tasks.items }
        ensures { IfOk result (λ a. IsAnswerOf (kept_of D.seen self.now) a) }
    {
        let output = self.tree.output()?;
        let cells = Vec::from_slice(self.alloc, self.cells.as_slice())?;
        Ok(Answer::Done(output, Cells::from_vec(cells)))
    }

    /// The answer where this is the first fault before which a task stands.
    fn fault_answer(&self, kind: FaultKind, line: u32, key: &Point) -> Result<Answer, AllocError>
        requires { IsFirstFault self.now.tasks.items kind line key.now }
        ensures { IfOk result (λ a. IsAnswerOf (kept_of D.seen self.now) a) }
    {
        let output = self.tree.output_before(key)?;
        Ok(Answer::Fault(kind, line, output))
    }
}
