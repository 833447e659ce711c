//! Passes: what the tasks that are asked may give up or join, each at its turn.

ghost use Rattle.std.specs.Prelude.{◌≡◌, ◌≤◌, ◌<◌, ◌↔◌, ◌⊎◌, ℕ, true, length, IfOk, IsTrue, List as Items, None, OnOk, Some, slice_get};
ghost use Rattle.oss_code.specs.declared.code.CodeParts.{CodeParts};
ghost use Rattle.oss_ranges.specs.Cells.{value_at};
ghost use Rattle.oss_core.specs.Passing.{AreBoth, Continues, IsAdded};

use crate::machine::Core;
use oss_code::Code;
use oss_deps::Deps;
use oss_enabled_moves::{is_let, is_through, join_of, may_fold};
use oss_kept_tasks::Owed;
use oss_model::TaskNo;
use oss_ranges::RangeMap;
use oss_syntax::{Op, Range};
use std::alloc::AllocError;

/// A program has at most so many cells.
const CELLS: u32 = 1_048_576;

/// Neighbouring cells of one task that a pass has given up one after the other in one way: by lets, or by joins
/// of their slots.
#[derive(Clone, Copy)]
pub struct Passed {
    pub task: TaskNo,
    pub range: Range,
    /// By joins, and else by lets.
    pub joined: bool,
}

/// Whether a run goes on where the last one ends.
fn goes_on(last: &Passed, one: &Passed) -> bool
    ensures { IsTrue result ↔ Continues last.now one.now }
{
    last.task.0 == one.task.0 && last.joined == one.joined && last.range.hi == one.range.lo
}

/// One run in place of two.
fn both(last: &Passed, one: &Passed) -> Passed
    requires { Continues last.now one.now }
    ensures { AreBoth last.now one.now result }
{
    Passed {
        task: last.task,
        range: Range {
            lo: last.range.lo,
            hi: one.range.hi,
        },
        joined: last.joined,
    }
}

/// Adds a run behind all others: to the last one, where it goes on with it.
fn note(passed: &mut Vec<Passed>, one: Passed) -> Result<(), AllocError>
    ensures { OnOk result (IsAdded one passed.old.items passed.new.items) }
{
    match passed.pop() {
        Some(last) => {
            if goes_on(&last, &one) {
                passed.push(both(&last, &one))?;
            } else {
                passed.push(last)?;
                passed.push(one)?;
            }
        }
        None => passed.push(one)?,
    }
    Ok(())
}

/// Whether cells that a task owes by lets may be given up: it has released them, or is through.
fn is_given(released: bool, through: bool) -> bool
    ensures { IsTrue result ↔ ((released ≡ true) ⊎ (through ≡ true)) }
{
    released || through
}

/// No cell past the last is owed: a fact alone.
fn owes_none_past(owed: &RangeMap<Owed>)
    ensures { (c : ℕ) → 1048576 ≤ c → value_at owed.now.pieces c ≡ None }
{
    let _past = owed.run_from(0, CELLS);
}

impl<D: Deps> Core<D> {
    ghost use Rattle.oss_kept_tasks.specs.declared.held.Held.{Held as Kept};
    ghost use Rattle.oss_kept_tasks.specs.declared.held.Owed.TheVariants as ways;
    ghost use Rattle.oss_core.specs.Cores.{kept_of};
    ghost use Rattle.oss_core.specs.Awake.{HaveGivers};
    ghost use Rattle.oss_core.specs.Kept.{IsRunning};
    ghost use Rattle.oss_core.specs.Leaving.{HaveGivenUp};
    ghost use Rattle.oss_core.specs.Passing.{HasPassed, HaveGiven, OwesRange, RunPassed, TaskPassed};

    /// One pass: each of these tasks, in point order, and of each task its cells in rising order, gives up or
    /// joins what it may at its turn. The answer tells of each longest run of neighbouring cells that one task
    /// has given up in one way, in the order of the pass; no task of which it does not tell gives anything up.
    /// Condition: the list has, in point order, each task that is not still: that owes a cell and has ended, or
    /// that has released a cell which it owes by a let. Others may stand in it, as in a list of all that are
    /// not complete. It costs what the ranges of cells do that these tasks owe, and of slots what their cells
    /// do. After want of memory the core is given up.
    pub fn pass(&mut self, code: &Code, asked: &[TaskNo]) -> Result<Vec<Passed>, AllocError>
        requires running { IsRunning code.now (kept_of D.seen self.old) }
        requires asked { HaveGivers (kept_of D.seen self.old) asked.now }
        ensures passed { IfOk result (λ passed. HasPassed code.now (kept_of D.seen self.old)
            (kept_of D.seen self.new) passed.items) }
        ensures given_up { IfOk result (λ passed. HaveGivenUp passed.items (kept_of D.seen self.old)
            (kept_of D.seen self.new)) }
        ensures tasks { OnOk result (HaveGiven self.old.tree.tasks self.new.tree.tasks) }
    {
        let mut passed = Vec::new(self.alloc);
        for at in 0..asked.len() {
            self.pass_task(code, asked[at], &mut passed)?;
        }
        Ok(passed)
    }

    /// The cells of one task, in rising order. After want of memory the core is given up.
    fn pass_task(
        &mut self,
        code: &Code,
        task: TaskNo,
        passed: &mut Vec<Passed>,
    ) -> Result<(), AllocError>
        requires running { IsRunning code.now (kept_of D.seen self.old) }
        requires there { task.0 < length self.old.tasks.items }
        ensures { OnOk result (TaskPassed code.now task.0 (kept_of D.seen self.old) (kept_of D.seen self.new)
            passed.old.items passed.new.items) }
    {
        let mut from = 0;
        'runs: while from < CELLS {
            from = self.pass_run(code, task, from, passed)?;
        }
        owes_none_past(&self.tasks[task.0 as usize].owed);
        Ok(())
    }

    /// A run of cells of a task, from one on, that it owes in one way, or the first of them: the answer is
    /// where they end. After want of memory the core is given up.
    fn pass_run(
        &mut self,
        code: &Code,
        task: TaskNo,
        from: u32,
        passed: &mut Vec<Passed>,
    ) -> Result<u32, AllocError>
        requires running { IsRunning code.now (kept_of D.seen self.old) }
        requires there { task.0 < length self.old.tasks.items }
        requires before { from < 1048576 }
        ensures ends { IfOk result (λ to. (from < to) × (to ≤ 1048576)) }
        ensures passed { IfOk result (λ to. RunPassed code.now task.0 from to (kept_of D.seen self.old)
            (kept_of D.seen self.new) passed.old.items passed.new.items) }
    {
        let (owed, end) = self.tasks[task.0 as usize].owed.run_from(from, CELLS);
        let range = Range { lo: from, hi: end };
        if is_let(owed) {
            return self.pass_lets(task, range, passed);
        }
        match join_of(owed) {
            Some(op) => self.pass_join(code, task, range, op, passed),
            None => Ok(end),
        }
    }

    /// A run of cells of a task that it owes by lets, or its first cells, as far as the task has released all
    /// or none of them: the answer is where they end. After want of memory the core is given up.
    fn pass_lets(
        &mut self,
        task: TaskNo,
        range: Range,
        passed: &mut Vec<Passed>,
    ) -> Result<u32, AllocError>
        requires running { (code : CodeParts) × IsRunning code (kept_of D.seen self.old) }
        requires owes { OwesRange self.old.tasks.items task.0 range.lo range.hi }
        ensures ends { IfOk result (λ to. (range.lo < to) × (to ≤ range.hi)) }
        ensures passed { IfOk result (λ to. (code : CodeParts) →
            RunPassed code task.0 range.lo to (kept_of D.seen self.old) (kept_of D.seen self.new)
            passed.old.items passed.new.items) }
    {
        let body = &self.tasks[task.0 as usize].body;
        let (released, until) = body.released_run(range.lo, range.hi);
        let through = is_through(&self.tree, task, body);
        if !is_given(released, through) {
            return Ok(until);
        }
        let given = Range {
            lo: range.lo,
            hi: until,
        };
        self.let_range(task, given)?;
        note(
            passed,
            Passed {
                task,
                range: given,
                joined: false,
            },
        )?;
        Ok(given.hi)
    }

    /// A run of cells of a task whose slots it owes; where the task is through, its first cell alone: the
    /// answer is where they end. After want of memory the core is given up.
    fn pass_join(
        &mut self,
        code: &Code,
        task: TaskNo,
        range: Range,
        op: Op,
        passed: &mut Vec<Passed>,
    ) -> Result<u32, AllocError>
        requires running { IsRunning code.now (kept_of D.seen self.old) }
        requires owes { (held : Kept) × (slice_get self.old.tasks.items task.0 ≡ Some held) ×
            ((c : ℕ) → range.lo ≤ c → c < range.hi → value_at held.owed.pieces c ≡ Some (ways.Join op)) }
        ensures ends { IfOk result (λ to. (range.lo < to) × (to ≤ range.hi)) }
        ensures passed { IfOk result (λ to. RunPassed code.now task.0 range.lo to (kept_of D.seen self.old)
            (kept_of D.seen self.new) passed.old.items passed.new.items) }
    {
        let at = task.0 as usize;
        let cell = range.lo;
        if !is_through(&self.tree, task, &self.tasks[at].body) {
            return Ok(range.hi);
        }
        if !may_fold(&self.tasks[at], &self.tree, &mut self.deps, task, cell) {
            return Ok(cell + 1);
        }
        self.join(code, task, cell, op)?;
        note(
            passed,
            Passed {
                task,
                range: Range {
                    lo: cell,
                    hi: cell + 1,
                },
                joined: true,
            },
        )?;
        Ok(cell + 1)
    }
}
