//! Cells that are given up.

ghost use Rattle.std.specs.Prelude.{◌≡◌, ◌<◌, ◌↔◌, ℕ, suc, length, IfOk, IsTrue, MatchResult, None, OnOk, Some, slice_index, slice_set};
ghost use Rattle.oss_model.specs.Moves.{combine};
ghost use Rattle.oss_ranges.specs.Cells.{value_at};
ghost use Rattle.oss_kept_tasks.specs.declared.held.Owed.{Owed as Way};
ghost use Rattle.oss_core.specs.Changes.{GivesUp, Joins, Lets, noted_given};
ghost use Rattle.oss_core.specs.Giving.{HasCleared, HoldsCell, OwesCell};

use crate::machine::Core;
use oss_body::memory::{combined, set, value_at as value_in};
use oss_code::Code;
use oss_deps::Deps;
use oss_kept_tasks::{Held, Owed};
use oss_model::{TaskNo, range_of};
use oss_ranges::RangeMap;
use oss_syntax::{Op, Range};
use oss_tree::Tree;
use std::alloc::AllocError;

/// A program has at most so many cells.
const CELLS: u32 = 1_048_576;

/// Whether no cell is owed.
pub(crate) fn is_empty(owed: &RangeMap<Owed>) -> bool
    ensures { IsTrue result ↔ ((c : ℕ) → value_at owed.now.pieces c ≡ None) }
{
    // no cell past the last is owed: a fact alone
    let _past = owed.run_from(0, CELLS);
    let all = Range { lo: 0, hi: CELLS };
    owed.over(all).next().is_none()
}

/// The range of a cell that is owed.
fn owed_cell(owed: &RangeMap<Owed>, cell: u32) -> Range
    requires { (way : Way) × (value_at owed.now.pieces cell ≡ Some way) }
    ensures lo { result.lo ≡ cell }
    ensures hi { result.hi ≡ suc cell }
{
    let _past = owed.run_from(0, CELLS);
    range_of(cell)
}

/// The task at a place owes a cell no more. The answer is whether it owes none now.
fn clear(tasks: &mut Vec<Held>, at: usize, cell: Range) -> Result<bool, AllocError>
    requires owes { OwesCell tasks.old.items at cell.lo }
    requires one { cell.hi ≡ suc cell.lo }
    ensures { MatchResult result (λ last. HasCleared at cell.lo last tasks.old.items tasks.new.items) (λ e. Unit {0}) }
{
    let held = &mut tasks[at];
    held.owed.clear(cell)?;
    Ok(is_empty(&held.owed))
}

/// Notes that a task has given up all its cells, where this was the last.
pub(crate) fn note_given(tree: &mut Tree, task: TaskNo, last: bool)
    requires { task.0 < length tree.old.tasks }
    ensures tasks { tree.new.tasks ≡ noted_given task.0 last tree.old.tasks }
    ensures prints { tree.new.prints ≡ tree.old.prints }
{
    if last {
        tree.gave_all(task);
    }
}

/// Combines the value of a slot into its cell.
fn join_into(cells: &mut Vec<u64>, cell: u32, op: Op, slot: u64)
    ensures { cells.new.items ≡ slice_set cells.old.items cell (combine op (slice_index cells.old.items cell) slot) }
{
    let now = combined(op, value_in(cells.as_slice(), cell), slot);
    set(cells.as_mut_slice(), cell, now);
}

impl<D: Deps> Core<D> {
    ghost use Rattle.oss_core.specs.Cores.{kept_of};

    /// A task gives up a cell. After want of memory the core is given up.
    fn give_up(&mut self, task: TaskNo, cell: u32) -> Result<(), AllocError>
        requires sizes { length self.old.tree.tasks ≡ length self.old.tasks.items }
        requires owes { OwesCell self.old.tasks.items task.0 cell }
        requires holds { HoldsCell (D.seen self.old.deps) task.0 cell }
        ensures given { OnOk result (GivesUp task.0 cell (kept_of D.seen self.old) (kept_of D.seen self.new)) }
        ensures cells { OnOk result (self.new.cells.items ≡ self.old.cells.items) }
    {
        let at = task.0 as usize;
        let range = owed_cell(&self.tasks[at].owed, cell);
        self.deps.prepare(range)?;
        let last = clear(&mut self.tasks, at, range)?;
        note_given(&mut self.tree, task, last);
        self.deps.give(task, range);
        Ok(())
    }

    /// A task gives up a cell by a let. After want of memory the core is given up.
    pub(crate) fn let_go(&mut self, task: TaskNo, cell: u32) -> Result<(), AllocError>
        requires sizes { length self.old.tree.tasks ≡ length self.old.tasks.items }
        requires owes { OwesCell self.old.tasks.items task.0 cell }
        requires holds { HoldsCell (D.seen self.old.deps) task.0 cell }
        ensures { OnOk result (Lets task.0 cell (kept_of D.seen self.old) (kept_of D.seen self.new)) }
    {
        self.give_up(task, cell)
    }

    /// The slot of a task is joined into a cell by this operator. After want of memory the core is given up.
    pub(crate) fn join(
        &mut self,
        code: &Code,
        task: TaskNo,
        cell: u32,
        op: Op,
    ) -> Result<(), AllocError>
        requires sizes { length self.old.tree.tasks ≡ length self.old.tasks.items }
        requires owes { OwesCell self.old.tasks.items task.0 cell }
        requires holds { HoldsCell (D.seen self.old.deps) task.0 cell }
        ensures { OnOk result (Joins code.now task.0 cell op (kept_of D.seen self.old) (kept_of D.seen self.new)) }
    {
        let slot = self.tasks[task.0 as usize].body.slot(cell);
        self.give_up(task, cell)?;
        join_into(&mut self.cells, cell, op, slot);
        Ok(())
    }
}
