//! What clauses give to a new task, by ranges. A call costs what the runs of alike cells in the ranges of the
//! clauses cost, however many cells they have.
ghost use Rattle.std.specs.Prelude.{◌≡◌, ◌≤◌, ◌-◌, ℕ, true, if◌then◌else◌, [], IfOk, OnOk};
ghost use Rattle.oss_ranges.specs.Cells.{is_within};
ghost use Rattle.oss_model.specs.Rights.{any_cell, any_from, Written, first_mark, is_fresh, is_mixed, is_unjoinable, joined_right, right_from};
ghost use Rattle.oss_judge.specs.Seen.{mark_at, mark_seen, right_at, right_seen};

use crate::mark::Mark;
use crate::right::{Right, told};
use oss_ranges::RangeMap;
use oss_syntax::{Access, Mode, Range};
use std::alloc::AllocError;

/// A program has no cell from here on.
const CELLS: u32 = 1_048_576;

/// Puts the rights that clauses give into an empty map, and says whether two of the clauses cannot be joined. A
/// weak access counts as strong where the task is final.
pub(crate) fn join_all(
    rights: &mut RangeMap<Right>,
    clauses: &[Access],
    is_final: bool,
) -> Result<bool, AllocError>
    requires { rights.old.pieces ≡ [] }
    ensures given { OnOk result ((c : ℕ) → right_at rights.new.pieces c ≡ right_from is_final clauses.now c) }
    ensures mixed { IfOk result (λ mixed. mixed ≡ any_cell (is_mixed is_final clauses.now) clauses.now) }
{
    let mut is_mixed = false;
    let mut left = clauses.len();
    while left > 0 {
        left -= 1;
        let clause = clauses[left];
        if is_any_unjoinable(rights, clause.range, clause.mode) {
            is_mixed = true;
        }
        join(rights, clause.range, clause.mode, is_final || clause.strong)?;
    }
    Ok(is_mixed)
}

/// A clause of the mode cannot be joined to the right to a cell of the range.
fn is_any_unjoinable(rights: &RangeMap<Right>, range: Range, mode: Mode) -> bool
    ensures { result ≡ any_from (λ c. is_unjoinable mode (right_at rights.now.pieces c)) range.lo
        (range.hi - range.lo) }
{
    let mut from = range.lo;
    while from < range.hi {
        let (right, end) = rights.run_from(from, range.hi);
        if told(right).is_unjoinable(mode) {
            return true;
        }
        from = end;
    }
    false
}

/// Joins a clause to the rights to the cells of its range.
fn join(
    rights: &mut RangeMap<Right>,
    range: Range,
    mode: Mode,
    strong: bool,
) -> Result<(), AllocError>
    ensures { OnOk result ((c : ℕ) → right_at rights.new.pieces c ≡
        (if is_within range.lo range.hi c then joined_right mode strong (right_at rights.old.pieces c) else
        right_at rights.old.pieces c)) }
{
    let mut from = range.lo;
    while from < range.hi {
        let (own, end) = rights.run_from(from, range.hi);
        rights.assign(Range { lo: from, hi: end }, told(own).joined(mode, strong))?;
        from = end;
    }
    Ok(())
}

/// Puts the marks with which the cells of a new task start into an empty map. The rights are those that the
/// clauses give.
pub(crate) fn mark_all(
    marks: &mut RangeMap<Mark>,
    rights: &RangeMap<Right>,
    clauses: &[Access],
) -> Result<(), AllocError>
    requires { marks.old.pieces ≡ [] }
    ensures { OnOk result ((c : ℕ) → mark_at marks.new.pieces c ≡ first_mark (right_at rights.now.pieces c)
        (is_fresh clauses.now c)) }
{
    mark_writes(marks, rights)?;
    for clause in clauses {
        name(marks, clause.range, clause.fresh)?;
    }
    Ok(())
}

/// Puts the marks into an empty map with which cells start that `out` and `weakout` alone name.
fn mark_writes(marks: &mut RangeMap<Mark>, rights: &RangeMap<Right>) -> Result<(), AllocError>
    requires { marks.old.pieces ≡ [] }
    ensures { OnOk result ((c : ℕ) → mark_at marks.new.pieces c ≡ first_mark (right_at rights.now.pieces c) true) }
{
    let mut from = 0;
    while from < CELLS {
        let (right, end) = rights.run_from(from, CELLS);
        start(marks, Range { lo: from, hi: end }, first_of(told(right)))?;
        from = end;
    }
    Ok(())
}

/// The mark of a cell with this right, where clauses of `out` and `weakout` alone name it.
fn first_of(right: Right) -> Mark
    ensures { mark_seen result ≡ first_mark (right_seen right) true }
{
    match right {
        Right::Nothing => Mark::Written,
        Right::Released => Mark::Written,
        Right::Holds(Mode::Read, _) => Mark::Written,
        Right::Holds(Mode::Write, _) => Mark::Unwritten,
        Right::Holds(Mode::Fold(_), _) => Mark::Written,
    }
}

/// Gives the cells of a range their first mark. That they are written is what the map tells by itself.
fn start(marks: &mut RangeMap<Mark>, range: Range, mark: Mark) -> Result<(), AllocError>
    requires { (c : ℕ) → range.lo ≤ c → mark_at marks.old.pieces c ≡ Written }
    ensures { OnOk result ((c : ℕ) → mark_at marks.new.pieces c ≡
        (if is_within range.lo range.hi c then mark_seen mark else mark_at marks.old.pieces c)) }
{
    match mark {
        Mark::Unwritten => marks.assign(range, Mark::Unwritten),
        Mark::Written => Ok(()),
    }
}

/// Takes a clause into the marks: unless it is of `out` or `weakout`, its cells have a value, an old one that
/// the task may read.
fn name(marks: &mut RangeMap<Mark>, range: Range, fresh: bool) -> Result<(), AllocError>
    ensures { OnOk result ((c : ℕ) → mark_at marks.new.pieces c ≡
        (if is_within range.lo range.hi c then (if fresh then mark_at marks.old.pieces c else Written) else
        mark_at marks.old.pieces c)) }
{
    if fresh { Ok(()) } else { marks.clear(range) }
}
