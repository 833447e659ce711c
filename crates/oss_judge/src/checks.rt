//! Whether a task may give rights away, or wait for cells. A call costs what the runs of alike cells in the
//! ranges cost, however many cells they have.
ghost use Rattle.std.specs.Prelude.{◌≡◌, ◌-◌, map};
ghost use Rattle.std.specs.Result.{result_err};
ghost use Rattle.oss_model.specs.Rights.{any_cell, any_from, holds_uncovered, is_released};
ghost use Rattle.oss_model.specs.Context.{lacks_right};
ghost use Rattle.oss_judge.specs.Parts.{cover_fault, reading, wait_fault};
ghost use Rattle.oss_judge.specs.Seen.{right_at};

use crate::right::{Right, told};
use oss_model::FaultKind;
use oss_ranges::RangeMap;
use oss_syntax::{Access, Range};

/// A task with these rights may give such rights to the cells that clauses name.
pub(crate) fn check_covered(
    own: &RangeMap<Right>,
    given: &RangeMap<Right>,
    clauses: &[Access],
) -> Result<(), FaultKind>
    ensures { result_err result ≡ cover_fault (right_at own.now.pieces) (right_at given.now.pieces) clauses.now }
{
    if is_any_released(own, clauses) {
        return Err(FaultKind::Released);
    }
    if is_any_uncovered(own, given, clauses) {
        return Err(FaultKind::NotCovered);
    }
    Ok(())
}

/// A task with these rights may wait for its children's accesses to the cells of ranges.
pub(crate) fn check_waited_on(own: &RangeMap<Right>, named: &[Range]) -> Result<(), FaultKind>
    ensures { result_err result ≡ wait_fault (right_at own.now.pieces) (map reading named.now) }
{
    if is_any_named_released(own, named) {
        return Err(FaultKind::Released);
    }
    if is_any_named_lacking(own, named) {
        return Err(FaultKind::NotCovered);
    }
    Ok(())
}

/// The task has released a cell of a range.
fn is_any_named_released(own: &RangeMap<Right>, named: &[Range]) -> bool
    ensures { result ≡ any_cell (λ c. is_released (right_at own.now.pieces c)) (map reading named.now) }
{
    for range in named {
        if is_released_in(own, *range) {
            return true;
        }
    }
    false
}

/// The task never had a right to a cell of a range.
fn is_any_named_lacking(own: &RangeMap<Right>, named: &[Range]) -> bool
    ensures { result ≡ any_cell (λ c. lacks_right (right_at own.now.pieces c)) (map reading named.now) }
{
    for range in named {
        if is_lacking_in(own, *range) {
            return true;
        }
    }
    false
}

/// The task has released a cell that clauses name.
fn is_any_released(own: &RangeMap<Right>, clauses: &[Access]) -> bool
    ensures { result ≡ any_cell (λ c. is_released (right_at own.now.pieces c)) clauses.now }
{
    for clause in clauses {
        if is_released_in(own, clause.range) {
            return true;
        }
    }
    false
}

/// The task has no right that covers the one that clauses give to a cell.
fn is_any_uncovered(own: &RangeMap<Right>, given: &RangeMap<Right>, clauses: &[Access]) -> bool
    ensures { result ≡ any_cell (λ c. holds_uncovered (right_at own.now.pieces c) (right_at given.now.pieces c))
        clauses.now }
{
    for clause in clauses {
        if is_uncovered_in(own, given, clause.range) {
            return true;
        }
    }
    false
}

fn is_released_in(own: &RangeMap<Right>, range: Range) -> bool
    ensures { result ≡ any_from (λ c. is_released (right_at own.now.pieces c)) range.lo (range.hi - range.lo) }
{
    let mut from = range.lo;
    while from < range.hi {
        let (right, end) = own.run_from(from, range.hi);
        if told(right).is_released() {
            return true;
        }
        from = end;
    }
    false
}

fn is_lacking_in(own: &RangeMap<Right>, range: Range) -> bool
    ensures { result ≡ any_from (λ c. lacks_right (right_at own.now.pieces c)) range.lo (range.hi - range.lo) }
{
    let mut from = range.lo;
    while from < range.hi {
        let (right, end) = own.run_from(from, range.hi);
        if told(right).is_lacking() {
            return true;
        }
        from = end;
    }
    false
}

fn is_uncovered_in(own: &RangeMap<Right>, given: &RangeMap<Right>, range: Range) -> bool
    ensures { result ≡ any_from (λ c. holds_uncovered (right_at own.now.pieces c) (right_at given.now.pieces c))
        range.lo (range.hi - range.lo) }
{
    let mut from = range.lo;
    while from < range.hi {
        let (right, own_end) = own.run_from(from, range.hi);
        let (wanted, end) = given.run_from(from, own_end);
        if told(right).is_uncovered(told(wanted)) {
            return true;
        }
        from = end;
    }
    false
}
