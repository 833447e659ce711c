//! Which of some cells a task has released.

ghost use Rattle.std.specs.Prelude.{◌≡◌, ◌<◌, ◌==◌, ◌||◌, ℕ, false, true, is_some, IfOk, MatchOption, OnOk};
ghost use Rattle.oss_model.specs.Context.{in_clauses};
ghost use Rattle.oss_ranges.specs.Cells.{value_at};
ghost use Rattle.oss_pieces.specs.CellSets.{has};
ghost use Rattle.oss_lent_cells.specs.Kept.{in_ranges};
ghost use Rattle.oss_missing_waits.specs.Kept.{AreReleased, IsAddedFrom, IsBounded};

use oss_needs::Clause;
use oss_pieces::{CELLS, CellSet};
use oss_ranges::RangeMap;
use oss_syntax::{Access, Range};
use std::alloc::{AllocError, Global};

/// Of one cell.
pub(crate) fn used_cell(alloc: Global, released: &CellSet, cell: u32) -> Result<CellSet, AllocError>
    ensures { IfOk result (λ used. IsBounded released.now → AreReleased (λ c. cell == c) released.now used) }
{
    let mut used = CellSet::new(alloc);
    if is_released(released, cell) {
        used.add(Range {
            lo: cell,
            hi: cell + 1,
        })?;
    }
    Ok(used)
}

/// Whether a cell of a program is released.
fn is_released(released: &CellSet, cell: u32) -> bool
    ensures cell { result ≡ true → cell < 1048576 }
    ensures yes { result ≡ true → has released.now cell ≡ true }
    ensures no { result ≡ false → IsBounded released.now → has released.now cell ≡ false }
{
    cell < CELLS && released.has(cell)
}

/// Of the cells of these clauses.
pub(crate) fn used_by_clauses(
    alloc: Global,
    released: &CellSet,
    clauses: &[Access],
) -> Result<CellSet, AllocError>
    ensures { IfOk result (AreReleased (in_clauses clauses.now) released.now) }
{
    let mut used = CellSet::new(alloc);
    let mut left = clauses.len();
    while left > 0 {
        left -= 1;
        let clause = clauses[left];
        add_released(&mut used, released, clause.range)?;
    }
    Ok(used)
}

/// Of the cells of these ranges.
pub(crate) fn used_by_ranges(
    alloc: Global,
    released: &CellSet,
    named: &[Range],
) -> Result<CellSet, AllocError>
    ensures { IfOk result (AreReleased (in_ranges named.now) released.now) }
{
    let mut used = CellSet::new(alloc);
    let mut left = named.len();
    while left > 0 {
        left -= 1;
        add_released(&mut used, released, named[left])?;
    }
    Ok(used)
}

/// Of the cells of which the clauses of a task say something.
pub(crate) fn used_by_map(
    alloc: Global,
    released: &CellSet,
    clauses: &RangeMap<Clause>,
) -> Result<CellSet, AllocError>
    ensures { IfOk result (AreReleased (λ c. is_some (value_at clauses.now.pieces c)) released.now) }
{
    let mut used = CellSet::new(alloc);
    // (it tells that no cell from here on has a clause)
    let _past = clauses.run_from(0, CELLS);
    let mut from = 0;
    while from < CELLS {
        let (clause, to) = clauses.run_from(from, CELLS);
        if let Some(_clause) = clause {
            add_released(&mut used, released, Range { lo: from, hi: to })?;
        }
        from = to;
    }
    Ok(used)
}

/// Adds the cells of a range that are released.
fn add_released(used: &mut CellSet, released: &CellSet, range: Range) -> Result<(), AllocError>
    ensures { OnOk result (IsAddedFrom range.lo range.hi released.now used.old used.new) }
{
    let mut from = range.lo;
    while from < range.hi {
        let (held, to) = released.run_from(from, range.hi);
        if held {
            used.add(Range { lo: from, hi: to })?;
        }
        from = to;
    }
    Ok(())
}

/// Adds the cells of these clauses to those that are released.
pub(crate) fn release_all(released: &mut CellSet, clauses: &[Access]) -> Result<(), AllocError>
    ensures { OnOk result ((c : ℕ) → has released.new c ≡ (in_clauses clauses.now c || has released.old c)) }
{
    let mut left = clauses.len();
    while left > 0 {
        left -= 1;
        let clause = clauses[left];
        released.add(clause.range)?;
    }
    Ok(())
}

/// A cell of the set; `None` if a program has none of its cells.
pub(crate) fn cell_of(set: &CellSet) -> Option<u32>
    ensures { MatchOption result ((c : ℕ) → c < 1048576 → has set.now c ≡ false) (λ c. has set.now c ≡ true) }
{
    let mut at = 0;
    'runs: while at < CELLS {
        let (held, end) = set.run_from(at, CELLS);
        if held {
            return Some(at);
        }
        at = end;
    }
    None
}
