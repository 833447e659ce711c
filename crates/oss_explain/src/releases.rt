//! What a task has released.

ghost use Rattle.std.specs.Prelude.{◌≡◌, ◌≤◌, ◌<◌, ◌==◌, ℕ, true, IfOk, MatchOption};
ghost use Rattle.oss_model.specs.Context.{in_clauses};
ghost use Rattle.oss_pieces.specs.CellSets.{has as has_cell};
ghost use Rattle.oss_explain.specs.Failures.{HasCell};
ghost use Rattle.oss_grammar.specs.Layout.{cells_in};
ghost use Rattle.oss_explain.specs.Reasons.{IsNotedReleased, IsReleasedOf, IsReleasedOn};

use crate::at_cell::has;
use crate::begun::{Begun, ReleasedAt};
use crate::failing::failing;
use oss_explanation::Reason;
use oss_pieces::CellSet;
use oss_syntax::{Access, Program, Range};
use std::alloc::{AllocError, Global};

/// Why a touch of a cell, or a directive that names cells, may not be: these have been released. The first of them is told
/// with the line of its release.
pub(crate) fn released_reason(
    alloc: Global,
    program: &Program,
    cells: &CellSet,
    released: &[ReleasedAt],
) -> Result<Reason, AllocError>
    requires layout { cells_in program.now.items ≤ 1048576 }
    requires some { HasCell (has_cell cells.now) }
    requires noted { (c : ℕ) → has_cell cells.now c ≡ true → IsNotedReleased released.now c }
    ensures { IfOk result (λ reason. IsReleasedOf program.now.items (has_cell cells.now) released.now reason) }
{
    let found = failing(alloc, program, cells)?;
    match line_of(released, found.first) {
        Some(line) => Ok(Reason::Released(line, found)),
        None => unreachable!(),
    }
}

/// Why a touch of this cell may not be: the task has released it.
pub(crate) fn touch_released(
    alloc: Global,
    program: &Program,
    cell: u32,
    top: &Begun,
) -> Result<Reason, AllocError>
    requires layout { cells_in program.now.items ≤ 1048576 }
    requires within { cell < 1048576 }
    requires noted { IsNotedReleased top.now.released cell }
    ensures { IfOk result (λ reason. IsReleasedOf program.now.items (λ c. cell == c) top.now.released reason) }
{
    let cells = one_cell(alloc, cell)?;
    released_reason(alloc, program, &cells, top.released.as_slice())
}

/// The set of one cell.
fn one_cell(alloc: Global, cell: u32) -> Result<CellSet, AllocError>
    requires { cell < 1048576 }
    ensures { IfOk result (λ cells. (c : ℕ) → has_cell cells c ≡ (cell == c)) }
{
    let mut cells = CellSet::new(alloc);
    cells.add(Range {
        lo: cell,
        hi: cell + 1,
    })?;
    Ok(cells)
}

/// The line on which a cell was released, if it was.
fn line_of(released: &[ReleasedAt], cell: u32) -> Option<u32>
    ensures { MatchOption result (IsNotedReleased released.now cell → ⊥) (λ line. IsReleasedOn released.now cell line) }
{
    for release in released {
        if names(release.clauses.as_slice(), cell) {
            return Some(release.line);
        }
    }
    None
}

/// Whether accesses name a cell.
fn names(accesses: &[Access], cell: u32) -> bool
    ensures { result ≡ in_clauses accesses.now cell }
{
    for access in accesses {
        if has(*access, cell) {
            return true;
        }
    }
    false
}
