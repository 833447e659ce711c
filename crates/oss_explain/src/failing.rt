//! Which cells of a directive fail.

ghost use Rattle.std.specs.Prelude.{◌≡◌, ◌≤◌, ◌<◌, ◌&&◌, ℕ, true, false, IfOk, OnOk};
ghost use Rattle.oss_grammar.specs.Layout.{cells_in};
ghost use Rattle.oss_model.specs.Context.{in_clauses, right_of};
ghost use Rattle.oss_model.specs.Rights.{covers};
ghost use Rattle.oss_pieces.specs.CellSets.{has};
ghost use Rattle.oss_judge.specs.Seen.{right_seen};
ghost use Rattle.oss_explanation.specs.Held.{AreFailing};
ghost use Rattle.oss_explain.specs.Failures.{HasCell, passes, is_uncovered_by};
ghost use Rattle.oss_ranges.specs.Cells.{value_at};

use crate::modes::Modes;
use crate::words_of::same_op;
use oss_explanation::Failing;
use oss_judge::{Context, Right};
use oss_pieces::{CELLS, CellSet, pieces};
use oss_syntax::{Access, Mode, Program, Range};
use std::alloc::{AllocError, Global};

/// A test of the right to a cell.
#[derive(Clone, Copy)]
pub(crate) enum Test {
    /// The task has released the cell.
    Released,
    /// It never had a right to the cell.
    Lacking,
}

/// The cells of a set, which has one at least, as they are told. It costs what the globals and the runs of the set do.
/// Out of memory is the one error.
pub(crate) fn failing(
    alloc: Global,
    program: &Program,
    cells: &CellSet,
) -> Result<Failing, AllocError>
    requires layout { cells_in program.now.items ≤ 1048576 }
    requires some { HasCell (has cells.now) }
    ensures { IfOk result (λ found. AreFailing program.now.items (has cells.now) found) }
{
    let all = pieces(alloc, program, cells)?;
    Ok(Failing {
        first: first_cell(cells),
        all,
    })
}

/// The first cell of a set; 1,048,576 if it has none.
fn first_cell(cells: &CellSet) -> u32
    ensures within { result ≤ 1048576 }
    ensures least { (c : ℕ) → c < result → has cells.now c ≡ false }
    ensures found { result < 1048576 → has cells.now result ≡ true }
{
    let mut at = 0;
    'runs: while at < CELLS {
        let (held, end) = cells.run_from(at, CELLS);
        if held {
            return at;
        }
        at = end;
    }
    at
}

/// The cells that accesses name.
pub(crate) fn cells_named(alloc: Global, accesses: &[Access]) -> Result<CellSet, AllocError>
    ensures { IfOk result (λ cells. (c : ℕ) → has cells c ≡ in_clauses accesses.now c) }
{
    let mut cells = CellSet::new(alloc);
    for access in accesses {
        cells.add(access.range)?;
    }
    Ok(cells)
}

/// The cells that accesses name and of which the right passes a test. It costs what the runs of alike cells do.
pub(crate) fn cells_that(
    alloc: Global,
    context: &Context,
    named: &CellSet,
    test: Test,
) -> Result<CellSet, AllocError>
    ensures cells { IfOk result (λ cells. (c : ℕ) → c < 1048576 → has cells c ≡ (has named.now c && passes test (right_of context.now c))) }
    ensures past { IfOk result (λ cells. (c : ℕ) → 1048576 ≤ c → has cells c ≡ false) }
{
    let mut cells = CellSet::new(alloc);
    let mut from = 0;
    'runs: while from < CELLS {
        let (held, next) = named.run_from(from, CELLS);
        let (right, end) = context.right_run(from, next);
        if held && does_pass(test, right) {
            cells.add(Range { lo: from, hi: end })?;
        }
        from = end;
    }
    Ok(cells)
}

/// Whether a right passes a test.
fn does_pass(test: Test, right: Right) -> bool
    ensures { result ≡ passes test (right_seen right) }
{
    match test {
        Test::Released => match right {
            Right::Released => true,
            _ => false,
        },
        Test::Lacking => match right {
            Right::Nothing => true,
            _ => false,
        },
    }
}

/// The cells of which the right of a task does not cover the mode that clauses give. It costs what the runs of alike cells
/// do.
pub(crate) fn uncovered_cells(
    alloc: Global,
    context: &Context,
    wanted: &Modes,
) -> Result<CellSet, AllocError>
    ensures { IfOk result (λ cells. (c : ℕ) → has cells c ≡ is_uncovered_by (right_of context.now c) (value_at wanted.now.modes.pieces c)) }
{
    let mut cells = CellSet::new(alloc);
    let mut from = 0;
    'runs: while from < CELLS {
        let (mode, next) = wanted.modes.run_from(from, CELLS);
        let (right, end) = context.right_run(from, next);
        if is_uncovered(right, mode) {
            cells.add(Range { lo: from, hi: end })?;
        }
        from = end;
    }
    Ok(cells)
}

/// Whether a right does not cover an access of this mode, if there is one.
fn is_uncovered(right: Right, mode: Option<Mode>) -> bool
    ensures { result ≡ is_uncovered_by (right_seen right) mode }
{
    match mode {
        None => false,
        Some(wanted) => match right {
            Right::Holds(held, _) => !does_cover(held, wanted),
            _ => true,
        },
    }
}

/// Whether a right of the first mode covers a child's access of the second.
fn does_cover(held: Mode, wanted: Mode) -> bool
    ensures { result ≡ covers held wanted }
{
    match held {
        Mode::Write => true,
        Mode::Read => match wanted {
            Mode::Read => true,
            _ => false,
        },
        Mode::Fold(op) => match wanted {
            Mode::Fold(other) => same_op(op, other),
            _ => false,
        },
    }
}
