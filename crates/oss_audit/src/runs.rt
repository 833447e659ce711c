//! The longest runs of cells that are declared and were not touched.

ghost use Rattle.std.specs.Prelude.{◌≡◌, ◌≤◌, ◌<◌, ℕ, IfOk, OnOk};
ghost use Rattle.oss_pieces.specs.CellSets.{is_left};
ghost use Rattle.oss_audit.specs.Runs.{AddsRun, HasRuns};

use crate::unused::Unused;
use oss_model::Point;
use oss_pieces::{CELLS, CellSet};
use oss_syntax::Range;
use std::alloc::{AllocError, Global};

/// The cells that are declared and were not touched, as longest runs of neighbouring cells, each with this
/// point. It costs what the ranges of the two sets do.
pub(crate) fn unused_runs(
    alloc: Global,
    point: &Point,
    declared: &CellSet,
    touched: &CellSet,
) -> Result<Vec<Unused>, AllocError>
    ensures { IfOk result (λ told. HasRuns point.now declared.now touched.now 1048576 told.items) }
{
    let mut told = Vec::new(alloc);
    let mut start = 0;
    let mut from = 0;
    'runs: while from < CELLS {
        let (left, end) = left_run(declared, touched, from, CELLS);
        let over = !left;
        if over {
            tell(point, start, from, &mut told)?;
            start = end;
        }
        from = end;
    }
    tell(point, start, from, &mut told)?;
    Ok(told)
}

/// Whether the cell `from` is declared and was not touched, and the cell up to which it is so with all cells:
/// `to` at most.
fn left_run(declared: &CellSet, touched: &CellSet, from: u32, to: u32) -> (bool, u32)
    requires { from < to }
    ensures alike { (c : ℕ) → from ≤ c → c < result.1 → is_left declared.now touched.now c ≡ result.0 }
    ensures some { from < result.1 }
    ensures within { result.1 ≤ to }
{
    let (named, end) = declared.run_from(from, to);
    if !named {
        return (false, end);
    }
    let (used, end) = touched.run_from(from, end);
    (!used, end)
}

/// Adds the run of the cells from `lo` up to `hi`, if it has one.
fn tell(point: &Point, lo: u32, hi: u32, told: &mut Vec<Unused>) -> Result<(), AllocError>
    requires { hi ≤ 1048576 }
    ensures { OnOk result (AddsRun point.now lo hi told.old.items told.new.items) }
{
    if lo >= hi {
        return Ok(());
    }
    let point = point.copy()?;
    told.push(Unused {
        point,
        range: Range { lo, hi },
    })?;
    Ok(())
}
