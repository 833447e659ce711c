//! Runs of cells of which a map says the same.

ghost use Rattle.oss_ranges.specs.Cells.{Assigns};
ghost use Rattle.std.specs.Prelude.{OnOk};

use oss_ranges::RangeMap;
use oss_syntax::Range;
use std::alloc::AllocError;

/// A program has no cell from here on.
pub(crate) const CELLS: u32 = 1_048_576;

/// Gives the cells of a run this value, or none.
pub(crate) fn put<T: Copy + Eq>(
    map: &mut RangeMap<T>,
    run: Range,
    value: Option<T>,
) -> Result<(), AllocError>
    ensures { OnOk result (Assigns run.lo run.hi value map.old.pieces map.new.pieces) }
{
    match value {
        Some(value) => map.assign(run, value),
        None => map.clear(run),
    }
}
