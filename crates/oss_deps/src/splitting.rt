//! How stretches are made and divided. The new part gets a copy of all accesses, so no answer changes at any cell.

ghost use Rattle.std.specs.Prelude.{◌≡◌, ◌<◌, [], Some, OnErr, OnOk, slice_get};
ghost use Rattle.oss_ranges.specs.Cells.{value_at};
ghost use Rattle.oss_deps.specs.declared.column.Column.{Column as Stretch};
ghost use Rattle.oss_deps.specs.Columns.{AreStretches, IsDivided, IsDividedAt, IsFiner};

use crate::column::Column;
use oss_ranges::RangeMap;
use oss_syntax::Range;
use std::alloc::{AllocError, Global};

/// A program has no cell from here on.
pub(crate) const CELLS: u32 = 1_048_576;

/// Makes a stretch of all cells, where there is none.
pub(crate) fn cover(
    alloc: Global,
    map: &mut RangeMap<usize>,
    columns: &mut Vec<Column>,
) -> Result<(), AllocError>
    requires { AreStretches map.old.pieces columns.old.items }
    ensures finer { IsFiner map.old.pieces columns.old.items map.new.pieces columns.new.items }
    ensures some { OnOk result (columns.new.items ≡ [] → ⊥) }
{
    if !columns.is_empty() {
        return Ok(());
    }
    map.reserve(1)?;
    columns.reserve(1)?;
    let column = Column::whole(alloc, CELLS)?;
    map.assign(Range { lo: 0, hi: CELLS }, 0)?;
    columns.push_reserved(column);
    Ok(())
}

/// Divides the stretch that has a cell and the one before it.
pub(crate) fn split(
    alloc: Global,
    map: &mut RangeMap<usize>,
    columns: &mut Vec<Column>,
    cell: u32,
) -> Result<(), AllocError>
    requires { AreStretches map.old.pieces columns.old.items }
    ensures finer { IsFiner map.old.pieces columns.old.items map.new.pieces columns.new.items }
    ensures divided { OnOk result (IsDivided columns.new.items cell) }
{
    match map.get(cell) {
        Some(at) => {
            if columns[at].lo < cell {
                divide(alloc, map, columns, at, cell)
            } else {
                Ok(())
            }
        }
        None => Ok(()),
    }
}

/// Divides a stretch at a cell inside of it.
fn divide(
    alloc: Global,
    map: &mut RangeMap<usize>,
    columns: &mut Vec<Column>,
    at: usize,
    cell: u32,
) -> Result<(), AllocError>
    requires stretches { AreStretches map.old.pieces columns.old.items }
    requires here { value_at map.old.pieces cell ≡ Some at }
    requires begins { (a : Stretch) → slice_get columns.old.items at ≡ Some a → a.lo < cell }
    ensures ok { OnOk result (IsDividedAt map.old.pieces columns.old.items map.new.pieces columns.new.items at cell) }
    ensures map { OnErr result (map.new.pieces ≡ map.old.pieces) }
    ensures columns { OnErr result (columns.new.items ≡ columns.old.items) }
{
    map.reserve(1)?;
    columns.reserve(1)?;
    let part = columns[at].from(alloc, cell)?;
    let new = columns.len();
    map.assign(
        Range {
            lo: cell,
            hi: part.hi,
        },
        new,
    )?;
    columns[at].hi = cell;
    columns.push_reserved(part);
    Ok(())
}
