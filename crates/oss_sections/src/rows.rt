//! Ranges of cells in rows: one range for each row, and one for all of them where no cell is left out between.
ghost use Rattle.std.specs.Prelude.{◌≡◌, ◌+◌, ◌*◌, ◌<◌, ◌≤◌, Ok};
ghost use Rattle.std.specs.List.{range_with_len};
ghost use Rattle.oss_grammar.specs.SectionCells.{cells_of_rows};
ghost use Rattle.oss_sections.specs.Evaluated.{IsTold};

use crate::refused::SectionRefused;
use oss_syntax::{List, Range};
use std::alloc::Global;

/// The range of so many cells from one on, if it has a cell.
pub(crate) fn one_range(alloc: Global, first: u32, size: u32) -> Result<List<Range>, SectionRefused>
    requires { first + size ≤ 1048576 }
    ensures { IsTold (Ok (range_with_len first size)) result }
{
    let mut found = List::new(alloc);
    if 0 < size {
        found.push(Range {
            lo: first,
            hi: first + size,
        })?;
    }
    Ok(found)
}

/// The ranges of `size` cells in each of so many rows, from the cell `first` of the first of them on. Whole
/// rows are one range.
pub(crate) fn ranges_of_rows(
    alloc: Global,
    columns: u32,
    size: u32,
    first: u32,
    rows: u32,
) -> Result<List<Range>, SectionRefused>
    requires some { 0 < size }
    requires fits { size ≤ columns }
    requires within { first + rows * columns + size ≤ 1048576 + columns }
    ensures { IsTold (Ok (cells_of_rows columns size first rows)) result }
{
    if size == columns {
        one_range(alloc, first, rows * columns)
    } else {
        parted_rows(alloc, columns, size, first, rows)
    }
}

/// The same where cells are left out between two rows: one range for each.
fn parted_rows(
    alloc: Global,
    columns: u32,
    size: u32,
    first: u32,
    rows: u32,
) -> Result<List<Range>, SectionRefused>
    requires some { 0 < size }
    requires narrow { size < columns }
    requires within { first + rows * columns + size ≤ 1048576 + columns }
    ensures { IsTold (Ok (cells_of_rows columns size first rows)) result }
{
    let mut found = List::new(alloc);
    for row in 0..rows {
        let lo = first + row * columns;
        found.push(Range { lo, hi: lo + size })?;
    }
    Ok(found)
}
