//! The cells of a section of one or two dimensions. The ends are tested before any range is made, so that a
//! fault costs no memory.
ghost use Rattle.std.specs.Prelude.{◌≡◌, ◌+◌, ◌*◌, ◌<◌, ◌≤◌, Some, None};
ghost use Rattle.oss_grammar.specs.SectionCells.{cells_of_extent, grid_cells, section_cells, stretch_cells};
ghost use Rattle.oss_sections.specs.Evaluated.{IsTold, meant_base, meant_extent};
ghost use Rattle.oss_sections.specs.Stretches.{meant_stretch};

use crate::base::{Base, Extent};
use crate::refused::SectionRefused;
use crate::rows::{one_range, ranges_of_rows};
use crate::stretch::{Stretch, stretch_of_part, whole_row};
use oss_syntax::{FaultKind, List, Range};
use std::alloc::Global;

/// The cells that a section names, as rising ranges of which no two touch; or its fault. It takes memory for
/// the ranges, and time in its rows: how many cells they have does not matter.
pub fn section_ranges(
    alloc: Global,
    base: &Base,
    extent: &Extent,
) -> Result<List<Range>, SectionRefused>
    ensures { IsTold (section_cells (meant_base base.now) (meant_extent extent.now)) result }
{
    match base.columns {
        None => line_section(alloc, base, extent),
        Some(columns) => grid_section(alloc, base, columns, extent),
    }
}

/// The same of a base without rows.
fn line_section(alloc: Global, base: &Base, extent: &Extent) -> Result<List<Range>, SectionRefused>
    ensures { IsTold (cells_of_extent (meant_base base.now) None (meant_extent extent.now)) result }
{
    match *extent {
        Extent::Whole => one_range(alloc, base.start, base.count),
        Extent::Part(part) => line_ranges(
            alloc,
            base.start,
            base.count,
            stretch_of_part(base.count, base.index, part),
        ),
        Extent::Grid(_, _) => Err(SectionRefused::Fault(FaultKind::OutOfRange)),
    }
}

/// The same of a base in rows of so many columns.
fn grid_section(
    alloc: Global,
    base: &Base,
    columns: u32,
    extent: &Extent,
) -> Result<List<Range>, SectionRefused>
    requires { 0 < columns }
    ensures { IsTold (cells_of_extent (meant_base base.now) (Some columns) (meant_extent extent.now)) result }
{
    let rows = base.count / columns;
    match *extent {
        Extent::Whole => one_range(alloc, base.start, base.count),
        Extent::Part(part) => grid_ranges(
            alloc,
            base.start,
            rows,
            columns,
            stretch_of_part(rows, base.index, part),
            whole_row(columns),
        ),
        Extent::Grid(down, across) => grid_ranges(
            alloc,
            base.start,
            rows,
            columns,
            stretch_of_part(rows, base.index, down),
            stretch_of_part(columns, 0, across),
        ),
    }
}

/// The cells of a stretch of so many elements.
fn line_ranges(
    alloc: Global,
    start: u32,
    count: u32,
    stretch: Stretch,
) -> Result<List<Range>, SectionRefused>
    requires { start + count ≤ 1048576 }
    ensures { IsTold (stretch_cells start count (meant_stretch stretch)) result }
{
    if stretch.is_negative() {
        return Err(SectionRefused::Fault(FaultKind::OutOfRange));
    }
    if stretch.is_empty() {
        return Ok(List::new(alloc));
    }
    match stretch.within(count) {
        Some(inside) => one_range(alloc, start + inside.first, inside.size),
        None => Err(SectionRefused::Fault(FaultKind::OutOfRange)),
    }
}

/// The cells of a stretch of rows and one of columns, of an array with so many of each.
fn grid_ranges(
    alloc: Global,
    start: u32,
    rows: u32,
    columns: u32,
    down: Stretch,
    across: Stretch,
) -> Result<List<Range>, SectionRefused>
    requires { start + rows * columns ≤ 1048576 }
    ensures { IsTold (grid_cells start rows columns (meant_stretch down) (meant_stretch across)) result }
{
    if down.is_negative() || across.is_negative() {
        return Err(SectionRefused::Fault(FaultKind::OutOfRange));
    }
    if down.is_empty() || across.is_empty() {
        return Ok(List::new(alloc));
    }
    match (down.within(rows), across.within(columns)) {
        (Some(down), Some(across)) => ranges_of_rows(
            alloc,
            columns,
            across.size,
            start + (down.first * columns + across.first),
            down.size,
        ),
        _ => Err(SectionRefused::Fault(FaultKind::OutOfRange)),
    }
}
