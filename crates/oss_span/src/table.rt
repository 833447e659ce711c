//! What a task keeps of its cells, by ranges.

ghost use Rattle.std.specs.Prelude.{◌≡◌, ℕ, IfOk, OnOk, None};
ghost use Rattle.oss_ranges.specs.Cells.{value_at};
ghost use Rattle.oss_span.specs.Tables.{AreChanged, AreOpened, IsGreatest, IsGreatestOf, painted, released};

use crate::best::{Best, Mark, no_best};
use crate::marks::{Change, Marks, Way, opened_at};
use oss_ranges::RangeMap;
use oss_syntax::{Access, Range};
use std::alloc::{AllocError, Global};

/// The change happens to each cell of the range of which something is kept.
pub(crate) fn change_all(
    table: &mut RangeMap<Marks>,
    range: Range,
    change: Change,
) -> Result<(), AllocError>
    ensures { OnOk result (AreChanged range change table.old.pieces table.new.pieces) }
{
    let mut from = range.lo;
    while from < range.hi {
        let (found, to) = table.run_from(from, range.hi);
        if let Some(marks) = found {
            table.assign(Range { lo: from, hi: to }, marks.changed(change))?;
        }
        from = to;
    }
    Ok(())
}

/// A new task keeps of each cell of an access what its creator's table says.
fn open_access(
    table: &mut RangeMap<Marks>,
    creator: &RangeMap<Marks>,
    access: Access,
) -> Result<(), AllocError>
    ensures { OnOk result (AreOpened access creator.now.pieces table.old.pieces table.new.pieces) }
{
    let range = access.range;
    let mut from = range.lo;
    while from < range.hi {
        let (found, to) = creator.run_from(from, range.hi);
        table.assign(
            Range { lo: from, hi: to },
            opened_at(found, access.mode, access.strong),
        )?;
        from = to;
    }
    Ok(())
}

/// What a new task with these accesses keeps, whose creator has this table.
pub(crate) fn open_table(
    alloc: Global,
    creator: &RangeMap<Marks>,
    accesses: &[Access],
) -> Result<RangeMap<Marks>, AllocError>
    ensures { IfOk result (λ table. (c : ℕ) → value_at table.pieces c ≡ painted (value_at creator.now.pieces c)
        accesses.now c None) }
{
    let mut table = RangeMap::new(alloc);
    for access in accesses {
        open_access(&mut table, creator, *access)?;
    }
    Ok(table)
}

/// The cells of these accesses are released, by an act to which this chain leads.
pub(crate) fn release_all(
    table: &mut RangeMap<Marks>,
    clauses: &[Access],
    mark: Mark,
) -> Result<(), AllocError>
    ensures { OnOk result ((c : ℕ) → value_at table.new.pieces c ≡ released mark clauses.now c
        (value_at table.old.pieces c)) }
{
    for access in clauses {
        change_all(table, access.range, Change::Release(mark))?;
    }
    Ok(())
}

/// The longest of the chains that are kept for the cells of a range.
pub(crate) fn greatest(table: &RangeMap<Marks>, range: Range, way: Way) -> Best
    ensures { IsGreatest way table.now.pieces range.lo range.hi result }
{
    let mut best = no_best();
    let mut from = range.lo;
    while from < range.hi {
        let (found, to) = table.run_from(from, range.hi);
        if let Some(marks) = found {
            best = best.or(Best {
                mark: marks.picked(way),
                cell: from,
            });
        }
        from = to;
    }
    best
}

/// The longest of the chains that are kept for the cells of several ranges.
pub(crate) fn greatest_of(table: &RangeMap<Marks>, ranges: &[Range], way: Way) -> Best
    ensures { IsGreatestOf way table.now.pieces ranges.now result }
{
    let mut best = no_best();
    for range in ranges {
        best = best.or(greatest(table, *range, way));
    }
    best
}
