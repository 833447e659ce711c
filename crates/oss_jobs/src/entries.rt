//! Entries on cells, kept by ranges: the entries of one task on neighbouring cells follow each other, so one number
//! tells them all.

ghost use Rattle.std.specs.Prelude.{◌≡◌, ◌≤◌, ◌+◌, ◌*◌, ℕ, Some, IsOk, length};
ghost use Rattle.oss_judge.specs.Joined.{IsRising};
ghost use Rattle.oss_ranges.specs.Cells.{Assigns, value_at};
ghost use Rattle.oss_jobs.specs.Entries.{base_of, cells_in, entered, entry_told, moved, or_zero};

use oss_ranges::RangeMap;
use oss_syntax::{Access, List, Range};
use std::alloc::AllocError;

/// A program has no cell from here on.
const CELLS: u32 = 1_048_576;

/// How many cells these accesses name, which are a task's as `Body::accesses` gives them: the task has one entry more
/// in a table. It takes no memory.
pub fn count_cells(accesses: &List<Access>) -> u32
    requires { IsRising accesses.now }
    ensures cells { result ≡ cells_in accesses.now }
    ensures few { result ≤ 1048576 }
{
    sum(accesses.as_slice())
}

/// How many cells each of the accesses names, together.
fn sum(accesses: &[Access]) -> u32
    requires { cells_in accesses.now ≤ 1048576 }
    ensures { result ≡ cells_in accesses.now }
{
    let mut cells = 0;
    for access in accesses {
        cells += access.range.hi - access.range.lo;
    }
    cells
}

/// The entry on a cell, if there is one. It takes no memory.
pub(crate) fn told(entries: &RangeMap<u32>, cell: u32) -> Option<u32>
    ensures { result ≡ entry_told (value_at entries.now.pieces cell) cell }
{
    match entries.get(cell) {
        Some(base) => Some(base.saturating_add(cell).saturating_sub(CELLS)),
        None => None,
    }
}

/// An entry of a task whose number is 0, if there is one, as that of the task with this number. It takes no memory.
pub(crate) fn moved_by(task: u32, entry: Option<u32>) -> Option<u32>
    ensures { result ≡ moved task entry }
{
    match entry {
        Some(entry) => Some(task.saturating_add(entry)),
        None => None,
    }
}

/// An entry, or 0 if there is none.
pub(crate) fn number_of(entry: Option<u32>) -> u32
    ensures { result ≡ or_zero entry }
{
    match entry {
        Some(entry) => entry,
        None => 0,
    }
}

/// Gives the cells of these accesses entries from this number on, in rising order, in room that was reserved for it.
/// It takes no memory.
pub(crate) fn enter(entries: &mut RangeMap<u32>, accesses: &[Access], first: u32)
    requires numbers { first + cells_in accesses.now ≤ 16777216 }
    requires room { 3 * length accesses.now ≤ entries.old.spares }
    ensures { (cell : ℕ) → value_at entries.new.pieces cell ≡
        entered first accesses.now cell (value_at entries.old.pieces cell) }
{
    let mut next = first;
    for access in accesses {
        match enter_range(entries, access.range, next) {
            Ok(()) => {}
            Err(_) => unreachable!(),
        }
        next += access.range.hi - access.range.lo;
    }
}

/// Gives the cells of a range entries from this number on.
fn enter_range(entries: &mut RangeMap<u32>, range: Range, first: u32) -> Result<(), AllocError>
    requires number { first ≤ 16777216 }
    requires room { 3 ≤ entries.old.spares }
    ensures ok { IsOk result }
    ensures map { Assigns range.lo range.hi (Some (base_of range.lo first)) entries.old.pieces entries.new.pieces }
    ensures spares { entries.old.spares ≤ entries.new.spares + 3 }
{
    entries.assign(range, CELLS + first - range.lo)
}
