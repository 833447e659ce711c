//! How the accesses of a new task are added to all stretches of their cells. Room was made before, so this cannot fail.

ghost use Rattle.std.specs.Prelude.{◌≡◌, ◌≤◌, ◌<◌, ◌||◌, ◌&&◌, ◌==◌, [], ℕ, Bool, false, take};
ghost use Rattle.oss_syntax.specs.declared.access.Access.{Access as Meant};
ghost use Rattle.oss_model.specs.Order.{IsIn};
ghost use Rattle.oss_deps.specs.Opens.{IsRising};
ghost use Rattle.oss_deps.specs.Adding.{AreAddable, AreAllGrown, AreGrownTo, IsAddable, IsGrown};

use crate::column::Column;
use crate::growing::add;
use crate::lookups::place_of;
use oss_ranges::RangeMap;
use oss_syntax::{Access, Mode};

/// Adds an access of the task with a number to a stretch, below that of its creator with another number.
fn add_in(column: &mut Column, number: usize, task: u64, parent: usize, mode: Mode)
    requires { IsAddable parent column.old }
    ensures { IsGrown number task parent mode column.old column.new }
{
    match place_of(column.frames.as_slice(), parent) {
        Some(up) => add(column, number, task, up, mode),
        None => unreachable!(),
    }
}

/// Adds an access of the task with a number to each stretch of its range.
fn add_over(
    map: &RangeMap<usize>,
    columns: &mut Vec<Column>,
    number: usize,
    task: u64,
    parent: usize,
    access: Access,
)
    requires { AreAddable map.now.pieces columns.old.items parent access.range.lo access.range.hi }
    ensures { AreGrownTo number task parent access.mode access.range.lo access.range.hi columns.old.items
        columns.new.items }
{
    let mut cell = access.range.lo;
    'stretches: while cell < access.range.hi {
        match map.get(cell) {
            Some(at) => {
                let column = &mut columns[at];
                add_in(column, number, task, parent, access.mode);
                cell = column.hi;
            }
            None => unreachable!(),
        }
    }
}

/// Adds the accesses of a task.
pub(crate) fn add_all(
    map: &RangeMap<usize>,
    columns: &mut Vec<Column>,
    number: usize,
    task: u64,
    parent: usize,
    accesses: &[Access],
)
    requires rising { IsRising accesses.now }
    requires addable { (a : Meant) → IsIn a accesses.now →
        AreAddable map.now.pieces columns.old.items parent a.range.lo a.range.hi }
    ensures { AreAllGrown number task parent accesses.now columns.old.items columns.new.items }
{
    for access in accesses {
        add_over(map, columns, number, task, parent, *access);
    }
}
