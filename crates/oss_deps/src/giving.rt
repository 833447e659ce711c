//! Gifts: a task gives up the cells of a range, stretch by stretch. This takes no memory.

ghost use Rattle.std.specs.Prelude.{◌≡◌, ◌≤◌, ◌<◌, ◌||◌, ◌&&◌, ◌==◌, ℕ, List, None, Option, Some, slice_get};
ghost use Rattle.oss_syntax.specs.declared.access.Access.{Access as Meant};
ghost use Rattle.oss_deps.specs.declared.frame.Frame.{Frame as Link};
ghost use Rattle.oss_deps.specs.Opens.{AreOpens, HasOpened};
ghost use Rattle.oss_deps.specs.Seen.{in_range};
ghost use Rattle.oss_deps.specs.Places.{AreLinked, AreMarked};
ghost use Rattle.oss_deps.specs.Kept.{given_at, given_by, is_asked};
ghost use Rattle.oss_deps.specs.Columns.{AreColumns, AreReady, HasRoom, IsDivided, IsShown};

use crate::closing::give_at;
use crate::column::Column;
use crate::lookups::{number_of, place_of};
use crate::opened::Open;
use oss_ranges::RangeMap;
use oss_syntax::Range;

/// The access of a task in one stretch is given up.
fn give_in(column: &mut Column, number: usize)
    requires linked { AreLinked column.old.frames.items }
    requires marked { AreMarked column.old.frames.items column.old.marks.items None }
    requires shown { IsShown column.old.frames.items number }
    ensures lo { column.new.lo ≡ column.old.lo }
    ensures hi { column.new.hi ≡ column.old.hi }
    ensures asked { column.new.asked ≡ column.old.asked }
    ensures frames { column.new.frames.items ≡ column.old.frames.items }
    ensures marked { AreMarked column.old.frames.items column.new.marks.items None }
    ensures room { HasRoom column.old → HasRoom column.new }
    ensures given { (k t : ℕ) (f : Link) → slice_get column.old.frames.items k ≡ Some f → f.number ≡ number →
        given_by column.old.frames.items column.new.marks.items t ≡
        (given_by column.old.frames.items column.old.marks.items t || (f.task == t)) }
{
    match place_of(column.frames.as_slice(), number) {
        Some(at) => give_at(column.frames.as_slice(), column.marks.as_mut_slice(), at),
        None => unreachable!(),
    }
}

/// The accesses of a task to the cells of a range are given up.
pub(crate) fn give_over(
    opens: &[Open],
    map: &RangeMap<usize>,
    columns: &mut Vec<Column>,
    task: u64,
    range: Range,
)
    requires opens { AreOpens opens.now }
    requires columns { AreColumns opens.now map.now.pieces columns.old.items }
    requires named { (c : ℕ) → range.lo ≤ c → c < range.hi → HasOpened opens.now c task }
    requires begins { IsDivided columns.old.items range.lo }
    requires ends { IsDivided columns.old.items range.hi }
    ensures columns { AreColumns opens.now map.now.pieces columns.new.items }
    ensures given { (t c : ℕ) → given_at map.now.pieces columns.new.items t c ≡
        (given_at map.now.pieces columns.old.items t c || ((task == t) && in_range range c)) }
    ensures asked { (k : ℕ) → is_asked columns.new.items k ≡ is_asked columns.old.items k }
    ensures ready { (reserved : Option (List Meant)) → AreReady reserved columns.old.items →
        AreReady reserved columns.new.items }
{
    match number_of(opens, task) {
        Some(number) => {
            let mut cell = range.lo;
            'stretches: while cell < range.hi {
                match map.get(cell) {
                    Some(at) => {
                        let column = &mut columns[at];
                        give_in(column, number);
                        cell = column.hi;
                    }
                    None => unreachable!(),
                }
            }
        }
        None => unreachable!(),
    }
}
