//! Room for an opening is made beforehand: stretches are divided at the ends of the accesses, and each gets
//! room for one more access.

ghost use Rattle.std.specs.Prelude.{◌≡◌, ◌≤◌, ◌<◌, [], OnOk};
ghost use Rattle.oss_syntax.specs.declared.access.Access.{Access as Meant};
ghost use Rattle.oss_model.specs.Order.{IsIn};
ghost use Rattle.oss_deps.specs.Columns.{AreStretches, HaveRoom, IsDivided, IsFiner, IsReady};

use crate::column::Column;
use crate::splitting::split;
use oss_ranges::RangeMap;
use oss_syntax::{Access, Range};
use std::alloc::{AllocError, Global};

/// Divides the stretches at the ends of a range.
pub(crate) fn split_around(
    alloc: Global,
    map: &mut RangeMap<usize>,
    columns: &mut Vec<Column>,
    range: Range,
) -> Result<(), AllocError>
    requires stretches { AreStretches map.old.pieces columns.old.items }
    requires some { columns.old.items ≡ [] → ⊥ }
    ensures finer { IsFiner map.old.pieces columns.old.items map.new.pieces columns.new.items }
    ensures begins { OnOk result (IsDivided columns.new.items range.lo) }
    ensures ends { OnOk result (IsDivided columns.new.items range.hi) }
{
    split(alloc, map, columns, range.lo)?;
    split(alloc, map, columns, range.hi)?;
    Ok(())
}

/// Makes room for one more access in each stretch of a range.
fn make_room(
    map: &RangeMap<usize>,
    columns: &mut Vec<Column>,
    range: Range,
) -> Result<(), AllocError>
    requires stretches { AreStretches map.now.pieces columns.old.items }
    requires some { columns.old.items ≡ [] → ⊥ }
    requires begins { IsDivided columns.old.items range.lo }
    ensures finer { IsFiner map.now.pieces columns.old.items map.now.pieces columns.new.items }
    ensures room { OnOk result (HaveRoom columns.new.items range.lo range.hi) }
{
    let mut cell = range.lo;
    'stretches: while cell < range.hi {
        match map.get(cell) {
            Some(at) => {
                let column = &mut columns[at];
                column.reserve()?;
                cell = column.hi;
            }
            None => unreachable!(),
        }
    }
    Ok(())
}

/// Divides the stretches at the ends of accesses, and makes room for one more access in each stretch of these.
pub(crate) fn make_ready(
    alloc: Global,
    map: &mut RangeMap<usize>,
    columns: &mut Vec<Column>,
    accesses: &[Access],
) -> Result<(), AllocError>
    requires stretches { AreStretches map.old.pieces columns.old.items }
    requires some { columns.old.items ≡ [] → ⊥ }
    ensures finer { IsFiner map.old.pieces columns.old.items map.new.pieces columns.new.items }
    ensures ready { OnOk result ((a : Meant) → IsIn a accesses.now → IsReady columns.new.items a.range.lo a.range.hi) }
{
    for access in accesses {
        split_around(alloc, map, columns, access.range)?;
        make_room(map, columns, access.range)?;
    }
    Ok(())
}
