//! Room for an opening is made beforehand: fragments are divided at the ends of the accesses, and each gets
//! room for one more access.

ghost use Rattle.std.specs.Prelude.{◌≡◌, ◌≤◌, ◌<◌, [], ℕ, Some, OnOk};
ghost use Rattle.oss_syntax.specs.declared.access.Access.{Access as Meant};
ghost use Rattle.oss_ranges.specs.Cells.{value_at};
ghost use Rattle.oss_model.specs.Order.{IsIn};
ghost use Rattle.oss_fragments.specs.Stretches.{AreFragments, HaveRoom, IsDivided, IsReady};
ghost use Rattle.oss_fragments.specs.Changes.{IsFiner};

use crate::fragment::Fragment;
use crate::splitting::split;
use oss_ranges::RangeMap;
use oss_syntax::{Access, Range};
use std::alloc::{AllocError, Global};

/// The place of the fragment of a cell that is in one.
pub(crate) fn place_at(map: &RangeMap<usize>, cell: u32) -> usize
    requires { (i : ℕ) × (value_at map.now.pieces cell ≡ Some i) }
    ensures { value_at map.now.pieces cell ≡ Some result }
{
    match map.get(cell) {
        Some(at) => at,
        None => unreachable!(),
    }
}

/// Divides the fragments at the ends of a range.
pub(crate) fn split_around(
    alloc: Global,
    map: &mut RangeMap<usize>,
    fragments: &mut Vec<Fragment>,
    range: Range,
) -> Result<(), AllocError>
    requires are { AreFragments map.old.pieces fragments.old.items }
    requires some { fragments.old.items ≡ [] → ⊥ }
    ensures finer { IsFiner map.old.pieces fragments.old.items map.new.pieces fragments.new.items }
    ensures begins { OnOk result (IsDivided fragments.new.items range.lo) }
    ensures ends { OnOk result (IsDivided fragments.new.items range.hi) }
{
    split(alloc, map, fragments, range.lo)?;
    split(alloc, map, fragments, range.hi)?;
    Ok(())
}

/// Makes room for one more access in each fragment of a range.
fn make_room(
    map: &RangeMap<usize>,
    fragments: &mut Vec<Fragment>,
    range: Range,
) -> Result<(), AllocError>
    requires are { AreFragments map.now.pieces fragments.old.items }
    requires some { fragments.old.items ≡ [] → ⊥ }
    requires begins { IsDivided fragments.old.items range.lo }
    ensures finer { IsFiner map.now.pieces fragments.old.items map.now.pieces fragments.new.items }
    ensures room { OnOk result (HaveRoom fragments.new.items range.lo range.hi) }
{
    let mut cell = range.lo;
    'fragments: while cell < range.hi {
        let at = place_at(map, cell);
        let fragment = &mut fragments[at];
        fragment.reserve()?;
        cell = fragment.hi;
    }
    Ok(())
}

/// Divides the fragments at the ends of accesses, and makes room for one more access in each fragment of these.
pub(crate) fn make_ready(
    alloc: Global,
    map: &mut RangeMap<usize>,
    fragments: &mut Vec<Fragment>,
    accesses: &[Access],
) -> Result<(), AllocError>
    requires are { AreFragments map.old.pieces fragments.old.items }
    requires some { fragments.old.items ≡ [] → ⊥ }
    ensures finer { IsFiner map.old.pieces fragments.old.items map.new.pieces fragments.new.items }
    ensures ready { OnOk result ((a : Meant) → IsIn a accesses.now →
        IsReady fragments.new.items a.range.lo a.range.hi) }
{
    for access in accesses {
        split_around(alloc, map, fragments, access.range)?;
        make_room(map, fragments, access.range)?;
    }
    Ok(())
}
