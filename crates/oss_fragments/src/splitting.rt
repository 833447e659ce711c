//! How fragments are made and divided. Spent accesses are left out first, so what is copied does not grow with
//! what is over.

ghost use Rattle.std.specs.Prelude.{◌≡◌, ◌<◌, [], length, Some, OnErr, OnOk, slice_get};
ghost use Rattle.oss_ranges.specs.Cells.{value_at};
ghost use Rattle.oss_fragments.specs.declared.fragment.Fragment.{Fragment as Part};
ghost use Rattle.oss_fragments.specs.Stretches.{AreFragments, IsDivided, IsFragment};
ghost use Rattle.oss_fragments.specs.Changes.{IsDividedAt, IsFiner, IsThinnedAt};

use crate::fragment::Fragment;
use oss_ranges::RangeMap;
use oss_syntax::Range;
use std::alloc::{AllocError, Global};

/// A program has no cell from here on.
pub(crate) const CELLS: u32 = 1_048_576;

/// Makes a fragment of all cells, where there is none.
pub(crate) fn cover(
    alloc: Global,
    map: &mut RangeMap<usize>,
    fragments: &mut Vec<Fragment>,
) -> Result<(), AllocError>
    requires { AreFragments map.old.pieces fragments.old.items }
    ensures finer { IsFiner map.old.pieces fragments.old.items map.new.pieces fragments.new.items }
    ensures some { OnOk result (fragments.new.items ≡ [] → ⊥) }
{
    if !fragments.is_empty() {
        return Ok(());
    }
    map.reserve(1)?;
    fragments.reserve(1)?;
    let all = Fragment::whole(alloc, CELLS)?;
    map.assign(Range { lo: 0, hi: CELLS }, 0)?;
    fragments.push_reserved(all);
    Ok(())
}

/// Divides the fragment that has a cell and the one before it. What is spent of its accesses is left out first,
/// so neither part has it.
pub(crate) fn split(
    alloc: Global,
    map: &mut RangeMap<usize>,
    fragments: &mut Vec<Fragment>,
    cell: u32,
) -> Result<(), AllocError>
    requires { AreFragments map.old.pieces fragments.old.items }
    ensures finer { IsFiner map.old.pieces fragments.old.items map.new.pieces fragments.new.items }
    ensures divided { OnOk result (IsDivided fragments.new.items cell) }
{
    match map.get(cell) {
        Some(at) => {
            if fragments[at].lo < cell {
                thin_at(alloc, fragments, at)?;
                divide(map, fragments, at, cell)
            } else {
                Ok(())
            }
        }
        None => Ok(()),
    }
}

/// Leaves out what is spent of the accesses of a fragment.
fn thin_at(alloc: Global, fragments: &mut Vec<Fragment>, at: usize) -> Result<(), AllocError>
    requires within { at < length fragments.old.items }
    requires right { (a : Part) → slice_get fragments.old.items at ≡ Some a → IsFragment a }
    ensures { IsThinnedAt fragments.old.items fragments.new.items at }
{
    fragments[at].thin(alloc)
}

/// Divides a fragment at a cell inside of it: the cells from there on get a copy of its accesses.
fn divide(
    map: &mut RangeMap<usize>,
    fragments: &mut Vec<Fragment>,
    at: usize,
    cell: u32,
) -> Result<(), AllocError>
    requires are { AreFragments map.old.pieces fragments.old.items }
    requires here { value_at map.old.pieces cell ≡ Some at }
    requires begins { (a : Part) → slice_get fragments.old.items at ≡ Some a → a.lo < cell }
    ensures ok { OnOk result (IsDividedAt map.old.pieces fragments.old.items map.new.pieces fragments.new.items
        at cell) }
    ensures map { OnErr result (map.new.pieces ≡ map.old.pieces) }
    ensures fragments { OnErr result (fragments.new.items ≡ fragments.old.items) }
{
    map.reserve(1)?;
    fragments.reserve(1)?;
    let part = fragments[at].from(cell)?;
    let new = fragments.len();
    map.assign(
        Range {
            lo: cell,
            hi: part.hi,
        },
        new,
    )?;
    fragments[at].hi = cell;
    fragments.push_reserved(part);
    Ok(())
}
