//! Cuts that were asked for: the ends of accesses and of prepared ranges. A range that is given up may end only there.

ghost use Rattle.std.specs.Prelude.{◌≡◌, ◌≤◌, ◌||◌, ◌==◌, [], ℕ, true};
ghost use Rattle.oss_syntax.specs.declared.access.Access.{Access as Meant};
ghost use Rattle.oss_model.specs.Order.{IsIn};
ghost use Rattle.oss_deps.specs.Seen.{is_access_end, is_end};
ghost use Rattle.oss_fragments.specs.Kept.{is_cut_by};
ghost use Rattle.oss_fragments.specs.Stretches.{AreFragments, IsDivided};
ghost use Rattle.oss_fragments.specs.Changes.{AreSameButAsked};

use crate::fragment::Fragment;
use crate::splitting::CELLS;
use oss_ranges::RangeMap;
use oss_syntax::{Access, Range};

/// The cell becomes a cut.
fn ask(map: &RangeMap<usize>, fragments: &mut Vec<Fragment>, ended: &mut bool, cell: u32)
    requires are { AreFragments map.now.pieces fragments.old.items }
    requires some { fragments.old.items ≡ [] → ⊥ }
    requires divided { IsDivided fragments.old.items cell }
    requires bound { cell ≤ 1048576 }
    ensures same { AreSameButAsked fragments.old.items fragments.new.items }
    ensures cuts { (k : ℕ) → is_cut_by fragments.new.items ended.new k ≡
        (is_cut_by fragments.old.items ended.old k || (k == cell)) }
{
    if cell >= CELLS {
        *ended = true;
        return;
    }
    match map.get(cell) {
        Some(at) => fragments[at].asked = true,
        None => unreachable!(),
    }
}

/// Whether a cell is known to be a cut. It takes no memory.
pub(crate) fn is_cut_at(
    map: &RangeMap<usize>,
    fragments: &[Fragment],
    ended: bool,
    cell: u32,
) -> bool
    requires { AreFragments map.now.pieces fragments.now }
    ensures { result ≡ true → is_cut_by fragments.now ended cell ≡ true }
{
    match map.get(cell) {
        Some(at) => begins_cut(&fragments[at], cell),
        None => ended && cell == CELLS,
    }
}

/// Whether a fragment begins at the cell, and its begin is a cut.
fn begins_cut(fragment: &Fragment, cell: u32) -> bool
    ensures { result ≡ true → (fragment.now.asked ≡ true) × (fragment.now.lo ≡ cell) }
{
    fragment.asked && fragment.lo == cell
}

/// The ends of a range become cuts.
pub(crate) fn ask_ends(
    map: &RangeMap<usize>,
    fragments: &mut Vec<Fragment>,
    ended: &mut bool,
    range: Range,
)
    requires are { AreFragments map.now.pieces fragments.old.items }
    requires some { fragments.old.items ≡ [] → ⊥ }
    requires begins { IsDivided fragments.old.items range.lo }
    requires ends { IsDivided fragments.old.items range.hi }
    ensures same { AreSameButAsked fragments.old.items fragments.new.items }
    ensures cuts { (k : ℕ) → is_cut_by fragments.new.items ended.new k ≡
        (is_cut_by fragments.old.items ended.old k || is_end range k) }
{
    ask(map, fragments, ended, range.lo);
    ask(map, fragments, ended, range.hi);
}

/// The ends of accesses become cuts.
pub(crate) fn ask_all(
    map: &RangeMap<usize>,
    fragments: &mut Vec<Fragment>,
    ended: &mut bool,
    accesses: &[Access],
)
    requires are { AreFragments map.now.pieces fragments.old.items }
    requires some { fragments.old.items ≡ [] → ⊥ }
    requires begins { (a : Meant) → IsIn a accesses.now → IsDivided fragments.old.items a.range.lo }
    requires ends { (a : Meant) → IsIn a accesses.now → IsDivided fragments.old.items a.range.hi }
    ensures same { AreSameButAsked fragments.old.items fragments.new.items }
    ensures cuts { (k : ℕ) → is_cut_by fragments.new.items ended.new k ≡
        (is_cut_by fragments.old.items ended.old k || is_access_end accesses.now k) }
{
    for access in accesses {
        ask_ends(map, fragments, ended, access.range);
    }
}
