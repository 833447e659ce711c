//! Gifts: a task gives up the cells of a range, fragment by fragment.

ghost use Rattle.std.specs.Prelude.{◌≡◌, ◌≤◌, ◌<◌, [], ℕ};
ghost use Rattle.oss_fragments.specs.Here.{IsShown};
ghost use Rattle.oss_fragments.specs.Kept.{here_by};
ghost use Rattle.oss_fragments.specs.Stretches.{AreFragments, IsDivided};
ghost use Rattle.oss_fragments.specs.Changes.{AreWalked, IsGivenIn};

use crate::fragment::Fragment;
use crate::reserving::place_at;
use oss_ranges::RangeMap;
use oss_syntax::Range;

/// A task gives up the fragments of a range.
pub(crate) fn give_over(
    map: &RangeMap<usize>,
    fragments: &mut Vec<Fragment>,
    number: usize,
    range: Range,
)
    requires are { AreFragments map.now.pieces fragments.old.items }
    requires some { fragments.old.items ≡ [] → ⊥ }
    requires begins { IsDivided fragments.old.items range.lo }
    requires ends { IsDivided fragments.old.items range.hi }
    requires shown { (c : ℕ) → range.lo ≤ c → c < range.hi →
        IsShown number (here_by map.now.pieces fragments.old.items c) }
    ensures { AreWalked (IsGivenIn number) range.lo range.hi fragments.old.items fragments.new.items }
{
    let mut cell = range.lo;
    'fragments: while cell < range.hi {
        let at = place_at(map, cell);
        let fragment = &mut fragments[at];
        fragment.give(number);
        cell = fragment.hi;
    }
}
