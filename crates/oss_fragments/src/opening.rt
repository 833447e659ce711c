//! How a task is opened in all fragments of its accesses. Room was made before, so this cannot fail.

ghost use Rattle.std.specs.Prelude.{◌≡◌, ◌≤◌, ◌<◌, [], ℕ, IfSome, MatchOption};
ghost use Rattle.oss_deps.specs.Opens.{IsRising, access_at};
ghost use Rattle.oss_fragments.specs.Here.{IsOpened, MayHang};
ghost use Rattle.oss_fragments.specs.Kept.{here_by, is_asked};
ghost use Rattle.oss_fragments.specs.Stretches.{AreFragments, AreReady, IsDivided, IsReady};
ghost use Rattle.oss_fragments.specs.Changes.{AreWalked, IsOpenedIn};

use crate::fragment::Fragment;
use crate::reserving::place_at;
use oss_ranges::RangeMap;
use oss_syntax::Access;

/// Opens a task in each fragment of an access.
fn open_over(
    map: &RangeMap<usize>,
    fragments: &mut Vec<Fragment>,
    number: usize,
    parent: usize,
    access: Access,
)
    requires are { AreFragments map.now.pieces fragments.old.items }
    requires some { fragments.old.items ≡ [] → ⊥ }
    requires ready { IsReady fragments.old.items access.range.lo access.range.hi }
    requires may { (c : ℕ) → access.range.lo ≤ c → c < access.range.hi →
        MayHang number parent access.mode (here_by map.now.pieces fragments.old.items c) }
    ensures { AreWalked (IsOpenedIn number parent access.mode) access.range.lo access.range.hi
        fragments.old.items fragments.new.items }
{
    let mut cell = access.range.lo;
    'fragments: while cell < access.range.hi {
        let at = place_at(map, cell);
        let fragment = &mut fragments[at];
        fragment.open(number, parent, access.mode);
        cell = fragment.hi;
    }
}

/// Opens a task in each fragment of its accesses.
pub(crate) fn open_all(
    map: &RangeMap<usize>,
    fragments: &mut Vec<Fragment>,
    number: usize,
    parent: usize,
    accesses: &[Access],
)
    requires are { AreFragments map.now.pieces fragments.old.items }
    requires rising { IsRising accesses.now }
    requires ready { AreReady accesses.now fragments.old.items }
    requires may { (c : ℕ) → IfSome (access_at accesses.now c) (λ a. MayHang number parent a.mode
        (here_by map.now.pieces fragments.old.items c)) }
    ensures are { AreFragments map.now.pieces fragments.new.items }
    ensures some { fragments.new.items ≡ [] → ⊥ }
    ensures opened { (c : ℕ) → MatchOption (access_at accesses.now c)
        (here_by map.now.pieces fragments.new.items c ≡ here_by map.now.pieces fragments.old.items c) (λ a.
        IsOpened number parent a.mode (here_by map.now.pieces fragments.old.items c)
        (here_by map.now.pieces fragments.new.items c)) }
    ensures asked { (k : ℕ) → is_asked fragments.new.items k ≡ is_asked fragments.old.items k }
    ensures divided { (k : ℕ) → IsDivided fragments.old.items k → IsDivided fragments.new.items k }
{
    for access in accesses {
        open_over(map, fragments, number, parent, *access);
    }
}
