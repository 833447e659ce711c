//! Cuts that were asked for: a range that is given up may end only there. A stretch may begin at a cell that is
//! no cut, where memory was reserved.

ghost use Rattle.std.specs.Prelude.{◌≡◌, ◌≤◌, ◌||◌, ◌==◌, [], ℕ};
ghost use Rattle.oss_syntax.specs.declared.access.Access.{Access as Meant};
ghost use Rattle.oss_model.specs.Order.{IsIn};
ghost use Rattle.oss_deps.specs.Seen.{is_access_end, is_end};
ghost use Rattle.oss_deps.specs.Kept.{is_cut};
ghost use Rattle.oss_deps.specs.Columns.{AreSameButAsked, AreStretches, IsDivided};

use crate::column::Column;
use crate::splitting::CELLS;
use oss_ranges::RangeMap;
use oss_syntax::{Access, Range};

/// The cell becomes a cut.
fn ask(map: &RangeMap<usize>, columns: &mut Vec<Column>, ended: &mut bool, cell: u32)
    requires stretches { AreStretches map.now.pieces columns.old.items }
    requires some { columns.old.items ≡ [] → ⊥ }
    requires divided { IsDivided columns.old.items cell }
    requires bound { cell ≤ 1048576 }
    ensures same { AreSameButAsked columns.old.items columns.new.items }
    ensures cuts { (k : ℕ) → is_cut columns.new.items ended.new k ≡
        (is_cut columns.old.items ended.old k || (k == cell)) }
{
    if cell >= CELLS {
        *ended = true;
        return;
    }
    match map.get(cell) {
        Some(at) => columns[at].asked = true,
        None => unreachable!(),
    }
}

/// The ends of a range become cuts.
pub(crate) fn ask_ends(
    map: &RangeMap<usize>,
    columns: &mut Vec<Column>,
    ended: &mut bool,
    range: Range,
)
    requires stretches { AreStretches map.now.pieces columns.old.items }
    requires some { columns.old.items ≡ [] → ⊥ }
    requires begins { IsDivided columns.old.items range.lo }
    requires ends { IsDivided columns.old.items range.hi }
    ensures same { AreSameButAsked columns.old.items columns.new.items }
    ensures cuts { (k : ℕ) → is_cut columns.new.items ended.new k ≡
        (is_cut columns.old.items ended.old k || is_end range k) }
{
    ask(map, columns, ended, range.lo);
    ask(map, columns, ended, range.hi);
}

/// The ends of accesses become cuts.
pub(crate) fn ask_all(
    map: &RangeMap<usize>,
    columns: &mut Vec<Column>,
    ended: &mut bool,
    accesses: &[Access],
)
    requires stretches { AreStretches map.now.pieces columns.old.items }
    requires some { columns.old.items ≡ [] → ⊥ }
    requires begins { (a : Meant) → IsIn a accesses.now → IsDivided columns.old.items a.range.lo }
    requires ends { (a : Meant) → IsIn a accesses.now → IsDivided columns.old.items a.range.hi }
    ensures same { AreSameButAsked columns.old.items columns.new.items }
    ensures cuts { (k : ℕ) → is_cut columns.new.items ended.new k ≡
        (is_cut columns.old.items ended.old k || is_access_end accesses.now k) }
{
    for access in accesses {
        ask_ends(map, columns, ended, access.range);
    }
}
