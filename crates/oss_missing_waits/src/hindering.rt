//! Which child hinders a touch.

ghost use Rattle.std.specs.Prelude.{◌≡◌};
ghost use Rattle.oss_ranges.specs.Cells.{value_at};
ghost use Rattle.oss_missing_waits.specs.Holding.{hinderer as hinderer_by, hinders_touch as first_of, hinders_under as first_under};
ghost use Rattle.oss_missing_waits.specs.Kept.{touch_of};

use oss_explanation::Touching;
use oss_lent_cells::{Holder, LentCells};
use oss_needs::Clause;
use oss_syntax::Mode;

/// The first child that hinders such a touch of a cell by a task that has the cell by this clause. Under a reduction none does.
pub(crate) fn hinderer(
    lent: &LentCells,
    clause: Option<Clause>,
    touch: Touching,
    cell: u32,
) -> Option<Holder>
    ensures { result ≡ hinderer_by clause (touch_of touch) (value_at lent.now cell) }
{
    match clause {
        Some(clause) => hinders_under(lent, clause.mode, touch, cell),
        None => None,
    }
}

/// The same under a clause with this mode.
fn hinders_under(lent: &LentCells, mode: Mode, touch: Touching, cell: u32) -> Option<Holder>
    ensures { result ≡ first_under mode (touch_of touch) (value_at lent.now cell) }
{
    match mode {
        Mode::Fold(_) => None,
        Mode::Read => hinders_touch(lent, touch, cell),
        Mode::Write => hinders_touch(lent, touch, cell),
    }
}

/// A read is hindered by the first child that may do more than read, and any other touch by the first that has the cell.
fn hinders_touch(lent: &LentCells, touch: Touching, cell: u32) -> Option<Holder>
    ensures { result ≡ first_of (touch_of touch) (value_at lent.now cell) }
{
    match touch {
        Touching::Reading => lent.first_writer(cell),
        Touching::Writing => lent.first_holder(cell),
        Touching::Folding(_) => lent.first_holder(cell),
    }
}
