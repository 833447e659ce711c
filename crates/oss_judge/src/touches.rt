//! The faults of touches of one cell.
ghost use Rattle.std.specs.Prelude.{◌≡◌};
ghost use Rattle.std.specs.Result.{result_err};
ghost use Rattle.oss_model.specs.Rights.{Folds, Mark as Marked, Reads, Writes, touch_fault};
ghost use Rattle.oss_judge.specs.Parts.{unwritten_fault};
ghost use Rattle.oss_judge.specs.Seen.{lending_seen, mark_seen, right_seen};

use crate::lending::Lending;
use crate::mark::Mark;
use crate::modes::is_same_op;
use crate::right::Right;
use oss_model::FaultKind;
use oss_syntax::{Mode, Op};

/// A read of a cell.
pub(crate) fn may_read(right: Right, lent: Lending, mark: Mark) -> Result<(), FaultKind>
    ensures { result_err result ≡ touch_fault (right_seen right) (lending_seen lent) (mark_seen mark) Reads }
{
    match right {
        Right::Released => Err(FaultKind::Released),
        Right::Nothing => Err(FaultKind::NoRight),
        Right::Holds(_, false) => Err(FaultKind::NoRight),
        Right::Holds(Mode::Read, true) => match lent {
            Lending::Free => Ok(()),
            Lending::Reading => Ok(()),
            Lending::Writing => Err(FaultKind::Lent),
        },
        Right::Holds(Mode::Write, true) => match lent {
            Lending::Writing => Err(FaultKind::Lent),
            Lending::Free | Lending::Reading => unless_unwritten(mark),
        },
        Right::Holds(Mode::Fold(_), true) => Err(FaultKind::BadReduction),
    }
}

/// A write of a cell. It needs no value, so the cell may have any mark.
pub(crate) fn may_write(right: Right, lent: Lending) -> Result<(), FaultKind>
    ensures { (mark : Marked) → result_err result ≡ touch_fault (right_seen right) (lending_seen lent) mark Writes }
{
    match right {
        Right::Released => Err(FaultKind::Released),
        Right::Nothing => Err(FaultKind::NoRight),
        Right::Holds(_, false) => Err(FaultKind::NoRight),
        Right::Holds(Mode::Read, true) => Err(FaultKind::NoRight),
        Right::Holds(Mode::Write, true) => match lent {
            Lending::Free => Ok(()),
            Lending::Reading => Err(FaultKind::Lent),
            Lending::Writing => Err(FaultKind::Lent),
        },
        Right::Holds(Mode::Fold(_), true) => Err(FaultKind::BadReduction),
    }
}

/// A fold into a cell.
pub(crate) fn may_fold(right: Right, lent: Lending, mark: Mark, op: Op) -> Result<(), FaultKind>
    ensures { result_err result ≡ touch_fault (right_seen right) (lending_seen lent) (mark_seen mark) (Folds op) }
{
    match right {
        Right::Released => Err(FaultKind::Released),
        Right::Nothing => Err(FaultKind::NoRight),
        Right::Holds(_, false) => Err(FaultKind::NoRight),
        Right::Holds(Mode::Read, true) => Err(FaultKind::NoRight),
        Right::Holds(Mode::Write, true) => match lent {
            Lending::Free => unless_unwritten(mark),
            Lending::Reading => Err(FaultKind::Lent),
            Lending::Writing => Err(FaultKind::Lent),
        },
        Right::Holds(Mode::Fold(own), true) => {
            if is_same_op(own, op) {
                Ok(())
            } else {
                Err(FaultKind::BadReduction)
            }
        }
    }
}

fn unless_unwritten(mark: Mark) -> Result<(), FaultKind>
    ensures { result_err result ≡ unwritten_fault (mark_seen mark) }
{
    match mark {
        Mark::Unwritten => Err(FaultKind::Unwritten),
        Mark::Written => Ok(()),
    }
}
