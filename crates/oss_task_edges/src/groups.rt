//! What is kept of the access list of a cell.

ghost use Rattle.std.specs.Prelude.{◌≡◌};
ghost use Rattle.oss_model.specs.Rights.{op_eq};
ghost use Rattle.oss_task_edges.specs.Members.{kept_before, modes_together};

use oss_syntax::{Mode, Op};

/// Of the last group of a list the place of its newest member; and, if more may come into the group, that of the newest
/// member of the group before it.
#[derive(Clone, Copy, PartialEq, Eq)]
pub(crate) struct Groups {
    pub(crate) now: usize,
    pub(crate) before: Option<usize>,
}

/// Where a new access comes to stand: behind the members of a group, whose newest one stands here, and among those of
/// its own, if there are any.
#[derive(Clone, Copy)]
pub(crate) struct Spot {
    pub(crate) before: Option<usize>,
    pub(crate) own: Option<usize>,
}

/// Whether neighbours of these modes are of one group.
pub(crate) fn go_together(mode: Mode, other: Mode) -> bool
    ensures { result ≡ modes_together mode other }
{
    match mode {
        Mode::Read => match other {
            Mode::Read => true,
            Mode::Write => false,
            Mode::Fold(_) => false,
        },
        Mode::Write => false,
        Mode::Fold(op) => match other {
            Mode::Read => false,
            Mode::Write => false,
            Mode::Fold(another) => same_op(op, another),
        },
    }
}

/// Whether the operators are one.
fn same_op(op: Op, other: Op) -> bool
    ensures { result ≡ op_eq op other }
{
    match op {
        Op::Add => match other {
            Op::Add => true,
            Op::And => false,
            Op::Or => false,
            Op::Xor => false,
        },
        Op::And => match other {
            Op::Add => false,
            Op::And => true,
            Op::Or => false,
            Op::Xor => false,
        },
        Op::Or => match other {
            Op::Add => false,
            Op::And => false,
            Op::Or => true,
            Op::Xor => false,
        },
        Op::Xor => match other {
            Op::Add => false,
            Op::And => false,
            Op::Or => false,
            Op::Xor => true,
        },
    }
}

/// What is kept of the group before one of this mode: nothing before a write, since no more come into its group.
pub(crate) fn kept_behind(mode: Mode, before: Option<usize>) -> Option<usize>
    ensures { result ≡ kept_before mode before }
{
    match mode {
        Mode::Read => before,
        Mode::Write => None,
        Mode::Fold(_) => before,
    }
}
