//! What an access waits for, and which earlier accesses it may pass. One level up it may wait for something else.

ghost use Rattle.std.specs.Prelude.{◌≡◌};
ghost use Rattle.oss_model.specs.Rights.{op_eq};
ghost use Rattle.oss_deps.specs.Wants.{is_fold_of, is_read, may_pass, want_above};

use oss_syntax::{Mode, Op};

/// What an access waits for: a write, a read, or the join of a reduction.
#[derive(Clone, Copy)]
pub(crate) enum Want {
    /// A write: all earlier accesses are to be done.
    ToWrite,
    /// A read: earlier reads may go on beside it.
    ToRead,
    /// The join of a reduction by this operator: earlier reductions by it may go on beside it.
    ToJoin(Op),
}

/// The operators are one.
fn is_same_op(left: Op, right: Op) -> bool
    ensures { result ≡ op_eq left right }
{
    match left {
        Op::Add => matches!(right, Op::Add),
        Op::And => matches!(right, Op::And),
        Op::Or => matches!(right, Op::Or),
        Op::Xor => matches!(right, Op::Xor),
    }
}

/// The access is a reduction by this operator.
fn is_fold_of(op: Op, mode: Mode) -> bool
    ensures { result ≡ is_fold_of op mode }
{
    match mode {
        Mode::Read => false,
        Mode::Write => false,
        Mode::Fold(other) => is_same_op(op, other),
    }
}

/// The access is a read.
fn is_read(mode: Mode) -> bool
    ensures { result ≡ is_read mode }
{
    match mode {
        Mode::Read => true,
        Mode::Write => false,
        Mode::Fold(_) => false,
    }
}

/// An access of an earlier sibling does not stand in the way: it has this mode, and is done or not. It is the
/// first one that is not done, or stands behind that.
pub(crate) fn may_pass(want: Want, mode: Mode, is_closed: bool) -> bool
    ensures { result ≡ may_pass want mode is_closed }
{
    match want {
        Want::ToWrite => is_closed,
        Want::ToRead => is_closed || is_read(mode),
        Want::ToJoin(op) => is_fold_of(op, mode),
    }
}

/// What is wanted of the level above, where the access there has this mode.
pub(crate) fn want_above(want: Want, mode: Mode) -> Want
    ensures { result ≡ want_above want mode }
{
    match want {
        Want::ToWrite => Want::ToWrite,
        Want::ToRead => Want::ToRead,
        Want::ToJoin(op) => {
            if is_fold_of(op, mode) {
                Want::ToJoin(op)
            } else {
                Want::ToWrite
            }
        }
    }
}
