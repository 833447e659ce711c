//! Tests of modes and accesses.

ghost use Rattle.std.specs.Prelude.{◌≡◌};
ghost use Rattle.oss_model.specs.Rights.{op_eq};
ghost use Rattle.oss_span_check.specs.Waiting.{is_change, is_fold, is_folded, is_joined_by, is_read, is_some_fold, is_unfolded};

use oss_syntax::{Access, Mode, Op};

/// Whether two operators are one.
fn is_same_op(left: Op, right: Op) -> bool
    ensures { result ≡ op_eq left right }
{
    match left {
        Op::Add => matches!(right, Op::Add),
        Op::And => matches!(right, Op::And),
        Op::Or => matches!(right, Op::Or),
        Op::Xor => matches!(right, Op::Xor),
    }
}

/// Whether a mode is a reduction by this operator.
fn is_fold(op: Op, mode: Mode) -> bool
    ensures { result ≡ is_fold op mode }
{
    match mode {
        Mode::Read => false,
        Mode::Write => false,
        Mode::Fold(other) => is_same_op(op, other),
    }
}

/// Whether a mode is a reduction.
fn is_some_fold(mode: Mode) -> bool
    ensures { result ≡ is_some_fold mode }
{
    match mode {
        Mode::Read => false,
        Mode::Write => false,
        Mode::Fold(_) => true,
    }
}

/// Whether a mode is that of reading.
fn is_read(mode: Mode) -> bool
    ensures { result ≡ is_read mode }
{
    match mode {
        Mode::Read => true,
        Mode::Write => false,
        Mode::Fold(_) => false,
    }
}

/// Whether there is an access, and it is no read.
pub(crate) fn is_change(access: Option<Access>) -> bool
    ensures { result ≡ is_change access }
{
    match access {
        None => false,
        Some(a) => !is_read(a.mode),
    }
}

/// Whether there is an access, and it is a reduction by this operator.
pub(crate) fn is_folded(op: Op, access: Option<Access>) -> bool
    ensures { result ≡ is_folded op access }
{
    match access {
        None => false,
        Some(a) => is_fold(op, a.mode),
    }
}

/// Whether there is an access, and it is no reduction by this operator.
pub(crate) fn is_unfolded(op: Op, access: Option<Access>) -> bool
    ensures { result ≡ is_unfolded op access }
{
    match access {
        None => false,
        Some(a) => !is_fold(op, a.mode),
    }
}

/// Whether there is an access, and it is that of a strong reduction.
pub(crate) fn is_joined_by(access: Option<Access>) -> bool
    ensures { result ≡ is_joined_by access }
{
    match access {
        None => false,
        Some(a) => a.strong && is_some_fold(a.mode),
    }
}
