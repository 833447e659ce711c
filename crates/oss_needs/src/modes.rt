//! Modes of clauses, beside each other.

ghost use Rattle.std.specs.Prelude.{◌≡◌, true};
ghost use Rattle.oss_model.specs.Rights.{covers, joined_mode, op_eq};
ghost use Rattle.oss_needs.specs.Demands.{is_write as is_to_write};
ghost use Rattle.oss_needs.specs.Lacks.{mode_eq, mode_when, refuses};
ghost use Rattle.oss_needs.specs.Needs.{is_there};

use oss_syntax::{Mode, Op};

/// The operators are one.
fn is_same_op(left: Op, right: Op) -> bool
    ensures { result ≡ op_eq left right }
{
    match left {
        Op::Add => matches!(right, Op::Add),
        Op::And => matches!(right, Op::And),
        Op::Or => matches!(right, Op::Or),
        Op::Xor => matches!(right, Op::Xor),
    }
}

/// The modes are one.
pub(crate) fn is_same_mode(left: Mode, right: Mode) -> bool
    ensures { result ≡ mode_eq left right }
{
    match left {
        Mode::Read => matches!(right, Mode::Read),
        Mode::Write => matches!(right, Mode::Write),
        Mode::Fold(op) => match right {
            Mode::Fold(other) => is_same_op(op, other),
            Mode::Read => false,
            Mode::Write => false,
        },
    }
}

/// The mode is to write.
pub(crate) fn is_write(mode: Mode) -> bool
    ensures { result ≡ is_to_write mode }
{
    match mode {
        Mode::Write => true,
        Mode::Read => false,
        Mode::Fold(_) => false,
    }
}

/// The least mode that will do for a mode, if there is one, and for others.
pub(crate) fn mode_with(mode: Option<Mode>, others: Option<Mode>) -> Option<Mode>
    ensures { result ≡ mode_when true mode others }
{
    match mode {
        None => others,
        Some(mode) => match others {
            None => Some(mode),
            Some(other) => {
                if is_same_mode(mode, other) {
                    Some(other)
                } else {
                    Some(Mode::Write)
                }
            }
        },
    }
}

/// A clause of the mode does not cover the other mode, if there is one.
pub(crate) fn is_refused(held: Mode, wanted: Option<Mode>) -> bool
    ensures { result ≡ refuses held wanted }
{
    match wanted {
        None => false,
        Some(wanted) => match held {
            Mode::Write => false,
            Mode::Read => !matches!(wanted, Mode::Read),
            Mode::Fold(op) => match wanted {
                Mode::Fold(other) => !is_same_op(op, other),
                Mode::Read => true,
                Mode::Write => true,
            },
        },
    }
}

/// There is a mode.
pub(crate) fn is_some(mode: Option<Mode>) -> bool
    ensures { result ≡ is_there mode }
{
    match mode {
        Some(_) => true,
        None => false,
    }
}

/// The mode of two clauses that name one cell; `None` if they cannot be joined.
pub(crate) fn joined_mode_of(left: Mode, right: Mode) -> Option<Mode>
    ensures { result ≡ joined_mode left right }
{
    match left {
        Mode::Read => match right {
            Mode::Read => Some(Mode::Read),
            Mode::Write => Some(Mode::Write),
            Mode::Fold(_) => None,
        },
        Mode::Write => match right {
            Mode::Read => Some(Mode::Write),
            Mode::Write => Some(Mode::Write),
            Mode::Fold(_) => None,
        },
        Mode::Fold(op) => match right {
            Mode::Fold(other) => {
                if is_same_op(op, other) {
                    Some(left)
                } else {
                    None
                }
            }
            Mode::Read => None,
            Mode::Write => None,
        },
    }
}
