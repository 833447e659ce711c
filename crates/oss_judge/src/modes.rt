//! The modes of accesses: which of them a right covers, and what two clauses that name one cell make together.
ghost use Rattle.std.specs.Prelude.{◌≡◌};
ghost use Rattle.oss_model.specs.Rights.{op_eq, covers, joined_mode};

use oss_syntax::{Mode, Op};

/// The operators are one.
pub(crate) fn is_same_op(left: Op, right: Op) -> bool
    ensures { result ≡ op_eq left right }
{
    match left {
        Op::Add => matches!(right, Op::Add),
        Op::And => matches!(right, Op::And),
        Op::Or => matches!(right, Op::Or),
        Op::Xor => matches!(right, Op::Xor),
    }
}

/// A right of the first mode covers a child's access of the second.
pub(crate) fn is_covered(held: Mode, wanted: Mode) -> bool
    ensures { result ≡ covers held wanted }
{
    match held {
        Mode::Write => true,
        Mode::Read => matches!(wanted, Mode::Read),
        Mode::Fold(op) => match wanted {
            Mode::Fold(other) => is_same_op(op, other),
            Mode::Read => false,
            Mode::Write => false,
        },
    }
}

/// The mode of two clauses that name one cell; `None` where they cannot be joined.
pub(crate) fn join_modes(first: Mode, second: Mode) -> Option<Mode>
    ensures { result ≡ joined_mode first second }
{
    match first {
        Mode::Read => match second {
            Mode::Read => Some(Mode::Read),
            Mode::Write => Some(Mode::Write),
            Mode::Fold(_) => None,
        },
        Mode::Write => match second {
            Mode::Read => Some(Mode::Write),
            Mode::Write => Some(Mode::Write),
            Mode::Fold(_) => None,
        },
        Mode::Fold(op) => match second {
            Mode::Fold(other) => {
                if is_same_op(op, other) {
                    Some(Mode::Fold(op))
                } else {
                    None
                }
            }
            Mode::Read => None,
            Mode::Write => None,
        },
    }
}
