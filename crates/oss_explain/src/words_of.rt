//! By which words accesses name a cell.

ghost use Rattle.std.specs.Prelude.{◌≡◌};
ghost use Rattle.oss_explanation.specs.Held.{alike, clause_word, mark_for, use_eq, use_of, word_eq};
ghost use Rattle.oss_model.specs.Rights.{op_eq};

use oss_explanation::{Use, Word};
use oss_syntax::{Access, Mode, Op};

/// The word of a clause; of a final task all are strong.
pub(crate) fn clause_word(access: Access, is_final: bool) -> Word
    ensures { result ≡ clause_word is_final access }
{
    Word {
        named: use_of(access.mode, access.fresh),
        strong: is_final || access.strong,
    }
}

/// What a mode says: a cell that was named by `out` alone is written first.
pub(crate) fn use_of(mode: Mode, fresh: bool) -> Use
    ensures { result ≡ use_of mode (mark_for fresh) }
{
    match mode {
        Mode::Read => Use::In,
        Mode::Write => { if fresh { Use::Out } else { Use::Inout } }
        Mode::Fold(op) => Use::Reduction(op),
    }
}

/// Whether two words are one.
pub(crate) fn same_word(word: Word, other: Word) -> bool
    ensures { result ≡ word_eq word other }
{
    same_use(word.named, other.named) && both_alike(word.strong, other.strong)
}

/// Whether both are so, or neither.
fn both_alike(one: bool, other: bool) -> bool
    ensures { result ≡ alike one other }
{
    if one { other } else { !other }
}

/// Whether two words say the same, weak or not.
fn same_use(named: Use, other: Use) -> bool
    ensures { result ≡ use_eq named other }
{
    match named {
        Use::In => match other {
            Use::In => true,
            _ => false,
        },
        Use::Out => match other {
            Use::Out => true,
            _ => false,
        },
        Use::Inout => match other {
            Use::Inout => true,
            _ => false,
        },
        Use::Reduction(op) => match other {
            Use::Reduction(another) => same_op(op, another),
            _ => false,
        },
    }
}

/// Whether two operators are one.
pub(crate) fn same_op(op: Op, other: Op) -> bool
    ensures { result ≡ op_eq op other }
{
    match op {
        Op::Add => match other {
            Op::Add => true,
            _ => false,
        },
        Op::And => match other {
            Op::And => true,
            _ => false,
        },
        Op::Or => match other {
            Op::Or => true,
            _ => false,
        },
        Op::Xor => match other {
            Op::Xor => true,
            _ => false,
        },
    }
}
