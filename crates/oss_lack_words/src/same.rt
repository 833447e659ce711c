//! Which words are one.

ghost use Rattle.std.specs.Prelude.{◌≡◌};
ghost use Rattle.oss_explanation.specs.Held.{alike, is_listed, use_eq, word_eq};
ghost use Rattle.oss_model.specs.Rights.{op_eq};

use oss_explanation::{Use, Word};
use oss_syntax::Op;

/// Whether a word is among others.
pub(crate) fn is_among(words: &[Word], word: Word) -> bool
    ensures { result ≡ is_listed words.now word }
{
    for other in words {
        if is_same(*other, word) {
            return true;
        }
    }
    false
}

/// Whether two words are one.
pub(crate) fn is_same(word: Word, other: Word) -> bool
    ensures { result ≡ word_eq word other }
{
    is_same_use(word.named, other.named) && are_alike(word.strong, other.strong)
}

/// Whether both are so, or neither.
fn are_alike(one: bool, other: bool) -> bool
    ensures { result ≡ alike one other }
{
    if one { other } else { !other }
}

/// Whether two words say the same, weak or not.
fn is_same_use(named: Use, other: Use) -> bool
    ensures { result ≡ use_eq named other }
{
    match named {
        Use::In => match other {
            Use::In => true,
            _ => false,
        },
        Use::Out => match other {
            Use::Out => true,
            _ => false,
        },
        Use::Inout => match other {
            Use::Inout => true,
            _ => false,
        },
        Use::Reduction(op) => match other {
            Use::Reduction(another) => is_same_op(op, another),
            _ => false,
        },
    }
}

/// Whether two operators are one.
fn is_same_op(op: Op, other: Op) -> bool
    ensures { result ≡ op_eq op other }
{
    match op {
        Op::Add => match other {
            Op::Add => true,
            _ => false,
        },
        Op::And => match other {
            Op::And => true,
            _ => false,
        },
        Op::Or => match other {
            Op::Or => true,
            _ => false,
        },
        Op::Xor => match other {
            Op::Xor => true,
            _ => false,
        },
    }
}
