//! The words by which clauses are told.

ghost use Rattle.std.specs.Prelude.{◌≡◌};
ghost use Rattle.oss_explanation.specs.Held.{all_words};

use oss_explanation::{Use, Word};
use oss_syntax::Op;

/// All words, in the order in which they are told: the strong ones first.
pub(crate) fn all_words() -> [Word; 14]
    ensures { result ≡ all_words }
{
    [
        so(Use::In, true),
        so(Use::Out, true),
        so(Use::Inout, true),
        so(Use::Reduction(Op::Add), true),
        so(Use::Reduction(Op::And), true),
        so(Use::Reduction(Op::Or), true),
        so(Use::Reduction(Op::Xor), true),
        so(Use::In, false),
        so(Use::Out, false),
        so(Use::Inout, false),
        so(Use::Reduction(Op::Add), false),
        so(Use::Reduction(Op::And), false),
        so(Use::Reduction(Op::Or), false),
        so(Use::Reduction(Op::Xor), false),
    ]
}

/// The strong word of a use, or the weak one.
fn so(named: Use, strong: bool) -> Word
    ensures { result ≡ record { named = named; strong = strong } }
{
    Word { named, strong }
}
