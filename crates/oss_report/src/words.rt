//! The words for kinds of faults and refusals.

ghost use Rattle.std.specs.Prelude.{◌≡◌, codes};
ghost use Rattle.oss_model.specs.Texts.{fault_word, refused_word};

use oss_syntax::{FaultKind, RefusedKind};

/// The word for a kind of fault, as `Lent`.
pub fn word_of_fault(kind: FaultKind) -> &'static [u8]
    ensures { result.now ≡ fault_word kind }
{
    match kind {
        FaultKind::OutOfFuel => b"OutOfFuel",
        FaultKind::TooDeep => b"TooDeep",
        FaultKind::TooManyTasks => b"TooManyTasks",
        FaultKind::DivideByZero => b"DivideByZero",
        FaultKind::ShiftRange => b"ShiftRange",
        FaultKind::OutOfRange => b"OutOfRange",
        FaultKind::MixedAccess => b"MixedAccess",
        FaultKind::Released => b"Released",
        FaultKind::NoRight => b"NoRight",
        FaultKind::NotCovered => b"NotCovered",
        FaultKind::BadReduction => b"BadReduction",
        FaultKind::Lent => b"Lent",
        FaultKind::Unwritten => b"Unwritten",
    }
}

/// The word for a kind of refusal.
pub(crate) fn word_of_refusal(kind: RefusedKind) -> &'static [u8]
    ensures { result.now ≡ refused_word kind }
{
    match kind {
        RefusedKind::Lexical => b"Lexical",
        RefusedKind::Syntax => b"Syntax",
        RefusedKind::BadPragma => b"BadPragma",
        RefusedKind::Unsupported => b"Unsupported",
        RefusedKind::TooLarge => b"TooLarge",
        RefusedKind::UnknownName => b"UnknownName",
        RefusedKind::DuplicateName => b"DuplicateName",
        RefusedKind::WrongKind => b"WrongKind",
        RefusedKind::WrongCount => b"WrongCount",
        RefusedKind::BadJump => b"BadJump",
        RefusedKind::NoMain => b"NoMain",
    }
}
