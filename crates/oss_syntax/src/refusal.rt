//! Refusals: why and where a program text is not accepted, before any run.
ghost use Rattle.std.specs.Prelude.{◌≡◌};
ghost use Rattle.oss_syntax.specs.declared.refusal.Refusal.TheVariants.{Memory};

use std::alloc::AllocError;
use thiserror::Error;

/// Why a program text is refused.
#[derive(Clone, Copy, Debug)]
pub enum RefusedKind {
    /// A byte, string, comment or number is no token.
    Lexical,
    /// A token fits nowhere in the grammar.
    Syntax,
    /// A token of a pragma fits nowhere in it.
    BadPragma,
    /// A word or form of C or OmpSs-2 that is left out.
    Unsupported,
    /// A limit of the language is passed.
    TooLarge,
    /// A name is used that is not in scope.
    UnknownName,
    /// A name is declared twice in one scope.
    DuplicateName,
    /// A thing of another kind is needed at this place.
    WrongKind,
    /// A call has too many or too few arguments.
    WrongCount,
    /// A jump leads out of nothing.
    BadJump,
    /// There is no function `main`.
    NoMain,
}

/// Where and why a text is refused: the line is counted from 1; `token` is the number of tokens before the offending
/// one for a refusal of the grammar, and 0 for every other.
#[derive(Clone, Copy, Debug)]
pub struct Refused {
    /// Why it is refused.
    pub kind: RefusedKind,
    /// The line of the place that is refused, counted from 1.
    pub line: u32,
    pub token: u32,
}

/// Why a text was not read.
#[derive(Debug, Drop, Error)]
pub enum Refusal {
    #[error("the text is refused")]
    Refused(Refused),
    #[error("out of memory")]
    Memory(AllocError),
}

impl From<AllocError> for Refusal {
    ghost from_gives = { λ e refusal. refusal ≡ Memory e };

    fn from(e: AllocError) -> Refusal {
        Refusal::Memory(e)
    }
}
