//! What readers of one token answer: the token, and the text behind it; or why there is none.
ghost use Rattle.std.specs.Prelude.{◌≡◌};

use oss_grammar::LinePart;
use oss_syntax::{Refusal, Refused, RefusedKind, TokenKind};

/// A token, and the text behind it.
#[derive(Drop)]
pub(crate) struct Taken<'a> {
    /// The token at the front of the text.
    pub(crate) what: TokenKind,
    /// What stands behind the token.
    pub(crate) rest: &'a [u8],
}

/// What stands at the front of a text: a token, or nothing that is one, with the place on its line and the number of
/// lines on where the rest begins.
#[derive(Drop)]
pub(crate) struct Step<'a> {
    /// The token, or `None` where what stands there gives none.
    pub(crate) what: Option<TokenKind>,
    /// Where on its line the rest begins.
    pub(crate) part: LinePart,
    /// How many newlines were taken before the rest.
    pub(crate) lines: usize,
    /// The text behind it, still to be read.
    pub(crate) rest: &'a [u8],
}

/// The refusal of a place on this line that is no token.
pub(crate) fn no_token(line: u32) -> Refusal
    ensures { result ≡ Refusal.Refused (record { kind = RefusedKind.Lexical; line = line; token = 0 }) }
{
    Refusal::Refused(Refused {
        kind: RefusedKind::Lexical,
        line,
        token: 0,
    })
}

/// The refusal of a name on this line that is too long.
pub(crate) fn long_name(line: u32) -> Refusal
    ensures { result ≡ Refusal.Refused (record { kind = RefusedKind.TooLarge; line = line; token = 0 }) }
{
    Refusal::Refused(Refused {
        kind: RefusedKind::TooLarge,
        line,
        token: 0,
    })
}
