//! String literals (C11 6.4.5), each on one line, with the escapes of the language (C11 6.4.4.4).
ghost use Rattle.std.specs.Prelude.{◌≡◌, [], ◌∷◌, ◌++◌, false, OnOk};
ghost use Rattle.oss_grammar.specs.Words.{escaped, is_escape, is_plain};
ghost use Rattle.oss_lex.specs.Reading.{AnswersAs, string_at};

use crate::bytes::first;
use crate::taken::{Taken, no_token};
use oss_syntax::{Bytes, Refusal, TokenKind};
use std::alloc::{AllocError, Global};

/// Whether a byte may stand in a string as it is.
#[tactic(auto, unfolding(oss_grammar::specs::Words::is_plain))]
fn stands_for_itself(b: u8) -> bool
    ensures { result ≡ is_plain b }
{
    (b >= 32 || b == b'\t') && (b != b'"' && b != b'\\')
}

/// Whether a byte may stand behind a backslash.
#[tactic(auto, unfolding(oss_grammar::specs::Words::is_escape))]
fn can_be_escaped(b: u8) -> bool
    ensures { result ≡ is_escape b }
{
    b == b'n' || b == b't' || b == b'\\' || b == b'"'
}

/// What a byte behind a backslash stands for.
#[tactic(auto, unfolding(oss_grammar::specs::Words::escaped))]
fn escape(b: u8) -> u8
    ensures { result ≡ escaped b }
{
    if b == b'n' {
        b'\n'
    } else if b == b't' {
        b'\t'
    } else {
        b
    }
}

/// Adds a byte at the end.
fn add(bytes: &mut Vec<u8>, b: u8) -> Result<(), AllocError>
    ensures { OnOk result (bytes.new.items ≡ bytes.old.items ++ b ∷ []) }
{
    bytes.push(b)?;
    Ok(())
}

/// The string behind an opening quote.
#[tactic(auto, unfolding(crate::specs::Reading::string_at))]
pub(crate) fn read_string(alloc: Global, text: &[u8], line: u32) -> Result<Taken<'_>, Refusal>
    ensures { AnswersAs (string_at false [] text.now) line result }
{
    let mut bytes = Vec::new(alloc);
    let mut rest = text;
    'string: while let Some((b, after)) = first(rest) {
        if b == b'"' {
            let what = TokenKind::Text(Bytes::from_vec(bytes));
            return Ok(Taken { what, rest: after });
        }
        if b == b'\\' {
            let Some((e, behind)) = first(after) else {
                return Err(no_token(line));
            };
            if !can_be_escaped(e) {
                return Err(no_token(line));
            }
            add(&mut bytes, escape(e))?;
            rest = behind;
        } else {
            if !stands_for_itself(b) {
                return Err(no_token(line));
            }
            add(&mut bytes, b)?;
            rest = after;
        }
    }
    Err(no_token(line))
}
