//! Lines that begin with `#` (C11 6.10): `#include` and pragmas other than `oss` are skipped, `#pragma oss`
//! begins a pragma, and every other line is one token, which the grammar does not allow.
ghost use Rattle.std.specs.Prelude.{◌≡◌, ◌≤◌, ◌<◌, ◌+◌, ◌^◌, drop, length};
ghost use Rattle.oss_lex.specs.Reading.{Shows, StepsAs, front, hash_at, line_len, pragma_at};

use crate::blanks::{begins_comment, blanks_len, newlines_in};
use crate::names::word_len;
use crate::taken::{Step, no_token};
use oss_grammar::LinePart;
use oss_syntax::{Refusal, TokenKind};

/// How many bytes stand up to the next newline.
fn rest_of_line(text: &[u8]) -> usize
    ensures value { result ≡ line_len text.now }
    ensures within { result ≤ length text.now }
{
    text.iter().take_while(|b| **b != b'\n').count()
}

/// The rest of a line as one step, behind which nothing but its end stands.
fn skip_line(what: Option<TokenKind>, lines: usize, text: &[u8]) -> Step<'_>
    ensures { Shows (front what LinePart.Later lines (drop (line_len text.now) text.now)) result }
{
    let (_, rest) = text.split_at(rest_of_line(text));
    Step {
        what,
        part: LinePart::Later,
        lines,
        rest,
    }
}

/// A line behind `#pragma`.
#[tactic(auto, unfolding(crate::specs::Reading::pragma_at, crate::specs::Reading::pragma_behind))]
fn read_pragma(text: &[u8], line: u32) -> Result<Step<'_>, Refusal>
    requires { line + length text.now < 2 ^ 32 }
    ensures { StepsAs (pragma_at text.now) line result }
{
    let (blanks, behind) = text.split_at(blanks_len(text));
    let lines = newlines_in(blanks);
    if begins_comment(behind) {
        return Err(no_token(line + lines as u32));
    }
    let (word, rest) = behind.split_at(word_len(behind));
    if word != b"oss".as_slice() {
        return Ok(skip_line(None, lines, behind));
    }
    Ok(Step {
        what: Some(TokenKind::PragmaOss),
        part: LinePart::Pragma,
        lines,
        rest,
    })
}

/// A line behind the `#` with which it begins.
#[tactic(auto, unfolding(crate::specs::Reading::hash_at, crate::specs::Reading::hash_behind))]
pub(crate) fn read_directive(text: &[u8], line: u32) -> Result<Step<'_>, Refusal>
    requires { line + length text.now < 2 ^ 32 }
    ensures { StepsAs (hash_at text.now) line result }
{
    let (word, behind) = text.split_at(word_len(text));
    if word == b"include".as_slice() {
        Ok(skip_line(None, 0, behind))
    } else if word == b"pragma".as_slice() {
        read_pragma(behind, line)
    } else {
        Ok(skip_line(Some(TokenKind::Directive), 0, text))
    }
}
