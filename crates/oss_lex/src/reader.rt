//! The reader of a whole text: it takes blanks, directives and tokens from the front, one at a time, and counts
//! the lines.
ghost use Rattle.std.specs.Prelude.{◌≡◌, ◌≤◌, ◌<◌, ◌+◌, ◌^◌, [], ◌++◌, OnOk, length};
ghost use Rattle.oss_grammar.specs.Tokens.{IsReading, found_before, part_behind};
ghost use Rattle.oss_lex.specs.Reading.{AnswersAs, Shows, StepsAs, front_at, front_behind, gap_len, is_beginning, newline_at, token_at};

use crate::blanks::{blank_len, newlines_in};
use crate::bytes::{begins_name, begins_number, first};
use crate::directives::read_directive;
use crate::names::read_name;
use crate::numbers::read_number;
use crate::strings::read_string;
use crate::symbols::read_symbol;
use crate::taken::{Step, Taken, no_token};
use oss_grammar::LinePart;
use oss_syntax::{List, Refusal, Token, TokenKind};
use std::alloc::{AllocError, Global};

/// The token at the front of a text that begins on this line.
#[tactic(auto, unfolding(crate::specs::Reading::token_at))]
fn read_token(alloc: Global, text: &[u8], line: u32) -> Result<Taken<'_>, Refusal>
    ensures { AnswersAs (token_at text.now) line result }
{
    let Some((b, more)) = first(text) else {
        return Err(no_token(line));
    };
    if begins_name(b) {
        read_name(alloc, text, line)
    } else if begins_number(b) {
        read_number(text, line)
    } else if b == b'"' {
        read_string(alloc, more, line)
    } else {
        read_symbol(alloc, text, line)
    }
}

/// A newline, and the end of the pragma that it ends.
#[tactic(auto, unfolding(crate::specs::Reading::newline_at))]
fn end_line(part: LinePart, rest: &[u8]) -> Step<'_>
    ensures { Shows (newline_at part rest.now) result }
{
    let what = match part {
        LinePart::Pragma => Some(TokenKind::PragmaEnd),
        _ => None,
    };
    Step {
        what,
        part: LinePart::Beginning,
        lines: 1,
        rest,
    }
}

/// Where a token leaves the reader on its line.
fn behind_token(part: LinePart) -> LinePart
    ensures { result ≡ part_behind part }
{
    match part {
        LinePart::Pragma => LinePart::Pragma,
        _ => LinePart::Later,
    }
}

/// Whether only blanks stand before this place of its line.
fn is_first(part: LinePart) -> bool
    ensures { result ≡ is_beginning part }
{
    matches!(part, LinePart::Beginning)
}

/// A blank or comment at the front of a text, else a token.
#[tactic(auto, unfolding(crate::specs::Reading::front_behind, crate::specs::Reading::token_told))]
fn read_word(alloc: Global, part: LinePart, text: &[u8], line: u32) -> Result<Step<'_>, Refusal>
    ensures { StepsAs (front_behind part (gap_len text.now) text.now) line result }
{
    let len = blank_len(text);
    if len > 0 {
        let (blank, rest) = text.split_at(len);
        return Ok(Step {
            what: None,
            part,
            lines: newlines_in(blank),
            rest,
        });
    }
    let Taken { what, rest } = read_token(alloc, text, line)?;
    Ok(Step {
        what: Some(what),
        part: behind_token(part),
        lines: 0,
        rest,
    })
}

/// What stands at the front of a text.
#[tactic(auto, unfolding(crate::specs::Reading::front_at))]
fn read_front(alloc: Global, part: LinePart, text: &[u8], line: u32) -> Result<Step<'_>, Refusal>
    requires { line + length text.now < 2 ^ 32 }
    ensures { StepsAs (front_at part text.now) line result }
{
    let Some((b, more)) = first(text) else {
        return Err(no_token(line));
    };
    if b == b'\n' {
        Ok(end_line(part, more))
    } else if b == b'#' && is_first(part) {
        read_directive(more, line)
    } else {
        read_word(alloc, part, text, line)
    }
}

/// Adds a token of this line at the end, if there is one.
fn keep(found: &mut List<Token>, what: Option<TokenKind>, line: u32) -> Result<(), AllocError>
    ensures { OnOk result (found.new ≡ found.old ++ found_before what line []) }
{
    match what {
        Some(what) => found.push(Token { what, line }),
        None => Ok(()),
    }
}

/// The tokens of a text, each with its line; or why and on which line the text is first refused: `Lexical`
/// where what stands there is no token, `TooLarge` where it is a name of more than 63 bytes. `Memory` says
/// nothing of the text. The text has at most 1,048,576 bytes.
pub fn tokens(alloc: Global, text: &[u8]) -> Result<List<Token>, Refusal>
    requires { length text.now ≤ 1048576 }
    ensures reading { IsReading text.now result }
{
    let mut found = List::new(alloc);
    let mut part = LinePart::Beginning;
    let mut line = 1u32;
    let mut rest = text;
    'text: while !rest.is_empty() {
        match read_front(alloc, part, rest, line) {
            Ok(
                Step {
                    what,
                    part: next,
                    lines,
                    rest: after,
                },
            ) => {
                keep(&mut found, what, line)?;
                line += lines as u32;
                part = next;
                rest = after;
            }
            Err(refusal) => return Err(refusal),
        }
    }
    Ok(found)
}
