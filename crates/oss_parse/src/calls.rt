//! The call that reads a whole text.

ghost use Rattle.std.specs.Prelude.{◌≡◌, ◌≤◌, length};
ghost use Rattle.oss_grammar.specs.Parsing.{IsParse};
ghost use Rattle.oss_grammar.specs.Tokens.{newlines};
ghost use Rattle.oss_expressions.specs.Told.{ReadsAs};
ghost use Rattle.oss_parse.specs.Parsed.{IsParsed, IsToldOf, RefusesAt, placed_at};
ghost use Rattle.oss_parse.specs.ProgramReading.{read_text};

use crate::programs::program;
use oss_expressions::reading::{Cursor, Unread, refusal};
use oss_lex::tokens;
use oss_syntax::{List, Program, Refusal, Refused, Token};
use std::alloc::Global;

/// Reads the program of a text of at most 1,048,576 bytes.
///
/// `Ok` where the tokens of the text are a program, with its tree. Else the refusal: `Lexical` or `TooLarge`
/// where the text has no tokens, as of `oss_lex`; then `Syntax`, `Unsupported` or `BadPragma` at the first
/// token that no program goes on with, by that token and by whether it stands in a pragma, or `Syntax` at the
/// end of the text, whose line is 1 plus the number of its newlines; `token` is the number of tokens before it.
/// `TooLarge` where before that a level above 64 begins or a 257th operator stands in an expression, with the
/// line of the token there and `token` 0. `Memory` only for want of memory.
pub fn parse(alloc: Global, text: &[u8]) -> Result<Program, Refusal>
    requires { length text.now ≤ 1048576 }
    ensures { IsParse text.now result }
{
    parse_told(alloc, text)
}

/// The answer as it is told by the readers.
fn parse_told(alloc: Global, text: &[u8]) -> Result<Program, Refusal>
    requires { length text.now ≤ 1048576 }
    ensures { IsParsed text.now result }
{
    match tokens(alloc, text) {
        Ok(tokens) => told(alloc, text, tokens.as_slice()),
        Err(refusal) => Err(refusal),
    }
}

/// What is told of the tokens of a text.
fn told(alloc: Global, text: &[u8], tokens: &[Token]) -> Result<Program, Refusal>
    requires within { length text.now ≤ 1048576 }
    requires counted { length tokens.now ≤ 4294967295 }
    ensures { IsToldOf text.now tokens.now result }
{
    let mut left = Cursor::new(tokens);
    match whole(alloc, &mut left) {
        Ok(program) => Ok(program),
        Err(unread) => Err(refused(text, tokens, left.left(), unread)),
    }
}

/// A whole text: no token may be left over.
#[tactic(auto, unfolding(crate::specs::ProgramReading::read_text))]
fn whole(alloc: Global, tokens: &mut Cursor<'_>) -> Result<Program, Unread>
    ensures { ReadsAs (read_text tokens.old) result tokens.new }
{
    let found = program(alloc, tokens)?;
    match tokens.left().first() {
        Some(_) => Err(Unread::Syntax),
        None => Ok(found),
    }
}

/// The refusal of the tokens of a text, of which these are left where nothing was read.
fn refused(text: &[u8], tokens: &[Token], left: &[Token], unread: Unread) -> Refusal
    requires within { length text.now ≤ 1048576 }
    requires counted { length tokens.now ≤ 4294967295 }
    ensures { RefusesAt unread text.now tokens.now left.now result }
{
    match refusal(tokens, left, unread) {
        Refusal::Refused(refused) => Refusal::Refused(placed(text, left, refused)),
        Refusal::Memory(e) => Refusal::Memory(e),
    }
}

/// The refusal at the first token that is left; at the end of the tokens it has the line of the end of the text.
fn placed(text: &[u8], left: &[Token], refused: Refused) -> Refused
    requires { length text.now ≤ 1048576 }
    ensures { result ≡ placed_at text.now left.now refused }
{
    if !left.is_empty() {
        return refused;
    }
    Refused {
        kind: refused.kind,
        line: 1 + newlines_in(text),
        token: refused.token,
    }
}

/// How many newlines stand in a text.
fn newlines_in(text: &[u8]) -> u32
    requires { length text.now ≤ 1048576 }
    ensures value { result ≡ newlines text.now }
    ensures within { result ≤ 1048576 }
{
    text.iter().filter(|b| **b == b'\n').count() as u32
}
