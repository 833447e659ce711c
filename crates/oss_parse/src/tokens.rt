//! Single tokens, as a reader of programs takes them from a cursor.

ghost use Rattle.std.specs.Prelude.{◌≡◌};
ghost use Rattle.oss_grammar.specs.Reading.{begins, has, read_one};
ghost use Rattle.oss_grammar.specs.SimpleStatements.{assignment_of, first_line, step_of};
ghost use Rattle.oss_expressions.specs.TokenValues.{keyword_at, name_at, start_at};
ghost use Rattle.oss_expressions.specs.Told.{ReadsAs, Makes};
ghost use Rattle.oss_parse.specs.Assignments.{bit_assignment_of};
ghost use Rattle.oss_parse.specs.ProgramReading.{value_at, value_in};
ghost use Rattle.oss_parse.specs.SimpleReading.{assignment_at, single_kind_at, step_at};
ghost use Rattle.oss_parse.specs.StatementReading.{text_at, text_in};

use oss_expressions::reading::{Cursor, Unread, is_name, is_start, keyword_is, symbol_is};
use oss_syntax::{BinOp, Bytes, NumKind, Token, TokenKind};
use std::alloc::Global;

/// The value of the number that this is.
fn value_of(what: &TokenKind) -> Option<u64>
    ensures { result ≡ value_in what.now }
{
    match what {
        TokenKind::Number(value, _) => Some(*value),
        _ => None,
    }
}

/// The bytes of the string that this is.
fn text_of(alloc: Global, what: &TokenKind) -> Result<Bytes, Unread>
    ensures { Makes (text_in what.now) result }
{
    match what {
        TokenKind::Text(text) => Ok(Bytes::from_slice(alloc, text.as_slice())?),
        _ => Err(Unread::Syntax),
    }
}

/// The assignment with an operator of bits that this is.
fn bit_assignment_of(what: &TokenKind) -> Option<Option<BinOp>>
    ensures { result ≡ bit_assignment_of what.now }
{
    if symbol_is(b"&=", what) {
        Some(Some(BinOp::And))
    } else if symbol_is(b"|=", what) {
        Some(Some(BinOp::Or))
    } else if symbol_is(b"^=", what) {
        Some(Some(BinOp::Xor))
    } else if symbol_is(b"<<=", what) {
        Some(Some(BinOp::Left))
    } else if symbol_is(b">>=", what) {
        Some(Some(BinOp::Right))
    } else {
        None
    }
}

/// The assignment that this is: `=` has no operator, a compound one has its own.
#[tactic(auto, unfolding(oss_grammar::specs::SimpleStatements::assignment_of))]
pub(crate) fn assignment_of(what: &TokenKind) -> Option<Option<BinOp>>
    ensures { result ≡ assignment_of what.now }
{
    if symbol_is(b"=", what) {
        Some(None)
    } else if symbol_is(b"+=", what) {
        Some(Some(BinOp::Add))
    } else if symbol_is(b"-=", what) {
        Some(Some(BinOp::Sub))
    } else if symbol_is(b"*=", what) {
        Some(Some(BinOp::Mul))
    } else if symbol_is(b"/=", what) {
        Some(Some(BinOp::Div))
    } else if symbol_is(b"%=", what) {
        Some(Some(BinOp::Rem))
    } else {
        bit_assignment_of(what)
    }
}

/// The operator of the step that this is.
#[tactic(auto, unfolding(oss_grammar::specs::SimpleStatements::step_of))]
pub(crate) fn step_of(what: &TokenKind) -> Option<BinOp>
    ensures { result ≡ step_of what.now }
{
    if symbol_is(b"++", what) {
        Some(BinOp::Add)
    } else if symbol_is(b"--", what) {
        Some(BinOp::Sub)
    } else {
        None
    }
}

/// The type of one word that a token is, with its line.
pub(crate) fn single_kind_of(token: &Token) -> Option<(NumKind, u32)>
    ensures { result ≡ single_kind_at token.now }
{
    if keyword_is(b"int", &token.what) {
        Some((NumKind::Int, token.line))
    } else if keyword_is(b"long", &token.what) {
        Some((NumKind::Long, token.line))
    } else {
        None
    }
}

/// The line of the next token, and 0 at the end.
pub(crate) fn first_line(tokens: &Cursor<'_>) -> u32
    ensures { result ≡ first_line tokens.now }
{
    match tokens.left().first() {
        Some(token) => token.line,
        None => 0,
    }
}

/// Takes this keyword, and answers its line.
pub(crate) fn keyword(keyword: &[u8], tokens: &mut Cursor<'_>) -> Result<u32, Unread>
    ensures { ReadsAs (read_one (keyword_at keyword.now) tokens.old) result tokens.new }
{
    let Some((token, rest)) = tokens.left().split_first() else {
        return Err(Unread::Syntax);
    };
    if !keyword_is(keyword, &token.what) {
        return Err(Unread::Syntax);
    }
    tokens.go_to(rest);
    Ok(token.line)
}

/// Takes an assignment's operator.
pub(crate) fn assignment(tokens: &mut Cursor<'_>) -> Result<Option<BinOp>, Unread>
    ensures { ReadsAs (read_one assignment_at tokens.old) result tokens.new }
{
    let Some((token, rest)) = tokens.left().split_first() else {
        return Err(Unread::Syntax);
    };
    let Some(operator) = assignment_of(&token.what) else {
        return Err(Unread::Syntax);
    };
    tokens.go_to(rest);
    Ok(operator)
}

/// Takes a step, and answers its operator and its line.
pub(crate) fn step(tokens: &mut Cursor<'_>) -> Result<(BinOp, u32), Unread>
    ensures { ReadsAs (read_one step_at tokens.old) result tokens.new }
{
    let Some((token, rest)) = tokens.left().split_first() else {
        return Err(Unread::Syntax);
    };
    let Some(operator) = step_of(&token.what) else {
        return Err(Unread::Syntax);
    };
    tokens.go_to(rest);
    Ok((operator, token.line))
}

/// Takes a type of one word, and answers its line too.
pub(crate) fn single_kind(tokens: &mut Cursor<'_>) -> Result<(NumKind, u32), Unread>
    ensures { ReadsAs (read_one single_kind_at tokens.old) result tokens.new }
{
    let Some((token, rest)) = tokens.left().split_first() else {
        return Err(Unread::Syntax);
    };
    let Some(kind) = single_kind_of(token) else {
        return Err(Unread::Syntax);
    };
    tokens.go_to(rest);
    Ok(kind)
}

/// Takes a number, and answers its value.
pub(crate) fn value(tokens: &mut Cursor<'_>) -> Result<u64, Unread>
    ensures { ReadsAs (read_one value_at tokens.old) result tokens.new }
{
    let Some((token, rest)) = tokens.left().split_first() else {
        return Err(Unread::Syntax);
    };
    let Some(value) = value_of(&token.what) else {
        return Err(Unread::Syntax);
    };
    tokens.go_to(rest);
    Ok(value)
}

/// Takes a string, and answers its bytes.
pub(crate) fn text(alloc: Global, tokens: &mut Cursor<'_>) -> Result<Bytes, Unread>
    ensures { ReadsAs (read_one text_at tokens.old) result tokens.new }
{
    let Some((token, rest)) = tokens.left().split_first() else {
        return Err(Unread::Syntax);
    };
    let text = text_of(alloc, &token.what)?;
    tokens.go_to(rest);
    Ok(text)
}

/// Whether the next token is this keyword; it stays.
pub(crate) fn begins_with_keyword(keyword: &[u8], tokens: &Cursor<'_>) -> bool
    ensures { result ≡ begins (has (keyword_at keyword.now)) tokens.now }
{
    match tokens.left().first() {
        Some(token) => keyword_is(keyword, &token.what),
        None => false,
    }
}

/// Whether the next token is a step; it stays.
pub(crate) fn begins_with_step(tokens: &Cursor<'_>) -> bool
    ensures { result ≡ begins (has step_at) tokens.now }
{
    match tokens.left().first() {
        Some(token) => step_of(&token.what).is_some(),
        None => false,
    }
}

/// Whether the next token is a type of one word; it stays.
pub(crate) fn begins_with_single_kind(tokens: &Cursor<'_>) -> bool
    ensures { result ≡ begins (has single_kind_at) tokens.now }
{
    match tokens.left().first() {
        Some(token) => single_kind_of(token).is_some(),
        None => false,
    }
}

/// Whether the next token is a name; it stays.
pub(crate) fn begins_with_name(tokens: &Cursor<'_>) -> bool
    ensures { result ≡ begins (has name_at) tokens.now }
{
    match tokens.left().first() {
        Some(token) => is_name(&token.what),
        None => false,
    }
}

/// Whether the next token is the first one of a pragma; it stays.
pub(crate) fn begins_with_start(tokens: &Cursor<'_>) -> bool
    ensures { result ≡ begins (has start_at) tokens.now }
{
    match tokens.left().first() {
        Some(token) => is_start(&token.what),
        None => false,
    }
}
