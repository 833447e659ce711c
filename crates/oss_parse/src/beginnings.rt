//! Which tokens begin which part of a program.

ghost use Rattle.std.specs.Prelude.{◌≡◌};
ghost use Rattle.oss_grammar.specs.Reading.{begins};
ghost use Rattle.oss_parse.specs.ProgramReading.{begins_program_item};
ghost use Rattle.oss_parse.specs.SimpleReading.{begins_kind, begins_simple};
ghost use Rattle.oss_parse.specs.StatementReading.{begins_item, begins_keyword_statement, begins_statement};

use crate::tokens::{single_kind_of, step_of};
use oss_expressions::reading::{Cursor, is_name, is_start, keyword_is, symbol_is};
use oss_syntax::Token;

/// Whether a token begins a simple statement.
fn simple_begins(token: &Token) -> bool
    ensures { result ≡ begins_simple token.now }
{
    step_of(&token.what).is_some() || symbol_is(b"*", &token.what) || is_name(&token.what)
}

/// Whether a token begins the type of numbers.
fn kind_begins(token: &Token) -> bool
    ensures { result ≡ begins_kind token.now }
{
    single_kind_of(token).is_some() || keyword_is(b"unsigned", &token.what)
}

/// Whether a token begins a statement with a keyword or with a pragma.
fn keyword_statement_begins(token: &Token) -> bool
    ensures { result ≡ begins_keyword_statement token.now }
{
    keyword_is(b"if", &token.what)
        || keyword_is(b"while", &token.what)
        || keyword_is(b"for", &token.what)
        || keyword_is(b"return", &token.what)
        || keyword_is(b"break", &token.what)
        || keyword_is(b"continue", &token.what)
        || keyword_is(b"printf", &token.what)
        || is_start(&token.what)
}

/// Whether a token begins a statement.
fn statement_begins(token: &Token) -> bool
    ensures { result ≡ begins_statement token.now }
{
    symbol_is(b"{", &token.what)
        || symbol_is(b";", &token.what)
        || simple_begins(token)
        || keyword_statement_begins(token)
}

/// Whether a token begins a statement or a declaration.
fn item_begins(token: &Token) -> bool
    ensures { result ≡ begins_item token.now }
{
    kind_begins(token) || statement_begins(token)
}

/// Whether a token begins an item of a program.
fn program_item_begins(token: &Token) -> bool
    ensures { result ≡ begins_program_item token.now }
{
    is_start(&token.what) || keyword_is(b"void", &token.what) || kind_begins(token)
}

/// Whether a simple statement begins here.
pub(crate) fn begins_with_simple(tokens: &Cursor<'_>) -> bool
    ensures { result ≡ begins begins_simple tokens.now }
{
    match tokens.left().first() {
        Some(token) => simple_begins(token),
        None => false,
    }
}

/// Whether the type of numbers begins here.
pub(crate) fn begins_with_kind(tokens: &Cursor<'_>) -> bool
    ensures { result ≡ begins begins_kind tokens.now }
{
    match tokens.left().first() {
        Some(token) => kind_begins(token),
        None => false,
    }
}

/// Whether a statement begins here.
pub(crate) fn begins_with_statement(tokens: &Cursor<'_>) -> bool
    ensures { result ≡ begins begins_statement tokens.now }
{
    match tokens.left().first() {
        Some(token) => statement_begins(token),
        None => false,
    }
}

/// Whether a statement or a declaration begins here.
pub(crate) fn begins_with_item(tokens: &Cursor<'_>) -> bool
    ensures { result ≡ begins begins_item tokens.now }
{
    match tokens.left().first() {
        Some(token) => item_begins(token),
        None => false,
    }
}

/// Whether an item of a program begins here.
pub(crate) fn begins_with_program_item(tokens: &Cursor<'_>) -> bool
    ensures { result ≡ begins begins_program_item tokens.now }
{
    match tokens.left().first() {
        Some(token) => program_item_begins(token),
        None => false,
    }
}
