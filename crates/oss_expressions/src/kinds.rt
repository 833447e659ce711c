//! What a single token is.

ghost use Rattle.std.specs.Prelude.{◌≡◌, is_some};
ghost use Rattle.oss_grammar.specs.Expressions.{prefix_of, operator_of};
ghost use Rattle.oss_grammar.specs.OneToken.{is_symbol, is_keyword, is_word};
ghost use Rattle.oss_grammar.specs.Pragmas.{access_of, reduction_of, fold_of};
ghost use Rattle.oss_expressions.specs.Singles.{single_of};
ghost use Rattle.oss_expressions.specs.TokenValues.{begins_expression, end_in, is_single_word, label_in, named_in, number_in, start_in};
ghost use Rattle.oss_expressions.specs.Told.{Makes};

use crate::cursor::{Named, Unread};
use oss_syntax::{BinOp, Bytes, Expr, ExprKind, Mode, Name, Op, Token, TokenKind, UnOp};
use std::alloc::Global;

/// The clauses that a task or a task loop has once at most.
#[derive(Clone, Copy)]
pub enum Once {
    If,
    Final,
    Wait,
    Label,
    Priority,
    Grain,
}

/// Which pragma has clauses that are read.
#[derive(Clone, Copy)]
pub enum TaskKind {
    /// A task, of which no clause is a grainsize.
    Task,
    Loop,
}

/// Whether this is the punctuator with these bytes.
pub fn symbol_is(symbol: &[u8], what: &TokenKind) -> bool
    ensures { result ≡ is_symbol symbol.now what.now }
{
    match what {
        TokenKind::Symbol(word) => word.as_slice() == symbol,
        _ => false,
    }
}

/// Whether this is the keyword with these bytes.
pub fn keyword_is(keyword: &[u8], what: &TokenKind) -> bool
    ensures { result ≡ is_keyword keyword.now what.now }
{
    match what {
        TokenKind::Keyword(word) => word.as_slice() == keyword,
        _ => false,
    }
}

/// Whether this is the name with these bytes.
pub(crate) fn word_is(word: &[u8], what: &TokenKind) -> bool
    ensures { result ≡ is_word word.now what.now }
{
    match what {
        TokenKind::Name(name) => name.as_slice() == word,
        _ => false,
    }
}

/// Whether this is the first token of a pragma.
pub fn is_start(what: &TokenKind) -> bool
    ensures { result ≡ is_some (start_in what.now 0) }
{
    matches!(what, TokenKind::PragmaOss)
}

/// Whether this is the last token of a pragma.
pub(crate) fn is_end(what: &TokenKind) -> bool
    ensures { result ≡ is_some (end_in what.now 0) }
{
    matches!(what, TokenKind::PragmaEnd)
}

/// Whether this is a name.
pub fn is_name(what: &TokenKind) -> bool
    ensures { result ≡ is_some (named_in what.now 0) }
{
    matches!(what, TokenKind::Name(_))
}

/// The name that this is, with its line.
pub(crate) fn named(alloc: Global, what: &TokenKind, line: u32) -> Result<Named, Unread>
    ensures { Makes (named_in what.now line) result }
{
    match what {
        TokenKind::Name(name) => Ok(Named {
            name: Name::from_slice(alloc, name.as_slice())?,
            line,
        }),
        _ => Err(Unread::Syntax),
    }
}

/// The number that this is, as an expression.
pub(crate) fn number(what: &TokenKind, line: u32) -> Option<Expr>
    ensures { result ≡ number_in what.now line }
{
    match what {
        TokenKind::Number(value, unsigned) => Some(Expr {
            what: ExprKind::Number(*value, *unsigned),
            line,
        }),
        _ => None,
    }
}

/// Whether this is a number.
pub(crate) fn is_number(what: &TokenKind) -> bool
    ensures { result ≡ is_some (number_in what.now 0) }
{
    matches!(what, TokenKind::Number(_, _))
}

/// The bytes of what a label is made of.
pub(crate) fn label(alloc: Global, what: &TokenKind) -> Result<Bytes, Unread>
    ensures { Makes (label_in what.now) result }
{
    match what {
        TokenKind::Name(name) => Ok(Bytes::from_slice(alloc, name.as_slice())?),
        TokenKind::Text(text) => Ok(Bytes::from_slice(alloc, text.as_slice())?),
        _ => Err(Unread::Syntax),
    }
}

/// The prefix operator that this is.
#[tactic(auto, unfolding(oss_grammar::specs::Expressions::prefix_of))]
pub(crate) fn prefix(what: &TokenKind) -> Option<UnOp>
    ensures { result ≡ prefix_of what.now }
{
    if symbol_is(b"-", what) {
        Some(UnOp::Minus)
    } else if symbol_is(b"+", what) {
        Some(UnOp::Plus)
    } else if symbol_is(b"!", what) {
        Some(UnOp::Not)
    } else if symbol_is(b"~", what) {
        Some(UnOp::Invert)
    } else if symbol_is(b"*", what) {
        Some(UnOp::Deref)
    } else if symbol_is(b"&", what) {
        Some(UnOp::Address)
    } else {
        None
    }
}

/// The binary operator that this is, with its level.
#[tactic(auto, unfolding(oss_grammar::specs::Expressions::operator_of))]
pub(crate) fn operator(what: &TokenKind) -> Option<(u32, BinOp)>
    ensures { result ≡ operator_of what.now }
{
    if symbol_is(b"*", what) {
        Some((3, BinOp::Mul))
    } else if symbol_is(b"/", what) {
        Some((3, BinOp::Div))
    } else if symbol_is(b"%", what) {
        Some((3, BinOp::Rem))
    } else if symbol_is(b"+", what) {
        Some((4, BinOp::Add))
    } else if symbol_is(b"-", what) {
        Some((4, BinOp::Sub))
    } else if symbol_is(b"<<", what) {
        Some((5, BinOp::Left))
    } else if symbol_is(b">>", what) {
        Some((5, BinOp::Right))
    } else if symbol_is(b"<", what) {
        Some((6, BinOp::Less))
    } else if symbol_is(b"<=", what) {
        Some((6, BinOp::LessEqual))
    } else if symbol_is(b">", what) {
        Some((6, BinOp::More))
    } else if symbol_is(b">=", what) {
        Some((6, BinOp::MoreEqual))
    } else if symbol_is(b"==", what) {
        Some((7, BinOp::Equal))
    } else if symbol_is(b"!=", what) {
        Some((7, BinOp::Differ))
    } else if symbol_is(b"&", what) {
        Some((8, BinOp::And))
    } else if symbol_is(b"^", what) {
        Some((9, BinOp::Xor))
    } else if symbol_is(b"|", what) {
        Some((10, BinOp::Or))
    } else if symbol_is(b"&&", what) {
        Some((11, BinOp::AndAlso))
    } else if symbol_is(b"||", what) {
        Some((12, BinOp::OrElse))
    } else {
        None
    }
}

/// How a dependency with this word uses its cells, whether it is strong, and whether the word is `out` or `weakout`.
#[tactic(auto, unfolding(oss_grammar::specs::Pragmas::access_of))]
pub fn access(what: &TokenKind) -> Option<(Mode, bool, bool)>
    ensures { result ≡ access_of what.now }
{
    if word_is(b"in", what) {
        Some((Mode::Read, true, false))
    } else if word_is(b"out", what) {
        Some((Mode::Write, true, true))
    } else if word_is(b"inout", what) {
        Some((Mode::Write, true, false))
    } else if word_is(b"weakin", what) {
        Some((Mode::Read, false, false))
    } else if word_is(b"weakout", what) {
        Some((Mode::Write, false, true))
    } else if word_is(b"weakinout", what) {
        Some((Mode::Write, false, false))
    } else {
        None
    }
}

/// Whether a reduction with this word is strong.
#[tactic(auto, unfolding(oss_grammar::specs::Pragmas::reduction_of))]
pub fn reduction(what: &TokenKind) -> Option<bool>
    ensures { result ≡ reduction_of what.now }
{
    if word_is(b"reduction", what) {
        Some(true)
    } else if word_is(b"weakreduction", what) {
        Some(false)
    } else {
        None
    }
}

/// The operator of a reduction that this is.
#[tactic(auto, unfolding(oss_grammar::specs::Pragmas::fold_of))]
pub(crate) fn fold(what: &TokenKind) -> Option<Op>
    ensures { result ≡ fold_of what.now }
{
    if symbol_is(b"+", what) {
        Some(Op::Add)
    } else if symbol_is(b"&", what) {
        Some(Op::And)
    } else if symbol_is(b"|", what) {
        Some(Op::Or)
    } else if symbol_is(b"^", what) {
        Some(Op::Xor)
    } else {
        None
    }
}

/// Whether this is the word of such a clause.
pub fn once_is(once: Once, what: &TokenKind) -> bool
    ensures { result ≡ is_single_word (single_of once) what.now }
{
    match once {
        Once::If => keyword_is(b"if", what),
        Once::Final => word_is(b"final", what),
        Once::Wait => word_is(b"wait", what),
        Once::Label => word_is(b"label", what),
        Once::Priority => word_is(b"priority", what),
        Once::Grain => word_is(b"grainsize", what),
    }
}

/// Whether an expression begins with this token.
pub(crate) fn expression_begins(token: &Token) -> bool
    ensures { result ≡ begins_expression token.now }
{
    is_number(&token.what)
        || is_name(&token.what)
        || symbol_is(b"(", &token.what)
        || prefix(&token.what).is_some()
}
