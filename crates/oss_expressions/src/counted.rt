//! A place in the tokens of one expression that shows a limited number of operators, so that reading stops
//! where an expression has too many, whatever stands behind.

ghost use Rattle.std.specs.Prelude.{◌≡◌, ◌↔◌, ◌∷◌, ◌++◌, [], IsTrue, MatchOption, drop};
ghost use Rattle.oss_grammar.specs.Reading.{begins, has, read_one};
ghost use Rattle.oss_grammar.specs.Levels.{is_operator};
ghost use Rattle.oss_expressions.specs.Sights.{Sight, sight_of};
ghost use Rattle.oss_expressions.specs.TokenValues.{begins_expression, name_at, number_at, operator_at, prefix_at, symbol_at};
ghost use Rattle.oss_expressions.specs.Told.{ReadsAs};

use crate::cursor::{Named, Unread};
use crate::kinds::{
    expression_begins, is_name, is_number, named, number, operator, prefix, symbol_is,
};
use oss_syntax::{BinOp, Expr, Token, UnOp};
use std::alloc::Global;
use std::marker::Model;

/// A place in the tokens of one expression: it shows no token behind the last operator of a number of them.
/// Contracts see the tokens that are shown and left, and those behind. A call that answers `Ok` has taken what
/// it read, and one that answers an error has taken nothing.
#[derive(Drop)]
pub(crate) struct Counted<'t> {
    left: &'t [Token],
    operators: u32,
}

impl<'t> Model for Counted<'t> {
    ghost use Rattle.oss_expressions.specs.Sights.{Sight, sight_of};

    ghost Value = { Sight };

    ghost view = { λ c. sight_of c.operators c.left.now };
}

impl<'t> Counted<'t> {
    /// The place before the first of these tokens, which are shown as far as this number of operators.
    pub(crate) fn new(tokens: &'t [Token], operators: u32) -> Counted<'t>
        ensures { result ≡ sight_of operators tokens.now }
    {
        Counted {
            left: tokens,
            operators,
        }
    }

    /// The tokens that are left, shown or not.
    pub(crate) fn left(&self) -> &'t [Token]
        ensures { result.now ≡ self.now.seen ++ self.now.behind }
    {
        self.left
    }

    /// Whether all tokens that are shown were taken.
    pub(crate) fn is_at_end(&self) -> bool
        ensures { IsTrue result ↔ (self.now.seen ≡ []) }
    {
        self.first().is_none()
    }

    /// The next token, and the place behind it.
    fn split(&self) -> Option<(&'t Token, Counted<'t>)>
        ensures { MatchOption result (self.now.seen ≡ []) (λ p. (self.now.seen ≡ p.0.now ∷ p.1.seen) ×
            (p.1.behind ≡ self.now.behind)) }
    {
        if self.operators == 0 {
            return None;
        }
        let Some((token, left)) = self.left.split_first() else {
            return None;
        };
        let operators = if counts(token) {
            self.operators - 1
        } else {
            self.operators
        };
        Some((token, Counted { left, operators }))
    }

    /// The next token; it stays.
    fn first(&self) -> Option<&'t Token>
        ensures { MatchOption result (self.now.seen ≡ []) (λ t. self.now.seen ≡ t.now ∷ drop 1 self.now.seen) }
    {
        if self.operators == 0 {
            return None;
        }
        self.left.first()
    }

    /// Takes this symbol, and answers its line.
    pub(crate) fn symbol(&mut self, symbol: &[u8]) -> Result<u32, Unread>
        ensures value { ReadsAs (read_one (symbol_at symbol.now) self.old.seen) result self.new.seen }
        ensures behind { self.new.behind ≡ self.old.behind }
    {
        let Some((token, rest)) = self.split() else {
            return Err(Unread::Syntax);
        };
        if !symbol_is(symbol, &token.what) {
            return Err(Unread::Syntax);
        }
        *self = rest;
        Ok(token.line)
    }

    /// Takes a name.
    pub(crate) fn name(&mut self, alloc: Global) -> Result<Named, Unread>
        ensures value { ReadsAs (read_one name_at self.old.seen) result self.new.seen }
        ensures behind { self.new.behind ≡ self.old.behind }
    {
        let Some((token, rest)) = self.split() else {
            return Err(Unread::Syntax);
        };
        let named = named(alloc, &token.what, token.line)?;
        *self = rest;
        Ok(named)
    }

    /// Takes a number.
    pub(crate) fn number(&mut self) -> Result<Expr, Unread>
        ensures value { ReadsAs (read_one number_at self.old.seen) result self.new.seen }
        ensures behind { self.new.behind ≡ self.old.behind }
    {
        let Some((token, rest)) = self.split() else {
            return Err(Unread::Syntax);
        };
        let Some(number) = number(&token.what, token.line) else {
            return Err(Unread::Syntax);
        };
        *self = rest;
        Ok(number)
    }

    /// Takes a prefix operator, and answers it with its line.
    pub(crate) fn prefix(&mut self) -> Result<(UnOp, u32), Unread>
        ensures value { ReadsAs (read_one prefix_at self.old.seen) result self.new.seen }
        ensures behind { self.new.behind ≡ self.old.behind }
    {
        let Some((token, rest)) = self.split() else {
            return Err(Unread::Syntax);
        };
        let Some(sign) = prefix(&token.what) else {
            return Err(Unread::Syntax);
        };
        *self = rest;
        Ok((sign, token.line))
    }

    /// Takes a binary operator of this level.
    pub(crate) fn operator(&mut self, level: u32) -> Result<BinOp, Unread>
        ensures value { ReadsAs (read_one (operator_at level) self.old.seen) result self.new.seen }
        ensures behind { self.new.behind ≡ self.old.behind }
    {
        let Some((token, rest)) = self.split() else {
            return Err(Unread::Syntax);
        };
        let Some(found) = operator_of_level(level, token) else {
            return Err(Unread::Syntax);
        };
        *self = rest;
        Ok(found)
    }

    /// Whether the next token is this symbol; it stays.
    pub(crate) fn begins_with_symbol(&self, symbol: &[u8]) -> bool
        ensures { result ≡ begins (has (symbol_at symbol.now)) self.now.seen }
    {
        match self.first() {
            Some(token) => symbol_is(symbol, &token.what),
            None => false,
        }
    }

    /// Whether the next token is a name; it stays.
    pub(crate) fn begins_with_name(&self) -> bool
        ensures { result ≡ begins (has name_at) self.now.seen }
    {
        match self.first() {
            Some(token) => is_name(&token.what),
            None => false,
        }
    }

    /// Whether the next token is a number; it stays.
    pub(crate) fn begins_with_number(&self) -> bool
        ensures { result ≡ begins (has number_at) self.now.seen }
    {
        match self.first() {
            Some(token) => is_number(&token.what),
            None => false,
        }
    }

    /// Whether the next token is a prefix operator; it stays.
    pub(crate) fn begins_with_prefix(&self) -> bool
        ensures { result ≡ begins (has prefix_at) self.now.seen }
    {
        match self.first() {
            Some(token) => prefix(&token.what).is_some(),
            None => false,
        }
    }

    /// Whether the next token is a binary operator of this level; it stays.
    pub(crate) fn begins_with_operator(&self, level: u32) -> bool
        ensures { result ≡ begins (has (operator_at level)) self.now.seen }
    {
        match self.first() {
            Some(token) => operator_of_level(level, token).is_some(),
            None => false,
        }
    }

    /// Whether an expression begins here.
    pub(crate) fn begins_with_expression(&self) -> bool
        ensures { result ≡ begins begins_expression self.now.seen }
    {
        match self.first() {
            Some(token) => expression_begins(token),
            None => false,
        }
    }
}

/// Whether a token is an operator, as a prefix or between two operands.
pub(crate) fn counts(token: &Token) -> bool
    ensures { result ≡ is_operator token.now }
{
    prefix(&token.what).is_some() || operator(&token.what).is_some()
}

/// The binary operator of this level that a token is.
fn operator_of_level(level: u32, token: &Token) -> Option<BinOp>
    ensures { result ≡ operator_at level token.now }
{
    match operator(&token.what) {
        Some((found, operator)) => { if found == level { Some(operator) } else { None } }
        None => None,
    }
}
