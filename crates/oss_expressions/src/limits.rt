//! The reader of an expression with at most so many levels and operators.

ghost use Rattle.std.specs.Prelude.{◌≡◌, ◌≤◌, true, false, MatchOption};
ghost use Rattle.oss_grammar.specs.Reading.{from_count, passed, read_counted};
ghost use Rattle.oss_grammar.specs.Levels.{is_operator};
ghost use Rattle.oss_expressions.specs.ExpressionReading.{read_brackets, read_expression, read_whole};
ghost use Rattle.oss_expressions.specs.Told.{ReadsAs};

use crate::counted::{Counted, counts};
use crate::cursor::{Cursor, Unread};
use crate::expressions::whole;
use oss_syntax::{Expr, Token};
use std::alloc::Global;

/// How many levels an expression may have.
const MOST_LEVELS: u32 = 64;

/// How many operators an expression may have.
const MOST_OPERATORS: u32 = 256;

/// expr, with at most 64 levels and 256 operators
pub fn expression(alloc: Global, tokens: &mut Cursor<'_>) -> Result<Expr, Unread>
    ensures { ReadsAs (read_expression tokens.old) result tokens.new }
{
    counted(alloc, MOST_LEVELS, MOST_OPERATORS, tokens)
}

/// "(" expr ")"
#[tactic(auto, unfolding(crate::specs::ExpressionReading::read_brackets))]
pub fn brackets(alloc: Global, tokens: &mut Cursor<'_>) -> Result<Expr, Unread>
    ensures { ReadsAs (read_brackets read_expression tokens.old) result tokens.new }
{
    tokens.symbol(b"(")?;
    let inner = expression(alloc, tokens)?;
    match tokens.symbol(b")") {
        Ok(_) => Ok(inner),
        Err(unread) => {
            drop(inner);
            Err(unread)
        }
    }
}

/// expr, with at most so many levels and operators
fn counted(
    alloc: Global,
    levels: u32,
    operators: u32,
    tokens: &mut Cursor<'_>,
) -> Result<Expr, Unread>
    requires { operators ≤ 1000 }
    ensures { ReadsAs (read_counted is_operator operators (read_whole levels) tokens.old) result tokens.new }
{
    let all = tokens.left();
    let mut seen = Counted::new(all, operators + 1);
    match whole(alloc, levels, &mut seen) {
        Ok(value) => {
            if let Some(place) = over(operators, all, &seen) {
                tokens.go_to(place);
                drop(value);
                return Err(Unread::Deep);
            }
            tokens.go_to(seen.left());
            Ok(value)
        }
        Err(Unread::Syntax) => {
            if let Some(place) = over(operators, all, &seen) {
                tokens.go_to(place);
                return Err(Unread::Deep);
            }
            tokens.go_to(seen.left());
            Err(Unread::Syntax)
        }
        Err(Unread::Deep) => {
            tokens.go_to(seen.left());
            Err(Unread::Deep)
        }
        Err(Unread::Memory(e)) => Err(Unread::Memory(e)),
    }
}

/// Where all tokens that are shown were taken, and the last of them is one operator too many: the tokens from
/// that one on.
fn over<'t>(operators: u32, all: &'t [Token], seen: &Counted<'t>) -> Option<&'t [Token]>
    ensures { MatchOption result (passed is_operator operators all.now seen.now.seen ≡ false) (λ place.
        (passed is_operator operators all.now seen.now.seen ≡ true) ×
        (place.now ≡ from_count is_operator operators all.now)) }
{
    if !seen.is_at_end() {
        return None;
    }
    let place = excess(operators, all);
    if place.is_empty() {
        return None;
    }
    Some(place)
}

/// The tokens from the operator on behind which so many operators are passed.
fn excess(operators: u32, tokens: &[Token]) -> &[Token]
    ensures { result.now ≡ from_count is_operator operators tokens.now }
{
    let mut allowed = operators;
    let mut left = tokens;
    'tokens: while let Some((token, rest)) = left.split_first() {
        if !counts(token) {
            left = rest;
            continue 'tokens;
        }
        if allowed == 0 {
            return left;
        }
        allowed -= 1;
        left = rest;
    }
    left
}
