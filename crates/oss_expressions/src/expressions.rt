//! The reader of expressions.

ghost use Rattle.std.specs.Prelude.{◌≡◌, ◌≤◌, IfOk};
ghost use Rattle.oss_expressions.specs.ExpressionReading.{indexed, joined_to, prefixed_by, read_arguments, read_brackets, read_call, read_index, read_list, read_more, read_named, read_next, read_operation, read_operations, read_postfix, read_primary, read_second_index, read_unary, read_whole};
ghost use Rattle.oss_expressions.specs.Operands.{read_above, read_operand};
ghost use Rattle.oss_expressions.specs.Told.{ReadsAs};

use crate::counted::Counted;
use crate::cursor::{Named, Unread};
use oss_syntax::{BinOp, Boxed, Expr, ExprKind, List, UnOp};
use std::alloc::{AllocError, Global};

/// How many levels of binary operators there are.
const BINARY_LEVELS: u32 = 10;

/// [ expr { "," expr } ] ")", where the expressions have so many levels
#[cycle(expression)]
#[tactic(auto, unfolding(crate::specs::ExpressionReading::read_arguments))]
fn arguments(alloc: Global, levels: u32, tokens: &mut Counted<'_>) -> Result<List<Expr>, Unread>
    ensures value { ReadsAs (read_arguments (read_whole levels) tokens.old.seen) result tokens.new.seen }
    ensures behind { tokens.new.behind ≡ tokens.old.behind }
{
    if tokens.begins_with_symbol(b")") {
        tokens.symbol(b")")?;
        return Ok(List::new(alloc));
    }
    let values = values(alloc, levels, tokens)?;
    tokens.symbol(b")")?;
    Ok(values)
}

/// expr { "," expr }
#[cycle(expression)]
fn values(alloc: Global, levels: u32, tokens: &mut Counted<'_>) -> Result<List<Expr>, Unread>
    ensures value { ReadsAs (read_list (read_whole levels) tokens.old.seen) result tokens.new.seen }
    ensures behind { tokens.new.behind ≡ tokens.old.behind }
{
    let first = whole(alloc, levels, tokens)?;
    let mut found = List::new(alloc);
    found.push(first)?;
    more_values(alloc, levels, found, tokens)
}

/// { "," expr }, behind the expressions that were found
#[cycle(expression)]
fn more_values(
    alloc: Global,
    levels: u32,
    mut found: List<Expr>,
    tokens: &mut Counted<'_>,
) -> Result<List<Expr>, Unread>
    ensures value { ReadsAs (read_more (read_whole levels) found tokens.old.seen) result tokens.new.seen }
    ensures behind { tokens.new.behind ≡ tokens.old.behind }
{
    'values: while tokens.begins_with_symbol(b",") {
        let next = match next_value(alloc, levels, tokens) {
            Ok(next) => next,
            Err(unread) => return Err(unread),
        };
        found.push(next)?;
    }
    Ok(found)
}

/// "," expr
#[cycle(expression)]
fn next_value(alloc: Global, levels: u32, tokens: &mut Counted<'_>) -> Result<Expr, Unread>
    ensures value { ReadsAs (read_next (read_whole levels) tokens.old.seen) result tokens.new.seen }
    ensures behind { tokens.new.behind ≡ tokens.old.behind }
{
    tokens.symbol(b",")?;
    whole(alloc, levels, tokens)
}

/// "(" arguments, behind the name of a function
#[cycle(expression)]
#[tactic(auto, unfolding(crate::specs::ExpressionReading::read_call))]
fn call(alloc: Global, levels: u32, name: Named, tokens: &mut Counted<'_>) -> Result<Expr, Unread>
    ensures value { ReadsAs (read_call (read_whole levels) name tokens.old.seen) result tokens.new.seen }
    ensures behind { tokens.new.behind ≡ tokens.old.behind }
{
    tokens.symbol(b"(")?;
    let values = arguments(alloc, levels, tokens)?;
    Ok(Expr {
        what: ExprKind::Call(name.name, values),
        line: name.line,
    })
}

/// name [ call ]
#[cycle(expression)]
#[tactic(auto, unfolding(crate::specs::ExpressionReading::read_named))]
fn named(alloc: Global, levels: u32, tokens: &mut Counted<'_>) -> Result<Expr, Unread>
    ensures value { ReadsAs (read_named (read_whole levels) tokens.old.seen) result tokens.new.seen }
    ensures behind { tokens.new.behind ≡ tokens.old.behind }
{
    let name = tokens.name(alloc)?;
    if tokens.begins_with_symbol(b"(") {
        return call(alloc, levels, name, tokens);
    }
    Ok(Expr {
        what: ExprKind::Name(name.name),
        line: name.line,
    })
}

/// "(" expr ")"
#[cycle(expression)]
#[tactic(auto, unfolding(crate::specs::ExpressionReading::read_brackets))]
fn brackets(alloc: Global, levels: u32, tokens: &mut Counted<'_>) -> Result<Expr, Unread>
    ensures value { ReadsAs (read_brackets (read_whole levels) tokens.old.seen) result tokens.new.seen }
    ensures behind { tokens.new.behind ≡ tokens.old.behind }
{
    tokens.symbol(b"(")?;
    let inner = whole(alloc, levels, tokens)?;
    match tokens.symbol(b")") {
        Ok(_) => Ok(inner),
        Err(unread) => {
            drop(inner);
            Err(unread)
        }
    }
}

/// number | name [ call ] | "(" expr ")"
#[cycle(expression)]
#[tactic(auto, unfolding(crate::specs::ExpressionReading::read_primary))]
fn primary(alloc: Global, levels: u32, tokens: &mut Counted<'_>) -> Result<Expr, Unread>
    ensures value { ReadsAs (read_primary (read_whole levels) tokens.old.seen) result tokens.new.seen }
    ensures behind { tokens.new.behind ≡ tokens.old.behind }
{
    if tokens.begins_with_number() {
        return tokens.number();
    }
    if tokens.begins_with_name() {
        return named(alloc, levels, tokens);
    }
    brackets(alloc, levels, tokens)
}

/// "[" expr "]"
#[cycle(expression)]
#[tactic(auto, unfolding(crate::specs::ExpressionReading::read_index))]
fn index(alloc: Global, levels: u32, tokens: &mut Counted<'_>) -> Result<Expr, Unread>
    ensures value { ReadsAs (read_index (read_whole levels) tokens.old.seen) result tokens.new.seen }
    ensures behind { tokens.new.behind ≡ tokens.old.behind }
{
    tokens.symbol(b"[")?;
    let inner = whole(alloc, levels, tokens)?;
    match tokens.symbol(b"]") {
        Ok(_) => Ok(inner),
        Err(unread) => {
            drop(inner);
            Err(unread)
        }
    }
}

/// [ "[" expr "]" ], behind an index
#[cycle(expression)]
#[tactic(auto, unfolding(crate::specs::ExpressionReading::read_second_index))]
fn second_index(
    alloc: Global,
    levels: u32,
    row: Expr,
    tokens: &mut Counted<'_>,
) -> Result<Expr, Unread>
    ensures value { ReadsAs (read_second_index (read_whole levels) row tokens.old.seen) result tokens.new.seen }
    ensures behind { tokens.new.behind ≡ tokens.old.behind }
{
    if !tokens.begins_with_symbol(b"[") {
        return Ok(row);
    }
    match index(alloc, levels, tokens) {
        Ok(at) => Ok(element(alloc, row, at)?),
        Err(unread) => {
            drop(row);
            Err(unread)
        }
    }
}

/// primary [ "[" expr "]" [ "[" expr "]" ] ]
#[cycle(expression)]
#[tactic(auto, unfolding(crate::specs::ExpressionReading::read_postfix))]
fn postfix(alloc: Global, levels: u32, tokens: &mut Counted<'_>) -> Result<Expr, Unread>
    ensures value { ReadsAs (read_postfix (read_whole levels) tokens.old.seen) result tokens.new.seen }
    ensures behind { tokens.new.behind ≡ tokens.old.behind }
{
    let base = primary(alloc, levels, tokens)?;
    if !tokens.begins_with_symbol(b"[") {
        return Ok(base);
    }
    match index(alloc, levels, tokens) {
        Ok(at) => {
            let row = element(alloc, base, at)?;
            second_index(alloc, levels, row, tokens)
        }
        Err(unread) => {
            drop(base);
            Err(unread)
        }
    }
}

/// The element of an array at a place; `Err` only for want of memory.
pub fn element(alloc: Global, base: Expr, at: Expr) -> Result<Expr, AllocError>
    ensures { IfOk result (λ element. element ≡ indexed base at) }
{
    let line = base.line;
    Ok(Expr {
        what: ExprKind::Index(Boxed::new(alloc, base)?, Boxed::new(alloc, at)?),
        line,
    })
}

/// prefix unary | postfix
#[cycle(expression)]
#[tactic(auto, unfolding(crate::specs::ExpressionReading::read_prefixed))]
fn operand(alloc: Global, levels: u32, tokens: &mut Counted<'_>) -> Result<Expr, Unread>
    ensures value { ReadsAs (read_operand levels tokens.old.seen) result tokens.new.seen }
    ensures behind { tokens.new.behind ≡ tokens.old.behind }
{
    if !tokens.begins_with_prefix() {
        return postfix(alloc, levels, tokens);
    }
    let sign = tokens.prefix()?;
    let behind = unary(alloc, levels, tokens)?;
    Ok(signed(alloc, sign, behind)?)
}

/// An operand with a prefix, which stands on a line.
fn signed(alloc: Global, sign: (UnOp, u32), operand: Expr) -> Result<Expr, AllocError>
    ensures { IfOk result (λ signed. signed ≡ prefixed_by (sign, operand)) }
{
    let (sign, line) = sign;
    Ok(Expr {
        what: ExprKind::Unary(sign, Boxed::new(alloc, operand)?),
        line,
    })
}

/// An operator of a level, and its right side, which has so many levels of binary operators.
#[cycle(expression)]
#[tactic(auto, unfolding(crate::specs::ExpressionReading::read_operation))]
fn operation(
    alloc: Global,
    levels: u32,
    more: u32,
    level: u32,
    tokens: &mut Counted<'_>,
) -> Result<(BinOp, Expr), Unread>
    requires { more ≤ 9 }
    ensures value { ReadsAs (read_operation level (read_above more levels) tokens.old.seen) result tokens.new.seen }
    ensures behind { tokens.new.behind ≡ tokens.old.behind }
{
    let operator = tokens.operator(level)?;
    let right = above(alloc, levels, more, tokens)?;
    Ok((operator, right))
}

/// Operations of a level behind a left side, from left to right.
#[cycle(expression)]
fn operations(
    alloc: Global,
    levels: u32,
    more: u32,
    level: u32,
    left: Expr,
    tokens: &mut Counted<'_>,
) -> Result<Expr, Unread>
    requires { more ≤ 9 }
    ensures value { ReadsAs (read_operations level (read_above more levels) left tokens.old.seen) result
        tokens.new.seen }
    ensures behind { tokens.new.behind ≡ tokens.old.behind }
{
    let mut value = left;
    'operations: while tokens.begins_with_operator(level) {
        let (operator, right) = match operation(alloc, levels, more, level, tokens) {
            Ok(operation) => operation,
            Err(unread) => {
                drop(value);
                return Err(unread);
            }
        };
        value = joined(alloc, value, operator, right)?;
    }
    Ok(value)
}

/// Two sides that an operator joins.
fn joined(alloc: Global, left: Expr, operator: BinOp, right: Expr) -> Result<Expr, AllocError>
    ensures { IfOk result (λ joined. joined ≡ joined_to left (operator, right)) }
{
    let line = left.line;
    Ok(Expr {
        what: ExprKind::Binary(
            operator,
            Boxed::new(alloc, left)?,
            Boxed::new(alloc, right)?,
        ),
        line,
    })
}

/// The binary operators of so many levels, from the tightest on.
#[cycle(expression)]
fn above(alloc: Global, levels: u32, more: u32, tokens: &mut Counted<'_>) -> Result<Expr, Unread>
    requires { more ≤ 10 }
    ensures value { ReadsAs (read_above more levels tokens.old.seen) result tokens.new.seen }
    ensures behind { tokens.new.behind ≡ tokens.old.behind }
{
    if more == 0 {
        return operand(alloc, levels, tokens);
    }
    let left = match above(alloc, levels, more - 1, tokens) {
        Ok(left) => left,
        Err(unread) => return Err(unread),
    };
    operations(alloc, levels, more - 1, more + 2, left, tokens)
}

/// What stands behind a prefix, with so many levels.
#[cycle(expression)]
fn unary(alloc: Global, levels: u32, tokens: &mut Counted<'_>) -> Result<Expr, Unread>
    ensures value { ReadsAs (read_unary levels tokens.old.seen) result tokens.new.seen }
    ensures behind { tokens.new.behind ≡ tokens.old.behind }
{
    if levels == 0 {
        return if tokens.begins_with_expression() {
            Err(Unread::Deep)
        } else {
            Err(Unread::Syntax)
        };
    }
    operand(alloc, levels - 1, tokens)
}

/// A whole expression, with so many levels.
#[cycle(expression)]
pub(crate) fn whole(alloc: Global, levels: u32, tokens: &mut Counted<'_>) -> Result<Expr, Unread>
    ensures value { ReadsAs (read_whole levels tokens.old.seen) result tokens.new.seen }
    ensures behind { tokens.new.behind ≡ tokens.old.behind }
{
    if levels == 0 {
        return if tokens.begins_with_expression() {
            Err(Unread::Deep)
        } else {
            Err(Unread::Syntax)
        };
    }
    above(alloc, levels - 1, BINARY_LEVELS, tokens)
}
