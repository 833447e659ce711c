//! The reader of clauses.

ghost use Rattle.std.specs.Prelude.{◌≡◌};
ghost use Rattle.oss_syntax.specs.declared.tree.pragma.Clause.TheVariants as clauses;
ghost use Rattle.oss_grammar.specs.Pragmas.Single.{once_final, once_grain, once_if, once_priority};
ghost use Rattle.oss_grammar.specs.Reading.{begins, read_both, read_mapped, read_one};
ghost use Rattle.oss_expressions.specs.ExpressionReading.{latter, read_brackets, read_expression};
ghost use Rattle.oss_expressions.specs.Singles.{single_of, single_unless};
ghost use Rattle.oss_expressions.specs.Told.{ReadsAs};
ghost use Rattle.oss_pragma.specs.PragmaReading.{begins_single, counted_with, goes_on_with_clause, read_after_comma, read_all_clauses, read_clause, read_depend, read_folded, read_label, read_reduction, read_single, read_waiting};

use crate::found::Found;
use crate::sections::{bracketed_sections, sections};
use oss_expressions::reading::{
    Cursor, Once, TaskKind, Unread, access, brackets, reduction, symbol_is,
};
use oss_syntax::{Clause, Expr, List, Mode, Op, Section, Token};
use std::alloc::Global;

/// The word of an access, and its sections.
#[tactic(auto, unfolding(crate::specs::PragmaReading::read_depend))]
pub(crate) fn depend(alloc: Global, tokens: &mut Cursor<'_>) -> Result<Clause, Unread>
    ensures { ReadsAs (read_depend read_expression tokens.old) result tokens.new }
{
    let (mode, strong, fresh) = tokens.access()?;
    let sections = bracketed_sections(alloc, tokens)?;
    Ok(Clause::Depend(mode, strong, fresh, sections))
}

/// op ":" sections ")"
#[tactic(auto, unfolding(crate::specs::PragmaReading::read_folded))]
fn folded(alloc: Global, tokens: &mut Cursor<'_>) -> Result<(Op, List<Section>), Unread>
    ensures { ReadsAs (read_folded read_expression tokens.old) result tokens.new }
{
    let operator = tokens.fold()?;
    tokens.symbol(b":")?;
    let sections = sections(alloc, tokens)?;
    tokens.symbol(b")")?;
    Ok((operator, sections))
}

/// The word of a reduction, and "(" op ":" sections ")"
#[tactic(auto, unfolding(crate::specs::PragmaReading::read_reduction))]
fn fold_clause(alloc: Global, tokens: &mut Cursor<'_>) -> Result<Clause, Unread>
    ensures { ReadsAs (read_reduction read_expression tokens.old) result tokens.new }
{
    let strong = tokens.reduction()?;
    tokens.symbol(b"(")?;
    let (operator, sections) = folded(alloc, tokens)?;
    Ok(Clause::Depend(Mode::Fold(operator), strong, false, sections))
}

/// The word of a clause that stands once at most, where it does not stand already, and "(" expr ")"
fn once_expression(
    alloc: Global,
    once: Once,
    already: bool,
    tokens: &mut Cursor<'_>,
) -> Result<Expr, Unread>
    ensures { ReadsAs (read_mapped latter (read_both (read_one (single_unless already (single_of once)))
        (read_brackets read_expression)) tokens.old) result tokens.new }
{
    tokens.once(once, already)?;
    brackets(alloc, tokens)
}

/// "if" "(" expr ")"
#[tactic(auto, unfolding(crate::specs::PragmaReading::read_single))]
fn condition(
    alloc: Global,
    kind: TaskKind,
    found: &Found,
    tokens: &mut Cursor<'_>,
) -> Result<Clause, Unread>
    ensures { ReadsAs (read_single read_expression once_if (counted_with kind found.now) clauses.If tokens.old)
        result tokens.new }
{
    let condition = once_expression(alloc, Once::If, found.bars(kind, Once::If), tokens)?;
    Ok(Clause::If(condition))
}

/// "final" "(" expr ")"
#[tactic(auto, unfolding(crate::specs::PragmaReading::read_single))]
fn final_clause(
    alloc: Global,
    kind: TaskKind,
    found: &Found,
    tokens: &mut Cursor<'_>,
) -> Result<Clause, Unread>
    ensures { ReadsAs (read_single read_expression once_final (counted_with kind found.now) clauses.Final
        tokens.old) result tokens.new }
{
    let condition = once_expression(alloc, Once::Final, found.bars(kind, Once::Final), tokens)?;
    Ok(Clause::Final(condition))
}

/// "priority" "(" expr ")"
#[tactic(auto, unfolding(crate::specs::PragmaReading::read_single))]
fn priority(
    alloc: Global,
    kind: TaskKind,
    found: &Found,
    tokens: &mut Cursor<'_>,
) -> Result<Clause, Unread>
    ensures { ReadsAs (read_single read_expression once_priority (counted_with kind found.now) clauses.Priority
        tokens.old) result tokens.new }
{
    let priority = once_expression(
        alloc,
        Once::Priority,
        found.bars(kind, Once::Priority),
        tokens,
    )?;
    Ok(Clause::Priority(priority))
}

/// "grainsize" "(" expr ")"
#[tactic(auto, unfolding(crate::specs::PragmaReading::read_single))]
fn grain(
    alloc: Global,
    kind: TaskKind,
    found: &Found,
    tokens: &mut Cursor<'_>,
) -> Result<Clause, Unread>
    ensures { ReadsAs (read_single read_expression once_grain (counted_with kind found.now) clauses.Grain
        tokens.old) result tokens.new }
{
    let size = once_expression(alloc, Once::Grain, found.bars(kind, Once::Grain), tokens)?;
    Ok(Clause::Grain(size))
}

/// "wait"
#[tactic(auto, unfolding(crate::specs::PragmaReading::read_waiting))]
fn waiting(kind: TaskKind, found: &Found, tokens: &mut Cursor<'_>) -> Result<Clause, Unread>
    ensures { ReadsAs (read_waiting (counted_with kind found.now) tokens.old) result tokens.new }
{
    tokens.once(Once::Wait, found.bars(kind, Once::Wait))?;
    Ok(Clause::Wait)
}

/// "label" "(" ( name | string ) ")"
#[tactic(auto, unfolding(crate::specs::PragmaReading::read_label))]
fn label(
    alloc: Global,
    kind: TaskKind,
    found: &Found,
    tokens: &mut Cursor<'_>,
) -> Result<Clause, Unread>
    ensures { ReadsAs (read_label (counted_with kind found.now) tokens.old) result tokens.new }
{
    tokens.once(Once::Label, found.bars(kind, Once::Label))?;
    tokens.symbol(b"(")?;
    let label = tokens.label(alloc)?;
    tokens.symbol(b")")?;
    Ok(Clause::Label(label))
}

/// A clause of a task or of a task loop, behind those that were found.
#[tactic(auto, unfolding(crate::specs::PragmaReading::read_clause))]
fn clause(
    alloc: Global,
    kind: TaskKind,
    found: &Found,
    tokens: &mut Cursor<'_>,
) -> Result<Clause, Unread>
    ensures { ReadsAs (read_clause read_expression (counted_with kind found.now) tokens.old) result tokens.new }
{
    if tokens.begins_with_access() {
        return depend(alloc, tokens);
    }
    if tokens.begins_with_reduction() {
        return fold_clause(alloc, tokens);
    }
    if tokens.begins_with_once(Once::If, found.bars(kind, Once::If)) {
        return condition(alloc, kind, found, tokens);
    }
    if tokens.begins_with_once(Once::Final, found.bars(kind, Once::Final)) {
        return final_clause(alloc, kind, found, tokens);
    }
    if tokens.begins_with_once(Once::Wait, found.bars(kind, Once::Wait)) {
        return waiting(kind, found, tokens);
    }
    if tokens.begins_with_once(Once::Label, found.bars(kind, Once::Label)) {
        return label(alloc, kind, found, tokens);
    }
    if tokens.begins_with_once(Once::Priority, found.bars(kind, Once::Priority)) {
        return priority(alloc, kind, found, tokens);
    }
    grain(alloc, kind, found, tokens)
}

/// [ "," ] clause
fn next_clause(
    alloc: Global,
    kind: TaskKind,
    found: &Found,
    tokens: &mut Cursor<'_>,
) -> Result<Clause, Unread>
    ensures { ReadsAs (read_after_comma (read_clause read_expression (counted_with kind found.now)) tokens.old)
        result tokens.new }
{
    if tokens.begins_with_symbol(b",") {
        tokens.symbol(b",")?;
        return clause(alloc, kind, found, tokens);
    }
    clause(alloc, kind, found, tokens)
}

/// Whether a token begins a clause behind those that were found, or is a comma.
fn begins_clause(kind: TaskKind, found: &Found, token: &Token) -> bool
    ensures { result ≡ goes_on_with_clause (counted_with kind found.now) token.now }
{
    symbol_is(b",", &token.what)
        || access(&token.what).is_some()
        || reduction(&token.what).is_some()
        || begins_single(kind, found, token)
}

/// Whether a token begins a clause that stands once at most, and may still stand.
fn begins_single(kind: TaskKind, found: &Found, token: &Token) -> bool
    ensures { result ≡ begins_single (counted_with kind found.now) token.now }
{
    found.awaits(kind, Once::If, token)
        || found.awaits(kind, Once::Final, token)
        || found.awaits(kind, Once::Wait, token)
        || found.awaits(kind, Once::Label, token)
        || found.awaits(kind, Once::Priority, token)
        || found.awaits(kind, Once::Grain, token)
}

/// Whether the next token begins a clause behind those that were found, or is a comma.
fn goes_on(kind: TaskKind, found: &Found, tokens: &Cursor<'_>) -> bool
    ensures { result ≡ begins (goes_on_with_clause (counted_with kind found.now)) tokens.now }
{
    match tokens.left().first() {
        Some(token) => begins_clause(kind, found, token),
        None => false,
    }
}

/// { [ "," ] clause }
pub(crate) fn clauses(
    alloc: Global,
    kind: TaskKind,
    tokens: &mut Cursor<'_>,
) -> Result<List<Clause>, Unread>
    ensures { ReadsAs (read_all_clauses kind read_expression tokens.old) result tokens.new }
{
    let mut found = Found::new(alloc);
    'clauses: while goes_on(kind, &found, tokens) {
        let next = match next_clause(alloc, kind, &found, tokens) {
            Ok(next) => next,
            Err(unread) => return Err(unread),
        };
        found.push(next)?;
    }
    Ok(found.into_list())
}
