//! The reader of sections.

ghost use Rattle.std.specs.Prelude.{◌≡◌, codes};
ghost use Rattle.oss_grammar.specs.Pragmas.{form_of_inner};
ghost use Rattle.oss_grammar.specs.Reading.{read_both, read_mapped, read_one};
ghost use Rattle.oss_expressions.specs.ExpressionReading.{read_expression, latter, read_index, read_more, read_next};
ghost use Rattle.oss_expressions.specs.TokenValues.{name_at, symbol_at};
ghost use Rattle.oss_expressions.specs.Told.{ReadsAs};
ghost use Rattle.oss_pragma.specs.PragmaReading.{read_based, read_bounds, read_bracketed_sections, read_closed_turns, read_columns, read_dimension, read_indices, read_inner, read_inner_from, read_length, read_many, read_part, read_pointed, read_section, read_sections, read_shape, read_span, read_turns, read_upper};

use oss_expressions::reading::{Cursor, Named, Unread, expression};
use oss_syntax::{Expr, Form, Inner, Kind, List, Local, NumKind, Section, Turns};
use std::alloc::Global;

/// [ expr ], behind ":"
#[tactic(auto, unfolding(crate::specs::PragmaReading::read_upper))]
fn upper(alloc: Global, tokens: &mut Cursor<'_>) -> Result<Option<Expr>, Unread>
    ensures { ReadsAs (read_upper read_expression tokens.old) result tokens.new }
{
    if !tokens.begins_with_expression() {
        return Ok(None);
    }
    let last = expression(alloc, tokens)?;
    Ok(Some(last))
}

/// ":" [ expr ]
#[tactic(auto, unfolding(crate::specs::PragmaReading::read_span))]
fn span_end(alloc: Global, tokens: &mut Cursor<'_>) -> Result<Option<Expr>, Unread>
    ensures { ReadsAs (read_mapped latter (read_both (read_one (symbol_at (codes ":")))
        (read_upper read_expression)) tokens.old) result tokens.new }
{
    tokens.symbol(b":")?;
    upper(alloc, tokens)
}

/// ":" [ expr ], behind a lower end
#[tactic(auto, unfolding(crate::specs::PragmaReading::read_span))]
fn span(alloc: Global, first: Option<Expr>, tokens: &mut Cursor<'_>) -> Result<Inner, Unread>
    ensures { ReadsAs (read_span read_expression first tokens.old) result tokens.new }
{
    match span_end(alloc, tokens) {
        Ok(last) => Ok(Inner::Span(first, last)),
        Err(unread) => {
            drop(first);
            Err(unread)
        }
    }
}

/// ";" expr, behind a first place
#[tactic(auto, unfolding(crate::specs::PragmaReading::read_length))]
fn length(alloc: Global, first: Expr, tokens: &mut Cursor<'_>) -> Result<Inner, Unread>
    ensures { ReadsAs (read_length read_expression first tokens.old) result tokens.new }
{
    match turn_count(alloc, tokens) {
        Ok(count) => Ok(Inner::Length(first, count)),
        Err(unread) => {
            drop(first);
            Err(unread)
        }
    }
}

/// What stands behind the first expression between the brackets.
#[tactic(auto, unfolding(crate::specs::PragmaReading::read_inner_from))]
fn inner_from(alloc: Global, first: Expr, tokens: &mut Cursor<'_>) -> Result<Inner, Unread>
    ensures { ReadsAs (read_inner_from read_expression first tokens.old) result tokens.new }
{
    if tokens.begins_with_symbol(b";") {
        return length(alloc, first, tokens);
    }
    if tokens.begins_with_symbol(b":") {
        return span(alloc, Some(first), tokens);
    }
    Ok(Inner::Element(first))
}

/// expr | expr ";" expr | [ expr ] ":" [ expr ]
#[tactic(auto, unfolding(crate::specs::PragmaReading::read_inner))]
fn inner(alloc: Global, tokens: &mut Cursor<'_>) -> Result<Inner, Unread>
    ensures { ReadsAs (read_inner read_expression tokens.old) result tokens.new }
{
    if tokens.begins_with_symbol(b":") {
        return span(alloc, None, tokens);
    }
    let first = expression(alloc, tokens)?;
    inner_from(alloc, first, tokens)
}

/// "*" name
#[tactic(auto, unfolding(crate::specs::PragmaReading::read_pointed))]
fn pointed(alloc: Global, tokens: &mut Cursor<'_>) -> Result<Section, Unread>
    ensures { ReadsAs (read_pointed tokens.old) result tokens.new }
{
    let line = tokens.symbol(b"*")?;
    let base = tokens.name(alloc)?;
    Ok(Section {
        form: Form::Deref,
        line,
        base_line: base.line,
        base: base.name,
    })
}

/// "]" name
fn shaped(alloc: Global, tokens: &mut Cursor<'_>) -> Result<Named, Unread>
    ensures { ReadsAs (read_mapped latter (read_both (read_one (symbol_at (codes "]"))) (read_one name_at))
        tokens.old) result tokens.new }
{
    tokens.symbol(b"]")?;
    tokens.name(alloc)
}

/// "[" expr "]" name
#[tactic(auto, unfolding(crate::specs::PragmaReading::read_shape))]
fn shape(alloc: Global, tokens: &mut Cursor<'_>) -> Result<Section, Unread>
    ensures { ReadsAs (read_shape read_expression tokens.old) result tokens.new }
{
    let line = tokens.symbol(b"[")?;
    let count = expression(alloc, tokens)?;
    match shaped(alloc, tokens) {
        Ok(base) => Ok(Section {
            form: Form::Shape(count),
            line,
            base_line: base.line,
            base: base.name,
        }),
        Err(unread) => {
            drop(count);
            Err(unread)
        }
    }
}

/// "[" inner "]"
#[tactic(auto, unfolding(crate::specs::PragmaReading::read_dimension))]
fn dimension(alloc: Global, tokens: &mut Cursor<'_>) -> Result<Inner, Unread>
    ensures { ReadsAs (read_dimension read_expression tokens.old) result tokens.new }
{
    tokens.symbol(b"[")?;
    let inner = inner(alloc, tokens)?;
    match tokens.symbol(b"]") {
        Ok(_) => Ok(inner),
        Err(unread) => {
            drop(inner);
            Err(unread)
        }
    }
}

/// The form of a section with one such part.
fn form_of_one(cells: Inner) -> Form
    ensures { result ≡ form_of_inner cells }
{
    match cells {
        Inner::Element(at) => Form::Element(at),
        Inner::Length(first, count) => Form::Length(first, count),
        Inner::Span(first, last) => Form::Span(first, last),
    }
}

/// [ "[" inner "]" ], behind such a part
#[tactic(auto, unfolding(crate::specs::PragmaReading::read_columns))]
fn columns(alloc: Global, rows: Inner, tokens: &mut Cursor<'_>) -> Result<Form, Unread>
    ensures { ReadsAs (read_columns read_expression rows tokens.old) result tokens.new }
{
    if !tokens.begins_with_symbol(b"[") {
        return Ok(form_of_one(rows));
    }
    match dimension(alloc, tokens) {
        Ok(columns) => Ok(Form::Grid(rows, columns)),
        Err(unread) => {
            drop(rows);
            Err(unread)
        }
    }
}

/// "[" inner "]" [ "[" inner "]" ], behind a base
#[tactic(auto, unfolding(crate::specs::PragmaReading::read_part))]
fn part(alloc: Global, base: Named, tokens: &mut Cursor<'_>) -> Result<Section, Unread>
    ensures { ReadsAs (read_part read_expression base tokens.old) result tokens.new }
{
    let rows = dimension(alloc, tokens)?;
    let form = columns(alloc, rows, tokens)?;
    Ok(Section {
        form,
        line: base.line,
        base_line: base.line,
        base: base.name,
    })
}

/// name [ "[" inner "]" [ "[" inner "]" ] ]
#[tactic(auto, unfolding(crate::specs::PragmaReading::read_based))]
fn based(alloc: Global, tokens: &mut Cursor<'_>) -> Result<Section, Unread>
    ensures { ReadsAs (read_based read_expression tokens.old) result tokens.new }
{
    let base = tokens.name(alloc)?;
    if tokens.begins_with_symbol(b"[") {
        return part(alloc, base, tokens);
    }
    Ok(Section {
        form: Form::Whole,
        line: base.line,
        base_line: base.line,
        base: base.name,
    })
}

/// "[" expr "]"
#[tactic(auto, unfolding(oss_expressions::specs::ExpressionReading::read_index))]
fn index(alloc: Global, tokens: &mut Cursor<'_>) -> Result<Expr, Unread>
    ensures { ReadsAs (read_index read_expression tokens.old) result tokens.new }
{
    tokens.symbol(b"[")?;
    let at = expression(alloc, tokens)?;
    match tokens.symbol(b"]") {
        Ok(_) => Ok(at),
        Err(unread) => {
            drop(at);
            Err(unread)
        }
    }
}

/// "[" expr "]" [ "[" expr "]" ]
#[tactic(auto, unfolding(crate::specs::PragmaReading::read_indices))]
fn indices(alloc: Global, tokens: &mut Cursor<'_>) -> Result<(Expr, Option<Expr>), Unread>
    ensures { ReadsAs (read_indices read_expression tokens.old) result tokens.new }
{
    let first = index(alloc, tokens)?;
    if !tokens.begins_with_symbol(b"[") {
        return Ok((first, None));
    }
    match index(alloc, tokens) {
        Ok(second) => Ok((first, Some(second))),
        Err(unread) => {
            drop(first);
            Err(unread)
        }
    }
}

/// ";" expr
fn turn_count(alloc: Global, tokens: &mut Cursor<'_>) -> Result<Expr, Unread>
    ensures { ReadsAs (read_mapped latter (read_both (read_one (symbol_at (codes ";"))) read_expression)
        tokens.old) result tokens.new }
{
    tokens.symbol(b";")?;
    expression(alloc, tokens)
}

/// "=" expr ";" expr
#[tactic(auto, unfolding(crate::specs::PragmaReading::read_bounds))]
fn bounds(alloc: Global, tokens: &mut Cursor<'_>) -> Result<(Expr, Expr), Unread>
    ensures { ReadsAs (read_bounds read_expression tokens.old) result tokens.new }
{
    tokens.symbol(b"=")?;
    let first = expression(alloc, tokens)?;
    match turn_count(alloc, tokens) {
        Ok(count) => Ok((first, count)),
        Err(unread) => {
            drop(first);
            Err(unread)
        }
    }
}

/// name "=" expr ";" expr
#[tactic(auto, unfolding(crate::specs::PragmaReading::read_turns))]
fn turns(alloc: Global, tokens: &mut Cursor<'_>) -> Result<Turns, Unread>
    ensures { ReadsAs (read_turns read_expression tokens.old) result tokens.new }
{
    let variable = tokens.name(alloc)?;
    let (first, count) = bounds(alloc, tokens)?;
    Ok(Turns {
        variable: Local {
            name: variable.name,
            kind: Kind::Num(NumKind::Long),
            first: Some(first),
            line: variable.line,
        },
        count,
    })
}

/// "," turns "}"
#[tactic(auto, unfolding(crate::specs::PragmaReading::read_closed_turns))]
fn closed_turns(alloc: Global, tokens: &mut Cursor<'_>) -> Result<Turns, Unread>
    ensures { ReadsAs (read_closed_turns read_expression tokens.old) result tokens.new }
{
    tokens.symbol(b",")?;
    let turns = turns(alloc, tokens)?;
    match tokens.symbol(b"}") {
        Ok(_) => Ok(turns),
        Err(unread) => {
            drop(turns);
            Err(unread)
        }
    }
}

/// indices "," turns "}"
fn places(alloc: Global, tokens: &mut Cursor<'_>) -> Result<((Expr, Option<Expr>), Turns), Unread>
    ensures { ReadsAs (read_both (read_indices read_expression) (read_closed_turns read_expression) tokens.old)
        result tokens.new }
{
    let indices = indices(alloc, tokens)?;
    match closed_turns(alloc, tokens) {
        Ok(turns) => Ok((indices, turns)),
        Err(unread) => {
            drop(indices);
            Err(unread)
        }
    }
}

/// "{" name indices "," turns "}"
#[tactic(auto, unfolding(crate::specs::PragmaReading::read_many))]
fn many(alloc: Global, tokens: &mut Cursor<'_>) -> Result<Section, Unread>
    ensures { ReadsAs (read_many read_expression tokens.old) result tokens.new }
{
    let line = tokens.symbol(b"{")?;
    let base = tokens.name(alloc)?;
    let ((first, second), turns) = places(alloc, tokens)?;
    Ok(Section {
        form: Form::Many(first, second, turns),
        line,
        base_line: base.line,
        base: base.name,
    })
}

/// name | "*" name | "[" expr "]" name | name "[" inner "]" [ "[" inner "]" ] | "{" name indices "," turns "}"
#[tactic(auto, unfolding(crate::specs::PragmaReading::read_section))]
fn section(alloc: Global, tokens: &mut Cursor<'_>) -> Result<Section, Unread>
    ensures { ReadsAs (read_section read_expression tokens.old) result tokens.new }
{
    if tokens.begins_with_symbol(b"*") {
        return pointed(alloc, tokens);
    }
    if tokens.begins_with_symbol(b"[") {
        return shape(alloc, tokens);
    }
    if tokens.begins_with_symbol(b"{") {
        return many(alloc, tokens);
    }
    based(alloc, tokens)
}

/// "," section
fn next_section(alloc: Global, tokens: &mut Cursor<'_>) -> Result<Section, Unread>
    ensures { ReadsAs (read_next (read_section read_expression) tokens.old) result tokens.new }
{
    tokens.symbol(b",")?;
    section(alloc, tokens)
}

/// { "," section }, behind the sections that were found
fn more_sections(
    alloc: Global,
    mut found: List<Section>,
    tokens: &mut Cursor<'_>,
) -> Result<List<Section>, Unread>
    ensures { ReadsAs (read_more (read_section read_expression) found tokens.old) result tokens.new }
{
    'sections: while tokens.begins_with_symbol(b",") {
        let next = match next_section(alloc, tokens) {
            Ok(next) => next,
            Err(unread) => return Err(unread),
        };
        found.push(next)?;
    }
    Ok(found)
}

/// section { "," section }
#[tactic(auto, unfolding(crate::specs::PragmaReading::read_sections))]
pub(crate) fn sections(alloc: Global, tokens: &mut Cursor<'_>) -> Result<List<Section>, Unread>
    ensures { ReadsAs (read_sections read_expression tokens.old) result tokens.new }
{
    let first = section(alloc, tokens)?;
    let mut found = List::new(alloc);
    found.push(first)?;
    more_sections(alloc, found, tokens)
}

/// "(" sections ")"
#[tactic(auto, unfolding(crate::specs::PragmaReading::read_bracketed_sections))]
pub(crate) fn bracketed_sections(
    alloc: Global,
    tokens: &mut Cursor<'_>,
) -> Result<List<Section>, Unread>
    ensures { ReadsAs (read_bracketed_sections read_expression tokens.old) result tokens.new }
{
    tokens.symbol(b"(")?;
    let sections = sections(alloc, tokens)?;
    match tokens.symbol(b")") {
        Ok(_) => Ok(sections),
        Err(unread) => {
            drop(sections);
            Err(unread)
        }
    }
}
