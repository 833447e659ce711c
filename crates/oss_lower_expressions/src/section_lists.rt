//! The instructions of array sections.
ghost use Rattle.std.specs.Prelude.{◌≡◌, ◌∷◌, ◌++◌, ◌+◌, [], IfOk, OnOk, length, map, is_some};
ghost use Rattle.oss_meaning.specs.Sections.{inner_operands, operands_in, optional};
ghost use Rattle.oss_lower_laws.specs.ExpressionCode.{arguments_code, expr_code};
ghost use Rattle.oss_lower_laws.specs.SectionCode.{base_code, form_code, inner_code, many_code, optional_code, section_code, sections_code, turn_code};

use crate::expressions::value;
use crate::listing::{Jump, Listing};
use crate::numbers::{deeper, narrow};
use crate::site::Site;
use oss_code::{Declared, Indices, Instr, PartForm, SectionBase, SectionForm};
use oss_meaning::Found;
use oss_syntax::{Expr, Form, Inner, Section, Turns};
use std::alloc::AllocError;

/// What a section is over, its name standing for this.
fn base_of(found: Found) -> SectionBase
    ensures { result ≡ base_code found }
{
    match found {
        Found::Scalar(global, _) => SectionBase::Global(global),
        Found::Array(global, _) => SectionBase::Global(global),
        Found::Grid(global, _) => SectionBase::Global(global),
        Found::Variable(slot, _) => SectionBase::Pointer(slot),
        _ => SectionBase::Nothing,
    }
}

/// How a span names a part of one dimension.
fn span_form(lower: &Option<Expr>, upper: &Option<Expr>) -> PartForm
    ensures { result ≡ PartForm.Span (is_some lower.now) (is_some upper.now) }
{
    PartForm::Span {
        lower: lower.is_some(),
        upper: upper.is_some(),
    }
}

/// How a section names a part of one dimension.
fn part_form(inner: &Inner) -> PartForm
    ensures { result ≡ inner_code inner.now }
{
    match inner {
        Inner::Element(_) => PartForm::Element,
        Inner::Length(_, _) => PartForm::Length,
        Inner::Span(lower, upper) => span_form(lower, upper),
    }
}

/// How a section that is no multidependency names its cells.
fn section_form(form: &Form) -> SectionForm
    ensures { result ≡ form_code form.now }
{
    match form {
        Form::Whole => SectionForm::Whole,
        Form::Deref => SectionForm::Deref,
        Form::Shape(_) => SectionForm::Shape,
        Form::Element(_) => SectionForm::Line(PartForm::Element),
        Form::Length(_, _) => SectionForm::Line(PartForm::Length),
        Form::Span(lower, upper) => SectionForm::Line(span_form(lower, upper)),
        Form::Grid(rows, columns) => SectionForm::Grid(part_form(rows), part_form(columns)),
        Form::Many(_, _, _) => SectionForm::Whole,
    }
}

/// Writes an expression of a section, and tells how many values there are behind it.
fn operand(
    site: &Site<'_, '_>,
    out: &mut Listing,
    depth: u32,
    expr: &Expr,
) -> Result<u32, AllocError>
    ensures above { IfOk result (λ above. above ≡ depth + 1) }
    ensures code { OnOk result (out.new ≡ out.old ++
        (expr_code site.now.names.now site.now.scope.now expr.now).value site.now.line depth) }
{
    value(site, out, depth, expr)?;
    deeper(depth, 1)
}

/// Writes two expressions of a section.
fn two_operands(
    site: &Site<'_, '_>,
    out: &mut Listing,
    depth: u32,
    first: &Expr,
    second: &Expr,
) -> Result<u32, AllocError>
    ensures above { IfOk result (λ above. above ≡ depth + 2) }
    ensures code { OnOk result (out.new ≡ out.old ++
        ((expr_code site.now.names.now site.now.scope.now first.now).value site.now.line depth ++
        (expr_code site.now.names.now site.now.scope.now second.now).value site.now.line (depth + 1))) }
{
    let above = operand(site, out, depth, first)?;
    operand(site, out, above, second)
}

/// Writes an expression of a section that may be left out.
fn optional_operand(
    site: &Site<'_, '_>,
    out: &mut Listing,
    depth: u32,
    expr: &Option<Expr>,
) -> Result<u32, AllocError>
    ensures above { IfOk result (λ above. above ≡ depth + length (optional expr.now)) }
    ensures code { OnOk result (out.new ≡ out.old ++ arguments_code
        (map (expr_code site.now.names.now site.now.scope.now) (optional expr.now)) site.now.line depth) }
{
    match expr {
        Some(expr) => operand(site, out, depth, expr),
        None => Ok(depth),
    }
}

/// Writes the ends of a span that are written.
#[tactic(auto, using(crate::proofs::OperandLemmas::operands))]
fn span_operands(
    site: &Site<'_, '_>,
    out: &mut Listing,
    depth: u32,
    lower: &Option<Expr>,
    upper: &Option<Expr>,
) -> Result<u32, AllocError>
    ensures above { IfOk result (λ above. above ≡ depth + length (optional lower.now ++ optional upper.now)) }
    ensures code { OnOk result (out.new ≡ out.old ++ arguments_code
        (map (expr_code site.now.names.now site.now.scope.now) (optional lower.now ++ optional upper.now))
        site.now.line depth) }
{
    let above = optional_operand(site, out, depth, lower)?;
    optional_operand(site, out, above, upper)
}

/// Writes the expressions of one dimension of a section.
fn part_operands(
    site: &Site<'_, '_>,
    out: &mut Listing,
    depth: u32,
    inner: &Inner,
) -> Result<u32, AllocError>
    ensures above { IfOk result (λ above. above ≡ depth + length (inner_operands inner.now)) }
    ensures code { OnOk result (out.new ≡ out.old ++ arguments_code
        (map (expr_code site.now.names.now site.now.scope.now) (inner_operands inner.now)) site.now.line depth) }
{
    match inner {
        Inner::Element(place) => operand(site, out, depth, place),
        Inner::Length(from, count) => two_operands(site, out, depth, from, count),
        Inner::Span(lower, upper) => span_operands(site, out, depth, lower, upper),
    }
}

/// Writes the expressions of both dimensions of a section.
#[tactic(auto, using(crate::proofs::OperandLemmas::operands))]
fn grid_operands(
    site: &Site<'_, '_>,
    out: &mut Listing,
    rows: &Inner,
    columns: &Inner,
) -> Result<u32, AllocError>
    ensures above { IfOk result (λ above. above ≡ length (inner_operands rows.now ++ inner_operands columns.now)) }
    ensures code { OnOk result (out.new ≡ out.old ++ arguments_code
        (map (expr_code site.now.names.now site.now.scope.now) (inner_operands rows.now ++
        inner_operands columns.now)) site.now.line 0) }
{
    let above = part_operands(site, out, 0, rows)?;
    part_operands(site, out, above, columns)
}

/// Writes the expressions of a section that is no multidependency, in text order, and tells how many they are.
fn operands(site: &Site<'_, '_>, out: &mut Listing, form: &Form) -> Result<u32, AllocError>
    ensures above { IfOk result (λ above. above ≡ length (operands_in form.now)) }
    ensures code { OnOk result (out.new ≡ out.old ++ arguments_code
        (map (expr_code site.now.names.now site.now.scope.now) (operands_in form.now)) site.now.line 0) }
{
    match form {
        Form::Whole => Ok(0),
        Form::Deref => Ok(0),
        Form::Shape(count) => operand(site, out, 0, count),
        Form::Element(place) => operand(site, out, 0, place),
        Form::Length(from, count) => two_operands(site, out, 0, from, count),
        Form::Span(lower, upper) => span_operands(site, out, 0, lower, upper),
        Form::Grid(rows, columns) => grid_operands(site, out, rows, columns),
        Form::Many(_, _, _) => Ok(0),
    }
}

/// Writes the value of an expression that may be left out: 0.
pub fn optional_value(
    site: &Site<'_, '_>,
    out: &mut Listing,
    expr: &Option<Expr>,
) -> Result<(), AllocError>
    ensures { OnOk result (out.new ≡ out.old ++ optional_code site.now.names.now site.now.scope.now expr.now
        site.now.line) }
{
    match expr {
        Some(expr) => {
            value(site, out, 0, expr)?;
            Ok(())
        }
        None => out.push(Instr::Push(0), site.line, 0),
    }
}

/// Writes the indices of a turn, and the instruction that adds the cells that they name.
fn turn(
    site: &Site<'_, '_>,
    out: &mut Listing,
    base: SectionBase,
    index: &Expr,
    second: &Option<Expr>,
) -> Result<(), AllocError>
    ensures { OnOk result (out.new ≡ out.old ++ turn_code site.now.names.now site.now.scope.now base index.now
        second.now site.now.line) }
{
    value(site, out, 0, index)?;
    match second {
        None => out.push(Instr::Turn(base, Indices::One), site.line, 1),
        Some(second) => {
            value(site, out, 1, second)?;
            out.push(Instr::Turn(base, Indices::Two), site.line, 2)
        }
    }
}

/// Writes a multidependency: the first value of its variable, the number of its turns, a turn, and what leads
/// to the next one.
fn many<'p>(
    site: &Site<'_, 'p>,
    out: &mut Listing,
    declared: Declared,
    base: SectionBase,
    index: &Expr,
    second: &Option<Expr>,
    turns: &'p Turns,
) -> Result<(), AllocError>
    ensures { OnOk result (out.new ≡ out.old ++ many_code site.now.names.now site.now.scope.now declared base
        index.now second.now turns.now site.now.line) }
{
    optional_value(site, out, &turns.variable.first)?;
    value(site, out, 1, &turns.count)?;
    let begin = out.len();
    out.push(Instr::Turns(0), site.line, 2)?;
    let length = all_turns(site, out, base, index, second, turns)?;
    out.fill(begin, Jump::NoTurn, 1)?;
    out.push(Instr::NextTurn(length), site.line, 0)?;
    out.push(Instr::EndTurns(declared), site.line, 0)
}

/// Writes a turn, in which the variable of its multidependency is in scope, and tells how many instructions it has.
fn all_turns<'p>(
    site: &Site<'_, 'p>,
    out: &mut Listing,
    base: SectionBase,
    index: &Expr,
    second: &Option<Expr>,
    turns: &'p Turns,
) -> Result<u32, AllocError>
    ensures length { IfOk result (λ count. count ≡ length (turn_code site.now.names.now (site.now.scope.now ++
        turns.now.variable ∷ []) base index.now second.now site.now.line)) }
    ensures code { OnOk result (out.new ≡ out.old ++ turn_code site.now.names.now (site.now.scope.now ++
        turns.now.variable ∷ []) base index.now second.now site.now.line) }
{
    let scope = site.scope.with(&turns.variable)?;
    let inside = Site {
        names: site.names,
        scope: &scope,
        line: site.line,
    };
    let before = out.len();
    turn(&inside, out, base, index, second)?;
    narrow(out.len() - before)
}

/// Writes a section: a multidependency makes turns, and each other form is one instruction behind its expressions.
fn section<'p>(
    site: &Site<'_, 'p>,
    out: &mut Listing,
    declared: Declared,
    one: &'p Section,
) -> Result<(), AllocError>
    ensures { OnOk result (out.new ≡ out.old ++ section_code site.now.names.now site.now.scope.now declared
        one.now site.now.line) }
{
    let base = base_of(site.names.named(site.scope, one.base.as_slice()));
    match &one.form {
        Form::Many(index, second, turns) => {
            many(site, out, declared, base, index, second, turns)
        }
        form => {
            let depth = operands(site, out, form)?;
            let what = Instr::Section(base, section_form(form), declared);
            out.push(what, site.line, depth)
        }
    }
}

/// Writes sections in text order.
pub fn sections<'p>(
    site: &Site<'_, 'p>,
    out: &mut Listing,
    declared: Declared,
    sections: &'p [Section],
) -> Result<(), AllocError>
    ensures { OnOk result (out.new ≡ out.old ++ sections_code site.now.names.now site.now.scope.now declared
        sections.now site.now.line) }
{
    for one in sections {
        section(site, out, declared, one)?;
    }
    Ok(())
}
