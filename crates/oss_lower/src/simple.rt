//! The instructions of statements without others in them.
ghost use Rattle.std.specs.Prelude.{◌≡◌, ◌++◌, None, IfOk, OnOk, MatchOption, length, map};
ghost use Rattle.oss_grammar.specs.Formats.{pieces_of};
ghost use Rattle.oss_grammar.specs.Kinds.{number_kind, value_kind};
ghost use Rattle.oss_meaning.specs.Clauses.{waited_for};
ghost use Rattle.oss_meaning.specs.Expressions.{typed_name};
ghost use Rattle.oss_meaning.specs.Names.{item_found};
ghost use Rattle.oss_meaning.specs.Statements.{fold_of, folded_by};
ghost use Rattle.oss_meaning.specs.declared.names.Found.TheVariants.{Variable as IsVariable};
ghost use Rattle.oss_code.specs.declared.instr.Instr.TheVariants as i;
ghost use Rattle.oss_lower_laws.specs.ExpressionCode.{ExprCode, arguments_code, call_code, expr_code, one};
ghost use Rattle.oss_lower_laws.specs.SectionCode.{clauses_code, sections_code};
ghost use Rattle.oss_lower.specs.Spots.{local_in};
ghost use Rattle.oss_lower_laws.specs.StatementCode.{assigned_code, cell_changed_code, declared_code, end_code, first_code, first_instr, given_code, local_assigned_code, pieces_in as pieces_told};

use crate::clauses::clauses;
use oss_code::{Declared, Instr};
use oss_grammar::{Piece, ValueKind, pieces};
use oss_lower_expressions::{
    Listing, Names, Scope, Site, arguments, call, narrow, operator, place, sections, value,
};
use oss_meaning::{Found, Target};
use oss_syntax::{
    BinOp, Bytes, Clause, Expr, ExprKind, Kind, List, Local, Mode, Name, NumKind, Op, Section,
};
use oss_types::{kind_of, kind_of_number};
use std::alloc::{AllocError, Global};

/// Writes a declaration: locals from left to right, each in scope behind its initial value.
pub(crate) fn declare<'p>(
    names: &Names<'p>,
    scope: &mut Scope<'p>,
    out: &mut Listing,
    line: u32,
    locals: &'p [Local],
) -> Result<(), AllocError>
    ensures scope { OnOk result (scope.new ≡ scope.old ++ locals.now) }
    ensures code { OnOk result (out.new ≡ out.old ++ declared_code names.now line locals.now scope.old) }
{
    for local in locals {
        first_value(names, scope, out, line, local)?;
        out.push(Instr::Bind(local.kind), line, 1)?;
        scope.declare(local)?;
    }
    Ok(())
}

/// Writes the initial value of a local.
fn first_value<'p>(
    names: &Names<'p>,
    scope: &Scope<'p>,
    out: &mut Listing,
    line: u32,
    local: &Local,
) -> Result<(), AllocError>
    ensures { OnOk result (out.new ≡ out.old ++ first_code names.now scope.now local.now.kind local.now.first line) }
{
    match &local.first {
        Some(first) => {
            value(&Site { names, scope, line }, out, 0, first)?;
            Ok(())
        }
        None => out.push(instr_of_none(local.kind), line, 0),
    }
}

/// What is left for a local that has no initial value.
fn instr_of_none(kind: Kind) -> Instr
    ensures { result ≡ first_instr kind }
{
    match kind {
        Kind::Pointer(_) => Instr::Nothing,
        _ => Instr::Push(0),
    }
}

/// Writes an assignment, by what its left side designates.
pub(crate) fn assign(
    site: &Site<'_, '_>,
    out: &mut Listing,
    target: &Expr,
    op: Option<BinOp>,
    given: &Expr,
) -> Result<(), AllocError>
    ensures { OnOk result (out.new ≡ out.old ++ assigned_code site.now.line
        (expr_code site.now.names.now site.now.scope.now target.now).typed.target
        (expr_code site.now.names.now site.now.scope.now target.now) op
        (expr_code site.now.names.now site.now.scope.now given.now)) }
{
    match local_of(site, target) {
        Some((slot, kind)) => assign_local(site, out, slot, kind, op, given),
        None => assign_cell(site, out, target, op, given),
    }
}

/// The local that an expression designates, if it designates one.
fn local_of(site: &Site<'_, '_>, target: &Expr) -> Option<(u32, Kind)>
    ensures { MatchOption result (local_in (expr_code site.now.names.now site.now.scope.now
        target.now).typed.target ≡ None) (λ x. (expr_code site.now.names.now site.now.scope.now
        target.now).typed ≡ typed_name (IsVariable x.0 x.1)) }
{
    match &target.what {
        ExprKind::Name(name) => match site.names.named(site.scope, name.as_slice()) {
            Found::Variable(slot, kind) => Some((slot, kind)),
            _ => None,
        },
        _ => None,
    }
}

/// Writes an assignment to a local: the right side, with a compound assignment behind the old value and joined
/// with it, is kept.
fn assign_local(
    site: &Site<'_, '_>,
    out: &mut Listing,
    slot: u32,
    kind: Kind,
    op: Option<BinOp>,
    given: &Expr,
) -> Result<(), AllocError>
    ensures { (t : ExprCode) → t.typed.kind ≡ value_kind kind →
        OnOk result (out.new ≡ out.old ++ local_assigned_code site.now.line t op
        (expr_code site.now.names.now site.now.scope.now given.now) slot kind) }
{
    match op {
        None => {
            value(site, out, 0, given)?;
        }
        Some(op) => {
            out.push(Instr::Local(slot), site.line, 0)?;
            let right = value(site, out, 1, given)?.kind;
            out.push(operator(op, kind_of(kind), right), site.line, 2)?;
        }
    }
    out.push(Instr::SetLocal(slot, kind), site.line, 1)
}

/// Writes an assignment to what is no local: to a cell, its place and then the right side. What designates no
/// cell is not assigned to.
fn assign_cell(
    site: &Site<'_, '_>,
    out: &mut Listing,
    target: &Expr,
    op: Option<BinOp>,
    given: &Expr,
) -> Result<(), AllocError>
    ensures { local_in (expr_code site.now.names.now site.now.scope.now target.now).typed.target ≡ None →
        OnOk result (out.new ≡ out.old ++ assigned_code site.now.line
        (expr_code site.now.names.now site.now.scope.now target.now).typed.target
        (expr_code site.now.names.now site.now.scope.now target.now) op
        (expr_code site.now.names.now site.now.scope.now given.now)) }
{
    let before = out.len();
    match place(site, out, 0, target)? {
        Target::Cell(kind) => {
            let right = value(site, out, 1, given)?.kind;
            match op {
                None => out.push(Instr::Store(kind), site.line, 2),
                Some(op) => change_cell(site.line, out, kind, op, right),
            }
        }
        _ => {
            out.truncate(before);
            Ok(())
        }
    }
}

/// Writes the change of a cell whose place and the right side are on the stack: one fold, or a load and a store.
fn change_cell(
    line: u32,
    out: &mut Listing,
    kind: NumKind,
    op: BinOp,
    right: ValueKind,
) -> Result<(), AllocError>
    ensures { (t e : ExprCode) → t.typed.kind ≡ number_kind kind → e.typed.kind ≡ right →
        OnOk result (out.new ≡ out.old ++ cell_changed_code line (folded_by kind op) t op e kind) }
{
    match folding(kind, op) {
        Some(fold) => out.push(Instr::Fold(fold), line, 2),
        None => {
            out.push(Instr::Under, line, 2)?;
            out.push(Instr::Load, line, 3)?;
            out.push(Instr::Swap, line, 3)?;
            out.push(operator(op, kind_of_number(kind), right), line, 3)?;
            out.push(Instr::Store(kind), line, 2)
        }
    }
}

/// The fold that a compound assignment to a cell of this type is, if it is one.
fn folding(kind: NumKind, op: BinOp) -> Option<Op>
    ensures { result ≡ folded_by kind op }
{
    match kind {
        NumKind::Int => None,
        _ => fold_by(op),
    }
}

/// The fold of an operator, if it has one.
fn fold_by(op: BinOp) -> Option<Op>
    ensures { result ≡ fold_of op }
{
    match op {
        BinOp::Add => Some(Op::Add),
        BinOp::And => Some(Op::And),
        BinOp::Or => Some(Op::Or),
        BinOp::Xor => Some(Op::Xor),
        _ => None,
    }
}

/// Writes a call as a statement, whose value is dropped.
pub(crate) fn call_alone(
    site: &Site<'_, '_>,
    out: &mut Listing,
    name: &Name,
    values: &[Expr],
) -> Result<(), AllocError>
    ensures { OnOk result (out.new ≡ out.old ++ (call_code site.now.names.now
        (item_found site.now.names.now name.now) (map (expr_code site.now.names.now site.now.scope.now)
        values.now) site.now.line 0 ++ one site.now.line 1 i.Drop)) }
{
    call(site, out, 0, name.as_slice(), values)?;
    out.push(Instr::Drop, site.line, 1)
}

/// Writes a `printf`: its arguments, and then the print.
pub(crate) fn print(
    site: &Site<'_, '_>,
    out: &mut Listing,
    format: &Bytes,
    values: &[Expr],
) -> Result<(), AllocError>
    ensures { OnOk result (out.new ≡ out.old ++ (arguments_code
        (map (expr_code site.now.names.now site.now.scope.now) values.now) site.now.line 0 ++ one site.now.line
        (length values.now) (i.Print (pieces_told (pieces_of format.now)) (length values.now)))) }
{
    arguments(site, out, 0, values)?;
    let arguments = narrow(values.len())?;
    let pieces = pieces_in(site.names.alloc(), format.as_slice())?;
    out.push(Instr::Print { pieces, arguments }, site.line, arguments)
}

/// The pieces of a string; one that is none of `printf` prints nothing.
fn pieces_in(alloc: Global, format: &[u8]) -> Result<List<Piece>, AllocError>
    ensures { IfOk result (λ found. found ≡ pieces_told (pieces_of format.now)) }
{
    match pieces(alloc, format)? {
        Some(found) => Ok(found),
        None => Ok(List::new(alloc)),
    }
}

/// Writes a `return` with a value, which is given.
pub(crate) fn give(
    site: &Site<'_, '_>,
    out: &mut Listing,
    kind: Kind,
    given: &Expr,
) -> Result<(), AllocError>
    ensures { OnOk result (out.new ≡ out.old ++ ((expr_code site.now.names.now site.now.scope.now
        given.now).value site.now.line 0 ++ given_code site.now.line kind)) }
{
    value(site, out, 0, given)?;
    out.push(Instr::Convert(kind), site.line, 1)?;
    out.push(Instr::Return, site.line, 1)
}

/// Writes the end of a body: it gives 0.
pub(crate) fn end(out: &mut Listing, line: u32, kind: Kind) -> Result<(), AllocError>
    ensures { OnOk result (out.new ≡ out.old ++ end_code line kind) }
{
    out.push(Instr::Push(0), line, 0)?;
    out.push(Instr::Convert(kind), line, 1)?;
    out.push(Instr::Return, line, 1)
}

/// Writes a `taskwait` on the cells of these sections.
pub(crate) fn wait_on<'p>(
    site: &Site<'_, 'p>,
    out: &mut Listing,
    list: &'p [Section],
) -> Result<(), AllocError>
    ensures { OnOk result (out.new ≡ out.old ++ (sections_code site.now.names.now site.now.scope.now waited_for
        list.now site.now.line ++ one site.now.line 0 i.WaitOn)) }
{
    let declared = Declared {
        mode: Mode::Read,
        strong: true,
        fresh: false,
    };
    sections(site, out, declared, list)?;
    out.push(Instr::WaitOn, site.line, 0)
}

/// Writes a `release`: its clauses, and then what they declare is released.
pub(crate) fn release<'p>(
    site: &Site<'_, 'p>,
    out: &mut Listing,
    list: &'p [Clause],
) -> Result<(), AllocError>
    ensures { OnOk result (out.new ≡ out.old ++ (clauses_code site.now.names.now site.now.scope.now list.now
        site.now.line ++ one site.now.line 0 i.Release)) }
{
    clauses(site, out, list)?;
    out.push(Instr::Release, site.line, 0)
}
