//! The instructions of expressions.
ghost use Rattle.std.specs.Prelude.{◌≡◌, ◌++◌, ◌+◌, IfOk, OnOk, length, map};
ghost use Rattle.oss_grammar.specs.Kinds.{binary_kind};
ghost use Rattle.oss_meaning.specs.Expressions.{called_kind, given_kind, is_task_function, typed_index, typed_prefix};
ghost use Rattle.oss_meaning.specs.Names.{item_found};
ghost use Rattle.oss_lower_laws.specs.ExpressionCode.{and_code, arguments_code, binary_code, call_code, call_instr, expr_code, index_code, name_place_code, name_value_code, or_code, prefix_value_code};
ghost use Rattle.std.specs.Option.{option_copied};
ghost use Rattle.oss_lower_expressions.specs.Indices.{under_of};

use crate::listing::{Jump, Listing};
use crate::numbers::{deeper, narrow};
use crate::site::Site;
use crate::typed::{
    operator, typed_address, typed_cell, typed_name, typed_number, typed_pointed, typed_value,
};
use oss_code::{Direction, Instr};
use oss_grammar::ValueKind;
use oss_meaning::{Found, Target, Typed};
use oss_syntax::{BinOp, Expr, ExprKind, Function, NumKind, UnOp};
use oss_types::{kind_of, kind_of_binary};
use std::alloc::AllocError;

/// What stands under an index.
#[derive(Clone, Copy)]
pub enum Under {
    /// The array of two dimensions with this number, of numbers of this type.
    Grid(u32, NumKind),
    /// A row of it.
    Row(u32, NumKind),
    /// A pointer.
    Pointer,
}

/// Writes the instructions of the value of an expression, behind so many values, and tells what the text tells of it.
#[cycle(expressions)]
pub fn value(
    site: &Site<'_, '_>,
    out: &mut Listing,
    depth: u32,
    expr: &Expr,
) -> Result<Typed, AllocError>
    ensures typed { IfOk result (λ typed. typed ≡ (expr_code site.now.names.now site.now.scope.now expr.now).typed) }
    ensures code { OnOk result (out.new ≡ out.old ++
        (expr_code site.now.names.now site.now.scope.now expr.now).value site.now.line depth) }
{
    match &expr.what {
        ExprKind::Number(number, unsigned) => {
            out.push(Instr::Push(*number), site.line, depth)?;
            Ok(typed_number(*unsigned))
        }
        ExprKind::Name(name) => {
            let found = site.names.named(site.scope, name.as_slice());
            name_value(site.line, out, depth, found)?;
            Ok(typed_name(found))
        }
        ExprKind::Index(base, index) => index_value(site, out, depth, base.get(), index.get()),
        ExprKind::Unary(op, operand) => prefix_value(site, out, depth, *op, operand.get()),
        ExprKind::Binary(op, left, right) => {
            let kind = binary(site, out, depth, *op, left.get(), right.get())?;
            Ok(typed_value(kind))
        }
        ExprKind::Call(name, values) => {
            let kind = call(site, out, depth, name.as_slice(), values.as_slice())?;
            Ok(typed_value(kind))
        }
    }
}

/// Writes the instructions of the place that an expression designates, and tells what it designates.
#[cycle(expressions)]
pub fn place(
    site: &Site<'_, '_>,
    out: &mut Listing,
    depth: u32,
    expr: &Expr,
) -> Result<Target, AllocError>
    ensures target { IfOk result (λ target. target ≡
        (expr_code site.now.names.now site.now.scope.now expr.now).typed.target) }
    ensures code { OnOk result (out.new ≡ out.old ++
        (expr_code site.now.names.now site.now.scope.now expr.now).place site.now.line depth) }
{
    match &expr.what {
        ExprKind::Name(name) => {
            let found = site.names.named(site.scope, name.as_slice());
            name_place(site.line, out, depth, found)?;
            Ok(typed_name(found).target)
        }
        ExprKind::Index(base, index) => {
            let typed = index_place(site, out, depth, base.get(), index.get())?;
            Ok(typed.target)
        }
        ExprKind::Unary(UnOp::Deref, operand) => {
            let typed = value(site, out, depth, operand.get())?;
            Ok(typed_pointed(typed.kind).target)
        }
        _ => {
            out.push(Instr::Nothing, site.line, depth)?;
            Ok(Target::Nothing)
        }
    }
}

/// What stands under an index, an expression being there.
fn under_index(site: &Site<'_, '_>, expr: &Expr) -> Under
    ensures { result ≡ under_of (expr_code site.now.names.now site.now.scope.now expr.now).typed.target }
{
    match &expr.what {
        ExprKind::Name(name) => match site.names.named(site.scope, name.as_slice()) {
            Found::Grid(global, kind) => Under::Grid(global, kind),
            _ => Under::Pointer,
        },
        ExprKind::Index(base, _) => match under_index(site, base.get()) {
            Under::Grid(global, kind) => Under::Row(global, kind),
            _ => Under::Pointer,
        },
        _ => Under::Pointer,
    }
}

/// Writes the instructions of the value of a name that stands for this.
fn name_value(line: u32, out: &mut Listing, depth: u32, found: Found) -> Result<(), AllocError>
    ensures { OnOk result (out.new ≡ out.old ++ name_value_code found line depth) }
{
    match found {
        Found::Variable(slot, _) => out.push(Instr::Local(slot), line, depth),
        Found::Scalar(global, _) => {
            out.push(Instr::Address(global), line, depth)?;
            out.push(Instr::Load, line, deeper(depth, 1)?)
        }
        Found::Array(global, _) => out.push(Instr::Address(global), line, depth),
        Found::Grid(global, _) => out.push(Instr::Address(global), line, depth),
        _ => out.push(Instr::Nothing, line, depth),
    }
}

/// Writes the instructions of the place of a name that stands for this.
fn name_place(line: u32, out: &mut Listing, depth: u32, found: Found) -> Result<(), AllocError>
    ensures { OnOk result (out.new ≡ out.old ++ name_place_code found line depth) }
{
    match found {
        Found::Scalar(global, _) => out.push(Instr::Address(global), line, depth),
        _ => out.push(Instr::Nothing, line, depth),
    }
}

/// Writes what a second index takes of the row `base[index]`.
#[cycle(expressions)]
fn row_index(
    site: &Site<'_, '_>,
    out: &mut Listing,
    depth: u32,
    row: &Expr,
) -> Result<(), AllocError>
    ensures { OnOk result (out.new ≡ out.old ++ (expr_code site.now.names.now site.now.scope.now
        row.now).indexed site.now.line depth) }
{
    match &row.what {
        ExprKind::Index(base, index) => match under_index(site, base.get()) {
            Under::Grid(_, _) => {
                value(site, out, depth, index.get())?;
                Ok(())
            }
            _ => {
                index_value(site, out, depth, base.get(), index.get())?;
                Ok(())
            }
        },
        _ => {
            value(site, out, depth, row)?;
            Ok(())
        }
    }
}

/// Writes the instructions of the place of `base[index]`.
#[cycle(expressions)]
fn index_place(
    site: &Site<'_, '_>,
    out: &mut Listing,
    depth: u32,
    base: &Expr,
    index: &Expr,
) -> Result<Typed, AllocError>
    ensures typed { IfOk result (λ typed. typed ≡ typed_index
        (expr_code site.now.names.now site.now.scope.now base.now).typed) }
    ensures code { OnOk result (out.new ≡ out.old ++
        (index_code (expr_code site.now.names.now site.now.scope.now base.now)
        (expr_code site.now.names.now site.now.scope.now index.now)).place site.now.line depth) }
{
    match under_index(site, base) {
        Under::Grid(global, kind) => {
            value(site, out, depth, index)?;
            out.push(Instr::Row(global), site.line, deeper(depth, 1)?)?;
            Ok(Typed {
                kind: ValueKind::Pointer(kind),
                target: Target::Row(global, kind),
            })
        }
        Under::Row(global, kind) => {
            row_index(site, out, depth, base)?;
            value(site, out, deeper(depth, 1)?, index)?;
            out.push(Instr::Element(global), site.line, deeper(depth, 2)?)?;
            Ok(typed_cell(kind))
        }
        Under::Pointer => {
            let pointer = value(site, out, depth, base)?;
            value(site, out, deeper(depth, 1)?, index)?;
            out.push(Instr::Move(Direction::Forth), site.line, deeper(depth, 2)?)?;
            Ok(typed_pointed(pointer.kind))
        }
    }
}

/// Writes the instructions of the value of `base[index]`: a row is the pointer to its first cell, and all else
/// is loaded.
#[cycle(expressions)]
fn index_value(
    site: &Site<'_, '_>,
    out: &mut Listing,
    depth: u32,
    base: &Expr,
    index: &Expr,
) -> Result<Typed, AllocError>
    ensures typed { IfOk result (λ typed. typed ≡ typed_index
        (expr_code site.now.names.now site.now.scope.now base.now).typed) }
    ensures code { OnOk result (out.new ≡ out.old ++
        (index_code (expr_code site.now.names.now site.now.scope.now base.now)
        (expr_code site.now.names.now site.now.scope.now index.now)).value site.now.line depth) }
{
    let typed = index_place(site, out, depth, base, index)?;
    match typed.target {
        Target::Row(_, _) => {}
        _ => {
            out.push(Instr::Load, site.line, deeper(depth, 1)?)?;
        }
    }
    Ok(typed)
}

/// Writes the instructions of the value of a prefix operator and its operand.
#[cycle(expressions)]
fn prefix_value(
    site: &Site<'_, '_>,
    out: &mut Listing,
    depth: u32,
    op: UnOp,
    operand: &Expr,
) -> Result<Typed, AllocError>
    ensures typed { IfOk result (λ typed. typed ≡ typed_prefix op
        (expr_code site.now.names.now site.now.scope.now operand.now).typed) }
    ensures code { OnOk result (out.new ≡ out.old ++ prefix_value_code op
        (expr_code site.now.names.now site.now.scope.now operand.now) site.now.line depth) }
{
    match op {
        UnOp::Deref => {
            let typed = value(site, out, depth, operand)?;
            out.push(Instr::Load, site.line, deeper(depth, 1)?)?;
            Ok(typed_pointed(typed.kind))
        }
        UnOp::Address => {
            let target = place(site, out, depth, operand)?;
            Ok(typed_address(target))
        }
        UnOp::Not => {
            value(site, out, depth, operand)?;
            out.push(Instr::Prefix(op), site.line, deeper(depth, 1)?)?;
            Ok(typed_value(ValueKind::Signed))
        }
        _ => {
            let typed = value(site, out, depth, operand)?;
            out.push(Instr::Prefix(op), site.line, deeper(depth, 1)?)?;
            Ok(typed_value(typed.kind))
        }
    }
}

/// Writes the instructions of a binary operator and its operands, and tells the kind of its value.
#[cycle(expressions)]
fn binary(
    site: &Site<'_, '_>,
    out: &mut Listing,
    depth: u32,
    op: BinOp,
    left: &Expr,
    right: &Expr,
) -> Result<ValueKind, AllocError>
    ensures kind { IfOk result (λ kind. kind ≡ binary_kind op
        (expr_code site.now.names.now site.now.scope.now left.now).typed.kind
        (expr_code site.now.names.now site.now.scope.now right.now).typed.kind) }
    ensures code { OnOk result (out.new ≡ out.old ++ binary_code op
        (expr_code site.now.names.now site.now.scope.now left.now)
        (expr_code site.now.names.now site.now.scope.now right.now) site.now.line depth) }
{
    match op {
        BinOp::AndAlso => {
            and(site, out, depth, left, right)?;
            Ok(ValueKind::Signed)
        }
        BinOp::OrElse => {
            or(site, out, depth, left, right)?;
            Ok(ValueKind::Signed)
        }
        _ => {
            let a = value(site, out, depth, left)?.kind;
            let b = value(site, out, deeper(depth, 1)?, right)?.kind;
            out.push(operator(op, a, b), site.line, deeper(depth, 2)?)?;
            Ok(kind_of_binary(op, a, b))
        }
    }
}

/// Writes the instructions of `left && right`.
#[cycle(expressions)]
fn and(
    site: &Site<'_, '_>,
    out: &mut Listing,
    depth: u32,
    left: &Expr,
    right: &Expr,
) -> Result<(), AllocError>
    ensures { OnOk result (out.new ≡ out.old ++ and_code
        (expr_code site.now.names.now site.now.scope.now left.now).value
        (expr_code site.now.names.now site.now.scope.now right.now).value site.now.line depth) }
{
    let above = deeper(depth, 1)?;
    value(site, out, depth, left)?;
    let test = out.len();
    out.push(Instr::SkipUnless(0), site.line, above)?;
    value(site, out, depth, right)?;
    out.fill(test, Jump::Unless, 2)?;
    out.push(Instr::Truth, site.line, above)?;
    out.push(Instr::Skip(1), site.line, above)?;
    out.push(Instr::Push(0), site.line, depth)
}

/// Writes the instructions of `left || right`.
#[cycle(expressions)]
fn or(
    site: &Site<'_, '_>,
    out: &mut Listing,
    depth: u32,
    left: &Expr,
    right: &Expr,
) -> Result<(), AllocError>
    ensures { OnOk result (out.new ≡ out.old ++ or_code
        (expr_code site.now.names.now site.now.scope.now left.now).value
        (expr_code site.now.names.now site.now.scope.now right.now).value site.now.line depth) }
{
    let above = deeper(depth, 1)?;
    value(site, out, depth, left)?;
    out.push(Instr::SkipUnless(2), site.line, above)?;
    out.push(Instr::Push(1), site.line, depth)?;
    let decided = out.len();
    out.push(Instr::Skip(0), site.line, above)?;
    value(site, out, depth, right)?;
    out.fill(decided, Jump::Always, 1)?;
    out.push(Instr::Truth, site.line, above)
}

/// Writes the instructions of expressions from left to right, each of which leaves its value.
#[cycle(expressions)]
pub fn arguments(
    site: &Site<'_, '_>,
    out: &mut Listing,
    depth: u32,
    values: &[Expr],
) -> Result<(), AllocError>
    ensures { OnOk result (out.new ≡ out.old ++ arguments_code
        (map (expr_code site.now.names.now site.now.scope.now) values.now) site.now.line depth) }
{
    let mut above = depth;
    for one in values {
        value(site, out, above, one)?;
        above = deeper(above, 1)?;
    }
    Ok(())
}

/// Writes the instructions of a call, and tells the kind of its value. What is no function evaluates nothing.
#[cycle(expressions)]
pub fn call(
    site: &Site<'_, '_>,
    out: &mut Listing,
    depth: u32,
    name: &[u8],
    values: &[Expr],
) -> Result<ValueKind, AllocError>
    ensures kind { IfOk result (λ kind. kind ≡ called_kind site.now.names.now
        (item_found site.now.names.now name.now)) }
    ensures code { OnOk result (out.new ≡ out.old ++ call_code site.now.names.now
        (item_found site.now.names.now name.now) (map (expr_code site.now.names.now site.now.scope.now)
        values.now) site.now.line depth) }
{
    match site.names.item(name) {
        Found::Function(number) => {
            let function = site.names.function(number);
            arguments(site, out, depth, values)?;
            let count = narrow(values.len())?;
            let made = call_of(function, number, count);
            out.push(made, site.line, deeper(depth, count)?)?;
            Ok(kind_given(function))
        }
        _ => {
            out.push(Instr::Push(0), site.line, depth)?;
            Ok(ValueKind::Unknown)
        }
    }
}

/// The instruction of a call of the function with this number: at that of a task function a task is created.
fn call_of(function: Option<&Function>, number: u32, arguments: u32) -> Instr
    ensures { result ≡ call_instr (is_task_function (option_copied function.entry)) number arguments }
{
    if is_task_function(function) {
        Instr::Spawn {
            function: number,
            arguments,
        }
    } else {
        Instr::Call {
            function: number,
            arguments,
        }
    }
}

/// Whether a call of it creates a task.
fn is_task_function(function: Option<&Function>) -> bool
    ensures { result ≡ is_task_function (option_copied function.entry) }
{
    match function {
        Some(function) => function.mark.is_some(),
        None => false,
    }
}

/// The kind of what a function gives.
fn kind_given(function: Option<&Function>) -> ValueKind
    ensures { result ≡ given_kind (option_copied function.entry) }
{
    match function {
        Some(function) => kind_of(function.result),
        None => ValueKind::Unknown,
    }
}
