//! The rules on expressions.
ghost use Rattle.std.specs.Prelude.{◌≡◌, map, length};
ghost use Rattle.std.specs.Option.{option_copied};
ghost use Rattle.oss_grammar.specs.Broken.{first};
ghost use Rattle.oss_grammar.specs.ExpressionRules.{argument_rules, argument_wanted, call_findings, call_kind, call_rules, callee_rules, findings, parameters_behind, parameters_of, value_rules};
ghost use Rattle.oss_grammar.specs.Scopes.{is_main};
ghost use Rattle.oss_types.specs.Seen.{seen};

use crate::finding::{Finding, at_place, before, first_of, kind_of, number, refused, taken_by};
use crate::globals::Globals;
use crate::locals::Locals;
use crate::operators::{binary, index, name, unary};
use crate::scope::Scope;
use oss_grammar::{Named, Object, ValueKind, Wanted};
use oss_syntax::{Expr, ExprKind, Function, Local, Refused, RefusedKind};

/// The first rule that an expression breaks at a place where all locals are in scope.
pub fn value(
    globals: &Globals<'_>,
    locals: &Locals<'_>,
    wanted: Wanted,
    expr: &Expr,
) -> Option<Refused>
    ensures { result ≡ first (value_rules globals.now locals.now wanted expr.now) }
{
    value_in(globals, &Scope::all(locals), wanted, expr)
}

/// The first rule that an expression breaks at a place where these locals are in scope.
pub fn value_in(
    globals: &Globals<'_>,
    locals: &Scope<'_, '_>,
    wanted: Wanted,
    expr: &Expr,
) -> Option<Refused>
    ensures { result ≡ first (value_rules globals.now locals.now wanted expr.now) }
{
    first_of(at_place(wanted, expression(globals, locals, expr)))
}

/// What is found of an expression.
#[cycle(expressions)]
pub fn expression(globals: &Globals<'_>, locals: &Scope<'_, '_>, expr: &Expr) -> Finding
    ensures { result ≡ seen (findings globals.now locals.now expr.now) }
{
    let line = expr.line;
    match &expr.what {
        ExprKind::Number(_, unsigned) => number(*unsigned, line),
        ExprKind::Name(word) => name(globals.named(locals, word.as_slice()), line),
        ExprKind::Index(base, place) => {
            let base = expression(globals, locals, base.get());
            let place = expression(globals, locals, place.get());
            index(line, base, place)
        }
        ExprKind::Unary(op, operand) => {
            let operand = expression(globals, locals, operand.get());
            unary(line, *op, operand)
        }
        ExprKind::Binary(op, left, right) => {
            let left = expression(globals, locals, left.get());
            let right = expression(globals, locals, right.get());
            binary(line, *op, left, right)
        }
        ExprKind::Call(word, values) => {
            call(
                globals,
                locals,
                word.as_slice(),
                line,
                false,
                values.as_slice(),
            )
        }
    }
}

/// A call, as a statement or not.
#[cycle(expressions)]
pub fn call(
    globals: &Globals<'_>,
    locals: &Scope<'_, '_>,
    name: &[u8],
    line: u32,
    as_statement: bool,
    values: &[Expr],
) -> Finding
    ensures { result ≡ seen (call_findings globals.now locals.now name.now line as_statement
        (map (findings globals.now locals.now) values.now)) }
{
    let named = globals.named(locals, name);
    let function = globals.function(name);
    let at_first = refusal_of_call(named, function, line, as_statement, values.len());
    Finding {
        line,
        at_first,
        behind: arguments(globals, locals, parameters(named, function), values),
        kind: kind_of_call(named, function),
        object: Object::ValueOnly,
    }
}

/// The first rule that arguments break, in the places of these parameters.
#[cycle(expressions)]
fn arguments(
    globals: &Globals<'_>,
    locals: &Scope<'_, '_>,
    params: &[Local],
    values: &[Expr],
) -> Option<Refused>
    ensures { result ≡ first (argument_rules params.now (map (findings globals.now locals.now) values.now)) }
{
    let mut left = params;
    for value in values {
        let found = at_place(wanted_of_argument(left), expression(globals, locals, value));
        match first_of(found) {
            Some(broken) => return Some(broken),
            None => {}
        }
        left = behind_first(left);
    }
    None
}

/// What the first of these parameters takes. An argument too many is allowed any value, since the count is
/// refused at the name.
fn wanted_of_argument(params: &[Local]) -> Wanted
    ensures { result ≡ argument_wanted params.now }
{
    match params.split_first() {
        Some((param, _)) => taken_by(param.kind),
        None => Wanted::Anything,
    }
}

/// The parameters of the arguments behind the first; none stay none.
fn behind_first(params: &[Local]) -> &[Local]
    ensures { result.now ≡ parameters_behind params.now }
{
    match params.split_first() {
        Some((_, behind)) => behind,
        None => params,
    }
}

/// The first rule that is broken at the name of a call with so many arguments.
fn refusal_of_call(
    named: Named,
    function: Option<&Function>,
    line: u32,
    as_statement: bool,
    count: usize,
) -> Option<Refused>
    ensures { result ≡ first (call_rules named (option_copied function.entry) line as_statement count) }
{
    match named {
        Named::Missing => Some(refused(RefusedKind::UnknownName, line)),
        Named::Function => match function {
            Some(function) => refusal_of_callee(function, line, as_statement, count),
            None => None,
        },
        _ => Some(refused(RefusedKind::WrongKind, line)),
    }
}

/// The first rule that a call of this function breaks at its name: `main` is not called, and a function with a
/// pragma gives no value.
fn refusal_of_callee(
    function: &Function,
    line: u32,
    as_statement: bool,
    count: usize,
) -> Option<Refused>
    ensures { result ≡ first (callee_rules function.now line as_statement count) }
{
    if is_named_main(function) || (function.mark.is_some() && !as_statement) {
        return Some(refused(RefusedKind::WrongKind, line));
    }
    if count != function.params.len() {
        return Some(refused(RefusedKind::WrongCount, line));
    }
    None
}

/// Whether this is a function `main`.
pub fn is_named_main(function: &Function) -> bool
    ensures { result ≡ is_main function.now.name }
{
    function.name.as_slice() == b"main".as_slice()
}

/// The parameters of what is called; none where it is no function, which is refused at its name.
fn parameters<'p>(named: Named, function: Option<&'p Function>) -> &'p [Local]
    ensures { result.now ≡ parameters_of named (option_copied function.entry) }
{
    match named {
        Named::Function => match function {
            Some(function) => function.params.as_slice(),
            None => &[],
        },
        _ => &[],
    }
}

/// The kind of a call's value: unknown where no function is called, so that nothing more is refused for it.
fn kind_of_call(named: Named, function: Option<&Function>) -> ValueKind
    ensures { result ≡ call_kind named (option_copied function.entry) }
{
    match named {
        Named::Function => match function {
            Some(function) => kind_of(function.result),
            None => ValueKind::Unknown,
        },
        _ => ValueKind::Unknown,
    }
}
