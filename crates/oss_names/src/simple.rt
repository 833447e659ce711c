//! The rules on statements that hold no others.
ghost use Rattle.std.specs.Prelude.{◌≡◌, length, map, true};
ghost use Rattle.oss_grammar.specs.Broken.{first};
ghost use Rattle.oss_grammar.specs.ExpressionRules.{call_findings, findings};
ghost use Rattle.oss_grammar.specs.Kinds.{Findings, all_of};
ghost use Rattle.oss_grammar.specs.StaticRules.{assign_rules, format_rules, is_wrong_return, moved, numbers_rules, or_anything, print_rules, return_rules, returned_rules, stored_in, stored_rules, target_wanted};
ghost use Rattle.oss_types.specs.Seen.{seen};

use oss_grammar::{Around, Object, ValueKind, Wanted, conversions};
use oss_syntax::{BinOp, Boxed, Bytes, Expr, Kind, List, Name, NumKind, Refused, RefusedKind};
use oss_types::{
    Finding, Globals, Locals, Scope, at_place, before, call, expression, first_of, refused,
    refused_if, taken_by, value, wrong,
};

/// The first rule that an assignment breaks.
pub(crate) fn assignment(
    globals: &Globals<'_>,
    locals: &Locals<'_>,
    op: Option<BinOp>,
    target: &Expr,
    value: &Expr,
) -> Option<Refused>
    ensures { result ≡ first (assign_rules globals.now locals.now op target.now value.now) }
{
    let scope = Scope::all(locals);
    let target = expression(globals, &scope, target);
    let value = expression(globals, &scope, value);
    store(
        wanted_by_target(op, target.kind, target.object),
        target,
        value,
    )
}

/// The first rule that a target and what is stored in it break.
#[tactic(auto, using(oss_types::proofs::Firsts::firsts))]
fn store(wanted: Option<Wanted>, target: Finding, value: Finding) -> Option<Refused>
    ensures { (t : Findings) → (e : Findings) → target ≡ seen t → value ≡ seen e →
        result ≡ first (stored_rules wanted t e) }
{
    match wanted {
        Some(wanted) => before(first_of(target), first_of(at_place(wanted, value))),
        None => before(
            first_of(wrong(target)),
            first_of(at_place(Wanted::Anything, value)),
        ),
    }
}

/// What may be stored in a target; `None` where it is none.
fn wanted_by_target(op: Option<BinOp>, kind: ValueKind, object: Object) -> Option<Wanted>
    ensures { result ≡ target_wanted op kind object }
{
    match kind {
        ValueKind::Unknown => Some(Wanted::Anything),
        _ => wanted_by_object(op, object),
    }
}

/// What may be stored where a target designates this; `None` where it designates no object, or the operator
/// does not go with it.
fn wanted_by_object(op: Option<BinOp>, object: Object) -> Option<Wanted>
    ensures { result ≡ stored_in op object }
{
    match object {
        Object::ValueOnly => None,
        Object::Cell(_) => Some(Wanted::Number),
        Object::Variable(Kind::Num(_)) => Some(Wanted::Number),
        Object::Variable(Kind::Pointer(number)) => wanted_by_pointer(op, number),
        Object::Variable(Kind::Nothing) => None,
    }
}

/// What may be stored in a pointer: a pointer of its type, or by `+=` and `-=` a number of elements by which it moves.
fn wanted_by_pointer(op: Option<BinOp>, number: NumKind) -> Option<Wanted>
    ensures { result ≡ moved op number }
{
    match op {
        None => Some(Wanted::PointerTo(number)),
        Some(BinOp::Add) => Some(Wanted::Number),
        Some(BinOp::Sub) => Some(Wanted::Number),
        Some(_) => None,
    }
}

/// The first rule that a call as a statement breaks.
pub(crate) fn call_statement(
    globals: &Globals<'_>,
    locals: &Locals<'_>,
    line: u32,
    name: &Name,
    values: &List<Expr>,
) -> Option<Refused>
    ensures { result ≡ first (all_of (call_findings globals.now locals.now name.now line true
        (map (findings globals.now locals.now) values.now))) }
{
    first_of(call(
        globals,
        &Scope::all(locals),
        name.as_slice(),
        line,
        true,
        values.as_slice(),
    ))
}

/// The first rule that a `printf` breaks.
#[tactic(auto, using(oss_types::proofs::Firsts::firsts))]
pub(crate) fn print(
    globals: &Globals<'_>,
    locals: &Locals<'_>,
    line: u32,
    format: &Bytes,
    values: &List<Expr>,
) -> Option<Refused>
    ensures { result ≡ first (print_rules globals.now locals.now line format.now values.now) }
{
    before(
        refusal_of_format(conversions(format.as_slice()), values.len(), line),
        numbers(globals, locals, values.as_slice()),
    )
}

/// The first rule that the string of a `printf` breaks beside so many arguments. `None` for the conversions is
/// a `%` that begins none.
fn refusal_of_format(conversions: Option<usize>, count: usize, line: u32) -> Option<Refused>
    ensures { result ≡ first (format_rules conversions count line) }
{
    match conversions {
        None => Some(refused(RefusedKind::WrongKind, line)),
        Some(conversions) => refused_if(conversions != count, RefusedKind::WrongCount, line),
    }
}

/// The first rule that these numbers break.
fn numbers(globals: &Globals<'_>, locals: &Locals<'_>, values: &[Expr]) -> Option<Refused>
    ensures { result ≡ first (numbers_rules globals.now locals.now values.now) }
{
    for expr in values {
        match value(globals, locals, Wanted::Number, expr) {
            Some(broken) => return Some(broken),
            None => {}
        }
    }
    None
}

/// The first rule that a `return` breaks.
#[tactic(auto, using(oss_types::proofs::Firsts::firsts))]
pub(crate) fn return_statement(
    globals: &Globals<'_>,
    locals: &Locals<'_>,
    around: Around,
    line: u32,
    value: &Option<Boxed<Expr>>,
) -> Option<Refused>
    ensures { result ≡ first (return_rules globals.now locals.now around line value.now) }
{
    let wrong = is_wrong_for(around.result, value);
    let inside = returned(globals, locals, around.result, value);
    before(
        refused_if(wrong, RefusedKind::WrongKind, line),
        before(
            refused_if(around.in_task, RefusedKind::BadJump, line),
            inside,
        ),
    )
}

/// Whether a `return` has a value where the result is `void`, or has none elsewhere.
fn is_wrong_for(kind: Kind, value: &Option<Boxed<Expr>>) -> bool
    ensures { result ≡ is_wrong_return kind value.now }
{
    match kind {
        Kind::Nothing => value.is_some(),
        Kind::Num(_) => value.is_none(),
        Kind::Pointer(_) => value.is_none(),
    }
}

/// The first rule that the value of a `return` breaks, if it has one.
fn returned(
    globals: &Globals<'_>,
    locals: &Locals<'_>,
    kind: Kind,
    given: &Option<Boxed<Expr>>,
) -> Option<Refused>
    ensures { result ≡ first (returned_rules globals.now locals.now kind given.now) }
{
    match given {
        Some(given) => value(globals, locals, taken_by(kind), given.get()),
        None => None,
    }
}

/// The first rule that a value breaks that a variable of this type takes, where there is one.
pub(crate) fn optional_for(
    globals: &Globals<'_>,
    locals: &Locals<'_>,
    kind: Kind,
    expr: &Option<Expr>,
) -> Option<Refused>
    ensures { result ≡ first (returned_rules globals.now locals.now kind expr.now) }
{
    match expr {
        Some(expr) => value(globals, locals, taken_by(kind), expr),
        None => None,
    }
}
