//! What is found of an expression, from what was found of its operands.
ghost use Rattle.std.specs.Prelude.{◌≡◌};
ghost use Rattle.oss_grammar.specs.Kinds.{Findings, address_kind, binary_findings, binary_kind, binary_of, element_kind, element_object, has_address, index_findings, index_of, joined_kind, left_wanted, name_findings, name_kind, name_object, name_rules, prefixed, unary_findings, unless, unless_unknown};
ghost use Rattle.oss_grammar.specs.Broken.{first};
ghost use Rattle.oss_types.specs.Seen.{seen};

use crate::finding::{
    Finding, at_place, before, first_of, kind_of, kind_of_number, refused, wrong,
};
use oss_grammar::{Named, Object, ValueKind, Wanted};
use oss_syntax::{BinOp, Refused, RefusedKind, UnOp};

/// A name that stands for this.
pub(crate) fn name(named: Named, line: u32) -> Finding
    ensures { result ≡ seen (name_findings named line) }
{
    Finding {
        line,
        at_first: refusal_of_name(named, line),
        behind: None,
        kind: kind_of_name(named),
        object: object_of_name(named),
    }
}

/// The rule that a name as a value breaks: it is not in scope, or it is a function, which is no value here.
fn refusal_of_name(named: Named, line: u32) -> Option<Refused>
    ensures { result ≡ first (name_rules named line) }
{
    match named {
        Named::Missing => Some(refused(RefusedKind::UnknownName, line)),
        Named::Function => Some(refused(RefusedKind::WrongKind, line)),
        _ => None,
    }
}

/// The kind of a name's value. An array stands for a pointer to its first element (C11 6.3.2.1p3).
fn kind_of_name(named: Named) -> ValueKind
    ensures { result ≡ name_kind named }
{
    match named {
        Named::Missing => ValueKind::Unknown,
        Named::Local(kind) => kind_of(kind),
        Named::Scalar(number) => kind_of_number(number),
        Named::Array(number) => ValueKind::Pointer(number),
        Named::Grid(number) => ValueKind::Rows(number),
        Named::Function => ValueKind::Unknown,
    }
}

/// What a name designates: an array and a function are no targets.
fn object_of_name(named: Named) -> Object
    ensures { result ≡ name_object named }
{
    match named {
        Named::Local(kind) => Object::Variable(kind),
        Named::Scalar(number) => Object::Cell(number),
        _ => Object::ValueOnly,
    }
}

/// The kind of what stands behind a pointer of this kind.
pub fn kind_of_element(kind: ValueKind) -> ValueKind
    ensures { result ≡ element_kind kind }
{
    match kind {
        ValueKind::Pointer(number) => kind_of_number(number),
        ValueKind::Rows(number) => ValueKind::Pointer(number),
        _ => ValueKind::Unknown,
    }
}

/// What stands behind a pointer of this kind: a row of an array of two dimensions is no cell, and so no target.
fn object_of_element(kind: ValueKind) -> Object
    ensures { result ≡ element_object kind }
{
    match kind {
        ValueKind::Pointer(number) => Object::Cell(number),
        _ => Object::ValueOnly,
    }
}

/// `base[index]`
#[tactic(auto, using(crate::proofs::Firsts::firsts))]
pub(crate) fn index(line: u32, base: Finding, index: Finding) -> Finding
    ensures { (a : Findings) → (e : Findings) → base ≡ seen a → index ≡ seen e →
        result ≡ seen (index_findings line a e) }
{
    let base = at_place(Wanted::Indexed, base);
    let index = at_place(Wanted::Number, index);
    Finding {
        line,
        at_first: base.at_first,
        behind: before(base.behind, first_of(index)),
        kind: kind_of_element(base.kind),
        object: object_of_element(base.kind),
    }
}

/// A prefix operator and its operand.
#[tactic(auto, using(crate::proofs::Firsts::firsts))]
pub(crate) fn unary(line: u32, op: UnOp, operand: Finding) -> Finding
    ensures { (e : Findings) → operand ≡ seen e → result ≡ seen (unary_findings line op e) }
{
    match op {
        UnOp::Minus => same_kind(line, at_place(Wanted::Number, operand)),
        UnOp::Plus => same_kind(line, at_place(Wanted::Number, operand)),
        UnOp::Invert => same_kind(line, at_place(Wanted::Number, operand)),
        UnOp::Not => prefix(
            line,
            at_place(Wanted::Number, operand),
            ValueKind::Signed,
            Object::ValueOnly,
        ),
        UnOp::Deref => pointed_to(line, at_place(Wanted::Pointer, operand)),
        UnOp::Address => address(line, operand),
    }
}

/// An expression behind a prefix operator: its first token is the operator, so all that is broken stands behind that.
fn prefix(line: u32, operand: Finding, kind: ValueKind, object: Object) -> Finding
    ensures { (e : Findings) → operand ≡ seen e → result ≡ seen (prefixed line e kind object) }
{
    Finding {
        line,
        at_first: None,
        behind: first_of(operand),
        kind,
        object,
    }
}

/// An operator whose value is of the kind of its operand.
fn same_kind(line: u32, operand: Finding) -> Finding
    ensures { (e : Findings) → operand ≡ seen e → result ≡ seen (prefixed line e e.kind Object.ValueOnly) }
{
    prefix(line, operand, operand.kind, Object::ValueOnly)
}

/// `*p`, which designates the cell to which the pointer points.
fn pointed_to(line: u32, operand: Finding) -> Finding
    ensures { (e : Findings) → operand ≡ seen e → result ≡
        seen (prefixed line e (element_kind e.kind) (element_object e.kind)) }
{
    prefix(
        line,
        operand,
        kind_of_element(operand.kind),
        object_of_element(operand.kind),
    )
}

/// `&e`. Only a cell has an address: a local has no place in the memory that tasks share.
fn address(line: u32, operand: Finding) -> Finding
    ensures { (e : Findings) → operand ≡ seen e → result ≡
        seen (prefixed line (unless (has_address e.kind e.object) e) (address_kind e.kind e.object) Object.ValueOnly) }
{
    let kind = kind_of_address(operand.kind, operand.object);
    if may_have_address(operand.kind, operand.object) {
        prefix(line, operand, kind, Object::ValueOnly)
    } else {
        prefix(line, wrong(operand), kind, Object::ValueOnly)
    }
}

/// The kind of `&e`; unknown where it is refused, so that nothing more is.
fn kind_of_address(kind: ValueKind, object: Object) -> ValueKind
    ensures { result ≡ address_kind kind object }
{
    match (kind, object) {
        (ValueKind::Unknown, _) => ValueKind::Unknown,
        (_, Object::Cell(number)) => ValueKind::Pointer(number),
        _ => ValueKind::Unknown,
    }
}

/// Whether `&` may stand before an expression. One that is refused already is not refused again.
fn may_have_address(kind: ValueKind, object: Object) -> bool
    ensures { result ≡ has_address kind object }
{
    match (kind, object) {
        (ValueKind::Unknown, _) => true,
        (_, Object::Cell(_)) => true,
        _ => false,
    }
}

/// A binary operator and its operands.
#[tactic(auto, using(crate::proofs::Firsts::firsts))]
pub(crate) fn binary(line: u32, op: BinOp, left: Finding, right: Finding) -> Finding
    ensures { (a : Findings) → (b : Findings) → left ≡ seen a → right ≡ seen b →
        result ≡ seen (binary_findings line op a b) }
{
    let left = at_place(wanted_on_the_left(op), left);
    let right = at_place(Wanted::Number, right);
    Finding {
        line,
        at_first: left.at_first,
        behind: before(left.behind, first_of(right)),
        kind: kind_of_binary(op, left.kind, right.kind),
        object: Object::ValueOnly,
    }
}

/// What the left operand may be: a pointer before `+` and `-` alone, by which it moves.
fn wanted_on_the_left(op: BinOp) -> Wanted
    ensures { result ≡ left_wanted op }
{
    match op {
        BinOp::Add => Wanted::NumberOrPointer,
        BinOp::Sub => Wanted::NumberOrPointer,
        _ => Wanted::Number,
    }
}

/// The kind of a binary operator on operands of these kinds.
pub fn kind_of_binary(op: BinOp, left: ValueKind, right: ValueKind) -> ValueKind
    ensures { result ≡ binary_kind op left right }
{
    match op {
        BinOp::OrElse => ValueKind::Signed,
        BinOp::AndAlso => ValueKind::Signed,
        BinOp::Equal => ValueKind::Signed,
        BinOp::Differ => ValueKind::Signed,
        BinOp::Less => ValueKind::Signed,
        BinOp::LessEqual => ValueKind::Signed,
        BinOp::More => ValueKind::Signed,
        BinOp::MoreEqual => ValueKind::Signed,
        BinOp::Left => left,
        BinOp::Right => left,
        _ => kind_of_both(left, right),
    }
}

/// The kind of a value that comes from both operands: a number is unsigned where one of them is (C11 6.3.1.8).
fn kind_of_both(left: ValueKind, right: ValueKind) -> ValueKind
    ensures { result ≡ joined_kind left right }
{
    match left {
        ValueKind::Signed => right,
        ValueKind::Unsigned => unless_it_is_unknown(right, left),
        ValueKind::Pointer(_) => unless_it_is_unknown(right, left),
        ValueKind::Rows(_) => ValueKind::Unknown,
        ValueKind::Nothing => ValueKind::Unknown,
        ValueKind::Unknown => ValueKind::Unknown,
    }
}

/// This kind; unknown where that of the right operand is, so that what breaks a rule breaks no further one.
fn unless_it_is_unknown(right: ValueKind, kind: ValueKind) -> ValueKind
    ensures { result ≡ unless_unknown right kind }
{
    match right {
        ValueKind::Unknown => ValueKind::Unknown,
        _ => kind,
    }
}
