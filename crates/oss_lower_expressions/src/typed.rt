//! What the text tells of an expression.
ghost use Rattle.std.specs.Prelude.{◌≡◌};
ghost use Rattle.oss_meaning.specs.Expressions.{typed_address, typed_cell, typed_name, typed_number, typed_pointed, typed_value};
ghost use Rattle.oss_meaning.specs.Operators.{is_back, is_pointer, is_unsigned_kind};
ghost use Rattle.oss_lower_laws.specs.ExpressionCode.{direction_of, operator_by};

use oss_code::{Direction, Instr, Operator};
use oss_grammar::ValueKind;
use oss_meaning::{Found, Target, Typed};
use oss_syntax::{BinOp, NumKind};
use oss_types::{kind_of, kind_of_element, kind_of_number};

/// A value of this kind, which designates nothing.
pub fn typed_value(kind: ValueKind) -> Typed
    ensures { result ≡ typed_value kind }
{
    Typed {
        kind,
        target: Target::Nothing,
    }
}

/// A number, unsigned or not.
pub fn typed_number(unsigned: bool) -> Typed
    ensures { result ≡ typed_number unsigned }
{
    if unsigned {
        typed_value(ValueKind::Unsigned)
    } else {
        typed_value(ValueKind::Signed)
    }
}

/// A cell of this type, and the number in it.
pub fn typed_cell(kind: NumKind) -> Typed
    ensures { result ≡ typed_cell kind }
{
    Typed {
        kind: kind_of_number(kind),
        target: Target::Cell(kind),
    }
}

/// A name that stands for this.
pub fn typed_name(found: Found) -> Typed
    ensures { result ≡ typed_name found }
{
    match found {
        Found::Variable(slot, kind) => Typed {
            kind: kind_of(kind),
            target: Target::Local(slot, kind),
        },
        Found::Scalar(_, kind) => typed_cell(kind),
        Found::Array(_, kind) => typed_value(ValueKind::Pointer(kind)),
        Found::Grid(global, kind) => Typed {
            kind: ValueKind::Rows(kind),
            target: Target::Grid(global, kind),
        },
        Found::Function(_) => typed_value(ValueKind::Unknown),
        Found::Unknown => typed_value(ValueKind::Unknown),
    }
}

/// What stands behind a pointer of this kind.
pub fn typed_pointed(kind: ValueKind) -> Typed
    ensures { result ≡ typed_pointed kind }
{
    let target = match kind {
        ValueKind::Pointer(number) => Target::Cell(number),
        _ => Target::Nothing,
    };
    Typed {
        kind: kind_of_element(kind),
        target,
    }
}

/// The address of what an expression designates.
pub fn typed_address(target: Target) -> Typed
    ensures { result ≡ typed_address target }
{
    match target {
        Target::Cell(kind) => typed_value(ValueKind::Pointer(kind)),
        _ => typed_value(ValueKind::Unknown),
    }
}

/// The instruction of a binary operator on operands of these kinds.
pub fn operator(op: BinOp, left: ValueKind, right: ValueKind) -> Instr
    ensures { result ≡ operator_by op left right }
{
    if is_pointer(left) {
        Instr::Move(direction(op))
    } else {
        Instr::Apply(Operator {
            op,
            left_unsigned: is_unsigned(left),
            right_unsigned: is_unsigned(right),
        })
    }
}

/// Which way an operator moves a pointer.
fn direction(op: BinOp) -> Direction
    ensures { result ≡ direction_of (is_back op) }
{
    match op {
        BinOp::Sub => Direction::Back,
        _ => Direction::Forth,
    }
}

/// Whether arithmetic on the value moves a pointer, so that it counts elements.
fn is_pointer(kind: ValueKind) -> bool
    ensures { result ≡ is_pointer kind }
{
    match kind {
        ValueKind::Pointer(_) => true,
        _ => false,
    }
}

/// Whether operators read the value as unsigned, which its 64 bits alone do not tell.
fn is_unsigned(kind: ValueKind) -> bool
    ensures { result ≡ is_unsigned_kind kind }
{
    match kind {
        ValueKind::Unsigned => true,
        _ => false,
    }
}
