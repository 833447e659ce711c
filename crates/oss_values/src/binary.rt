//! Binary operators on numbers.
ghost use Rattle.std.specs.Prelude.{◌≡◌, ◌*◌, ◌^◌, Ok};
ghost use Rattle.oss_grammar.specs.Values.{divided, quotient, remainder, shifted, shifted_right, signed_number, truth, wrapped};
ghost use Rattle.oss_meaning.specs.Operators.{applied_to, as_value};

use crate::number::{is_less, number_in, number_of, quotient, remainder, shifted_right};
use oss_meaning::Value;
use oss_syntax::{BinOp, FaultKind};

/// What a binary operator makes of two numbers, both evaluated (C11 6.5.5 to 6.5.14): it is unsigned where one
/// of them is, and a shift where the left one is. A pointer counts as 0. A right operand of 0 is the fault
/// DivideByZero of `/` and `%`, and a shift count of 64 or more is ShiftRange. Everything else is computed
/// modulo 2^64.
pub fn apply(
    operator: BinOp,
    left_unsigned: bool,
    right_unsigned: bool,
    left: Value,
    right: Value,
) -> Result<Value, FaultKind>
    ensures { result ≡ applied_to operator left_unsigned right_unsigned left right }
{
    let unsigned = left_unsigned || right_unsigned;
    let a = number_in(left);
    let b = number_in(right);
    match operator {
        BinOp::OrElse => truth(a != 0 || b != 0),
        BinOp::AndAlso => truth(!(a == 0 || b == 0)),
        BinOp::Or => Ok(Value::Num(a | b)),
        BinOp::Xor => Ok(Value::Num(a ^ b)),
        BinOp::And => Ok(Value::Num(a & b)),
        BinOp::Equal => truth(a == b),
        BinOp::Differ => truth(a != b),
        BinOp::Less => truth(is_less(unsigned, a, b)),
        BinOp::LessEqual => truth(!is_less(unsigned, b, a)),
        BinOp::More => truth(is_less(unsigned, b, a)),
        BinOp::MoreEqual => truth(!is_less(unsigned, a, b)),
        BinOp::Left => shift_left(a, b),
        BinOp::Right => shift_right(left_unsigned, a, b),
        BinOp::Add => Ok(Value::Num(a.wrapping_add(b))),
        BinOp::Sub => Ok(Value::Num(a.wrapping_sub(b))),
        BinOp::Mul => Ok(Value::Num(a.wrapping_mul(b))),
        BinOp::Div => divide(unsigned, a, b),
        BinOp::Rem => rest(unsigned, a, b),
    }
}

/// 1 for what holds, and 0.
fn truth(holds: bool) -> Result<Value, FaultKind>
    ensures { result ≡ as_value (Ok (truth holds)) }
{
    Ok(Value::Num(number_of(holds)))
}

/// A number shifted to the left, modulo 2^64; or the fault.
fn shift_left(number: u64, count: u64) -> Result<Value, FaultKind>
    ensures { result ≡ as_value (shifted count (signed_number (wrapped (number * 2 ^ count)))) }
{
    if 64 <= count {
        return Err(FaultKind::ShiftRange);
    }
    Ok(Value::Num(number.strict_shl(count as u32)))
}

/// A number shifted to the right, read as signed or as unsigned; or the fault.
fn shift_right(unsigned: bool, number: u64, count: u64) -> Result<Value, FaultKind>
    ensures { result ≡ as_value (shifted count (signed_number (shifted_right unsigned number count))) }
{
    if 64 <= count {
        return Err(FaultKind::ShiftRange);
    }
    Ok(Value::Num(shifted_right(unsigned, number, count as u32)))
}

/// The quotient of two numbers, or the fault.
fn divide(unsigned: bool, left: u64, right: u64) -> Result<Value, FaultKind>
    ensures { result ≡ as_value (divided right (signed_number (quotient unsigned left right))) }
{
    if right == 0 {
        return Err(FaultKind::DivideByZero);
    }
    Ok(Value::Num(quotient(unsigned, left, right)))
}

/// The remainder of two numbers, or the fault.
fn rest(unsigned: bool, left: u64, right: u64) -> Result<Value, FaultKind>
    ensures { result ≡ as_value (divided right (signed_number (remainder unsigned left right))) }
{
    if right == 0 {
        return Err(FaultKind::DivideByZero);
    }
    Ok(Value::Num(remainder(unsigned, left, right)))
}
