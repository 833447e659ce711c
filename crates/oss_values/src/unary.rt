//! Prefix operators, and the truth of a value.
ghost use Rattle.std.specs.Prelude.{◌≡◌};
ghost use Rattle.oss_meaning.specs.Operators.{prefixed, truth_of};

use crate::number::{is_zero, negated, number_in, number_of};
use oss_meaning::Value;
use oss_syntax::UnOp;

/// What a prefix operator makes of a number (C11 6.5.3.3): `-`, `!` and `~`. Every other one leaves the value as it is.
pub fn prefix(operator: UnOp, value: Value) -> Value
    ensures { result ≡ prefixed operator value }
{
    match operator {
        UnOp::Minus => Value::Num(negated(number_in(value))),
        UnOp::Plus => value,
        UnOp::Not => Value::Num(number_of(is_zero(value))),
        UnOp::Invert => Value::Num(u64::MAX - number_in(value)),
        UnOp::Deref => value,
        UnOp::Address => value,
    }
}

/// 1 for a value that is not 0, and 0.
pub fn truth_value(value: Value) -> Value
    ensures { result ≡ truth_of value }
{
    if is_zero(value) {
        Value::Num(0)
    } else {
        Value::Num(1)
    }
}
