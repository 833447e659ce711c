//! Numbers of 64 bits, read as signed or as unsigned.
ghost use Rattle.std.specs.Prelude.{◌≡◌, ◌≢◌, ◌<◌, if◌then◌else◌};
ghost use Rattle.oss_grammar.specs.Values.{differ, is_less, is_negative, magnitude, negated, quotient, remainder, shifted_right, with_sign};
ghost use Rattle.oss_meaning.specs.Operators.{is_zero};
ghost use Rattle.oss_meaning.specs.Pointers.{number_in};

use oss_meaning::Value;

/// The least number that is negative where it is read as signed.
const SIGN: u64 = 0x8000_0000_0000_0000;

/// The number that a value is. A pointer is none, and counts as 0.
pub fn number_in(value: Value) -> u64
    ensures { result ≡ number_in value }
{
    match value {
        Value::Num(number) => number,
        Value::Place(_, _) => 0,
        Value::Nowhere => 0,
    }
}

/// Whether a value is 0, so that a test of it fails (C11 6.8.4.1).
pub fn is_zero(value: Value) -> bool
    ensures { result ≡ is_zero value }
{
    number_in(value) == 0
}

/// 1 for what holds, and 0.
pub(crate) fn number_of(holds: bool) -> u64
    ensures { result ≡ (if holds then 1 else 0) }
{
    if holds { 1 } else { 0 }
}

/// Whether a number is negative, read as signed.
pub(crate) fn is_negative(number: u64) -> bool
    ensures { result ≡ is_negative number }
{
    SIGN <= number
}

/// The number that a sum with this one makes 0, modulo 2^64.
pub(crate) fn negated(number: u64) -> u64
    ensures { result ≡ negated number }
{
    0u64.wrapping_sub(number)
}

/// How far a number, read as signed, is from 0.
pub(crate) fn magnitude(number: u64) -> u64
    ensures { result ≡ magnitude number }
{
    if is_negative(number) {
        u64::MAX - number + 1
    } else {
        number
    }
}

/// Whether the first number is less than the second, both read as unsigned or both as signed.
pub(crate) fn is_less(unsigned: bool, left: u64, right: u64) -> bool
    ensures { result ≡ is_less unsigned left right }
{
    if unsigned {
        left < right
    } else {
        left.wrapping_add(SIGN) < right.wrapping_add(SIGN)
    }
}

/// A magnitude with a sign.
fn with_sign(negative: bool, magnitude: u64) -> u64
    ensures { result ≡ with_sign negative magnitude }
{
    if negative {
        negated(magnitude)
    } else {
        magnitude
    }
}

/// Whether one of the two holds alone.
fn differ(one: bool, other: bool) -> bool
    ensures { result ≡ differ one other }
{
    if one { !other } else { other }
}

/// The quotient of two numbers, truncated toward zero (C11 6.5.5p6). Condition: the divisor is not 0.
pub(crate) fn quotient(unsigned: bool, left: u64, right: u64) -> u64
    requires { right ≢ 0 }
    ensures { result ≡ quotient unsigned left right }
{
    if unsigned {
        left / right
    } else {
        let negative = differ(is_negative(left), is_negative(right));
        let divisor = magnitude(right);
        with_sign(negative, magnitude(left) / divisor)
    }
}

/// The remainder of two numbers, with the sign of the left one (C11 6.5.5p6). Condition: the divisor is not 0.
pub(crate) fn remainder(unsigned: bool, left: u64, right: u64) -> u64
    requires { right ≢ 0 }
    ensures { result ≡ remainder unsigned left right }
{
    if unsigned {
        left % right
    } else {
        let divisor = magnitude(right);
        with_sign(is_negative(left), magnitude(left) % divisor)
    }
}

/// A number shifted to the right, which keeps its sign where it is signed (C11 6.5.7p5).
pub(crate) fn shifted_right(unsigned: bool, number: u64, count: u32) -> u64
    requires { count < 64 }
    ensures { result ≡ shifted_right unsigned number count }
{
    if unsigned {
        number >> count
    } else if is_negative(number) {
        u64::MAX - ((u64::MAX - number) >> count)
    } else {
        number >> count
    }
}
