//! Pointers that move.
ghost use Rattle.std.specs.Prelude.{◌≡◌};
ghost use Rattle.oss_grammar.specs.SectionCells.{signed};
ghost use Rattle.oss_meaning.specs.Pointers.{moved, moved_index, unsigned_of};

use crate::number::number_in;
use oss_meaning::Value;

/// A pointer that is moved back or forth by a number of cells, modulo 2^64 (C11 6.5.6p8). What is no pointer to
/// a global points nowhere then.
pub fn shift(back: bool, pointer: Value, by: Value) -> Value
    ensures { result ≡ moved back pointer by }
{
    match pointer {
        Value::Place(global, index) => Value::Place(
            global,
            shifted_index(back, index, number_in(by)),
        ),
        Value::Num(_) => Value::Nowhere,
        Value::Nowhere => Value::Nowhere,
    }
}

/// An index that is moved back or forth.
fn shifted_index(back: bool, index: i64, by: u64) -> i64
    ensures { result ≡ moved_index back index by }
{
    let from = unsigned(index);
    if back {
        signed(from.wrapping_sub(by))
    } else {
        signed(from.wrapping_add(by))
    }
}

/// The number of 64 bits that is this number, read as signed.
pub fn unsigned(number: i64) -> u64
    ensures { result ≡ unsigned_of number }
{
    number.cast_unsigned()
}

/// A number of 64 bits, read as signed.
pub fn signed(number: u64) -> i64
    ensures { result ≡ signed number }
{
    number.cast_signed()
}
