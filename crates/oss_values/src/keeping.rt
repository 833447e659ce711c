//! What cells and variables keep of values.
ghost use Rattle.std.specs.Prelude.{◌≡◌};
ghost use Rattle.oss_grammar.specs.Values.{kept};
ghost use Rattle.oss_meaning.specs.Operators.{kept_value};

use crate::number::number_in;
use oss_meaning::Value;
use oss_syntax::{Kind, NumKind};

/// What a cell of this type keeps of a number: an `int` the low 32 bits, read as signed and widened, and the others all
/// (C11 6.3.1.3).
pub fn keep(kind: NumKind, number: u64) -> u64
    ensures { result ≡ kept kind number }
{
    match kind {
        NumKind::Int => {
            let low = number % 0x1_0000_0000;
            if low < 0x8000_0000 {
                low
            } else {
                low + 0xffff_ffff_0000_0000
            }
        }
        NumKind::Long => number,
        NumKind::Ulong => number,
    }
}

/// What a variable of this type keeps of a value, as if by assignment (C11 6.5.16.1): of a number what a cell
/// of that type keeps, and of a pointer all.
pub fn convert(kind: Kind, value: Value) -> Value
    ensures { result ≡ kept_value kind value }
{
    match kind {
        Kind::Num(number) => Value::Num(keep(number, number_in(value))),
        Kind::Pointer(_) => value,
        Kind::Nothing => value,
    }
}
