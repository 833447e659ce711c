//! The arithmetic of reductions: what an operator makes of two values, and its neutral value.

ghost use Rattle.std.specs.Prelude.{◌≡◌};
ghost use Rattle.oss_model.specs.Moves.{combine, neutral_value};

use oss_syntax::Op;

/// The value that changes no other when it is combined with it.
pub(crate) fn neutral(op: Op) -> u64
    ensures { result ≡ neutral_value op }
{
    match op {
        Op::And => u64::MAX,
        Op::Add => 0,
        Op::Or => 0,
        Op::Xor => 0,
    }
}

/// What a fold makes of the value in a cell or a slot (C11 6.5.6, 6.5.10 to 6.5.12, for 64 bits without sign).
pub fn combined(op: Op, held: u64, value: u64) -> u64
    ensures { result ≡ combine op held value }
{
    match op {
        Op::Add => held.wrapping_add(value),
        Op::And => held & value,
        Op::Or => held | value,
        Op::Xor => held ^ value,
    }
}
