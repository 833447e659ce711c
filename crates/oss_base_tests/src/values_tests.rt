//! What operators make of values: those of the table are what a C compiler made of the same numbers, with
//! arithmetic that wraps.

use oss_meaning::Value;
use oss_syntax::{BinOp, FaultKind, Kind, NumKind, UnOp};
use oss_values::{apply, convert, is_zero, keep, number_in, prefix, shift, truth_value};

/// Which operands are unsigned.
const SIGNED: (bool, bool) = (false, false);

/// The left operand alone.
const LEFT_UNSIGNED: (bool, bool) = (true, false);

/// The right operand alone.
const RIGHT_UNSIGNED: (bool, bool) = (false, true);

/// Both operands.
const UNSIGNED: (bool, bool) = (true, true);

/// The least number and the greatest one, read as signed.
const LEAST: u64 = 9_223_372_036_854_775_808;

/// The greatest number, read as signed.
const GREATEST: u64 = 9_223_372_036_854_775_807;

/// The number that is -1, read as signed.
const MINUS_ONE: u64 = u64::MAX;

/// An operator, which operands are unsigned, the operands, and what C makes of them.
const VALUES: [(BinOp, (bool, bool), u64, u64, u64); 84] = [
    (BinOp::Div, SIGNED, 7, 2, 3),
    (BinOp::Rem, SIGNED, 7, 2, 1),
    (
        BinOp::Div,
        SIGNED,
        18_446_744_073_709_551_609,
        2,
        18_446_744_073_709_551_613,
    ),
    (
        BinOp::Rem,
        SIGNED,
        18_446_744_073_709_551_609,
        2,
        18_446_744_073_709_551_615,
    ),
    (
        BinOp::Div,
        SIGNED,
        7,
        18_446_744_073_709_551_614,
        18_446_744_073_709_551_613,
    ),
    (BinOp::Rem, SIGNED, 7, 18_446_744_073_709_551_614, 1),
    (
        BinOp::Div,
        SIGNED,
        18_446_744_073_709_551_609,
        18_446_744_073_709_551_614,
        3,
    ),
    (
        BinOp::Rem,
        SIGNED,
        18_446_744_073_709_551_609,
        18_446_744_073_709_551_614,
        18_446_744_073_709_551_615,
    ),
    (BinOp::Div, SIGNED, LEAST, 3, 15_372_286_728_091_293_014),
    (BinOp::Rem, SIGNED, LEAST, 3, 18_446_744_073_709_551_614),
    (
        BinOp::Div,
        SIGNED,
        GREATEST,
        18_446_744_073_709_551_615,
        9_223_372_036_854_775_809,
    ),
    (BinOp::Rem, SIGNED, GREATEST, 18_446_744_073_709_551_615, 0),
    (BinOp::Div, SIGNED, 0, 5, 0),
    (BinOp::Rem, SIGNED, 0, 5, 0),
    (
        BinOp::Div,
        LEFT_UNSIGNED,
        18_446_744_073_709_551_609,
        2,
        9_223_372_036_854_775_804,
    ),
    (BinOp::Rem, RIGHT_UNSIGNED, 18_446_744_073_709_551_609, 2, 1),
    (BinOp::Div, LEFT_UNSIGNED, 7, 18_446_744_073_709_551_614, 0),
    (BinOp::Rem, RIGHT_UNSIGNED, 7, 18_446_744_073_709_551_614, 7),
    (
        BinOp::Div,
        LEFT_UNSIGNED,
        LEAST,
        18_446_744_073_709_551_615,
        0,
    ),
    (
        BinOp::Rem,
        RIGHT_UNSIGNED,
        LEAST,
        18_446_744_073_709_551_615,
        LEAST,
    ),
    (
        BinOp::Div,
        LEFT_UNSIGNED,
        GREATEST,
        2,
        4_611_686_018_427_387_903,
    ),
    (BinOp::Rem, RIGHT_UNSIGNED, GREATEST, 2, 1),
    (BinOp::Add, SIGNED, GREATEST, 1, LEAST),
    (BinOp::Add, SIGNED, 18_446_744_073_709_551_615, 1, 0),
    (BinOp::Add, SIGNED, LEAST, LEAST, 0),
    (BinOp::Add, SIGNED, 2, 3, 5),
    (BinOp::Sub, SIGNED, LEAST, 1, GREATEST),
    (BinOp::Sub, SIGNED, 0, 1, 18_446_744_073_709_551_615),
    (BinOp::Sub, SIGNED, 3, 5, 18_446_744_073_709_551_614),
    (BinOp::Sub, UNSIGNED, 0, 1, 18_446_744_073_709_551_615),
    (BinOp::Mul, SIGNED, GREATEST, 2, 18_446_744_073_709_551_614),
    (BinOp::Mul, SIGNED, LEAST, 18_446_744_073_709_551_615, LEAST),
    (
        BinOp::Mul,
        SIGNED,
        18_446_744_073_709_551_613,
        5,
        18_446_744_073_709_551_601,
    ),
    (BinOp::Mul, SIGNED, 4_294_967_296, 4_294_967_296, 0),
    (
        BinOp::Mul,
        SIGNED,
        18_446_744_073_709_551_615,
        18_446_744_073_709_551_615,
        1,
    ),
    (BinOp::Mul, UNSIGNED, LEAST, 3, LEAST),
    (BinOp::Left, SIGNED, 1, 63, LEAST),
    (
        BinOp::Left,
        SIGNED,
        18_446_744_073_709_551_615,
        1,
        18_446_744_073_709_551_614,
    ),
    (BinOp::Left, SIGNED, 3, 62, 13_835_058_055_282_163_712),
    (BinOp::Left, SIGNED, 5, 0, 5),
    (BinOp::Left, LEFT_UNSIGNED, LEAST, 1, 0),
    (
        BinOp::Right,
        SIGNED,
        18_446_744_073_709_551_615,
        1,
        18_446_744_073_709_551_615,
    ),
    (
        BinOp::Right,
        SIGNED,
        18_446_744_073_709_551_608,
        1,
        18_446_744_073_709_551_612,
    ),
    (BinOp::Right, SIGNED, LEAST, 63, 18_446_744_073_709_551_615),
    (BinOp::Right, SIGNED, GREATEST, 62, 1),
    (
        BinOp::Right,
        SIGNED,
        18_446_744_073_709_551_611,
        0,
        18_446_744_073_709_551_611,
    ),
    (BinOp::Right, SIGNED, 9, 3, 1),
    (
        BinOp::Right,
        LEFT_UNSIGNED,
        18_446_744_073_709_551_615,
        1,
        GREATEST,
    ),
    (
        BinOp::Right,
        RIGHT_UNSIGNED,
        18_446_744_073_709_551_608,
        1,
        18_446_744_073_709_551_612,
    ),
    (BinOp::Right, LEFT_UNSIGNED, LEAST, 63, 1),
    (BinOp::Less, SIGNED, 18_446_744_073_709_551_615, 1, 1),
    (BinOp::More, SIGNED, 18_446_744_073_709_551_615, 1, 0),
    (BinOp::Less, SIGNED, LEAST, GREATEST, 1),
    (BinOp::More, SIGNED, LEAST, GREATEST, 0),
    (BinOp::Less, SIGNED, 3, 3, 0),
    (BinOp::More, SIGNED, 3, 3, 0),
    (BinOp::Less, SIGNED, 1, 18_446_744_073_709_551_615, 0),
    (BinOp::More, SIGNED, 1, 18_446_744_073_709_551_615, 1),
    (BinOp::Less, LEFT_UNSIGNED, 18_446_744_073_709_551_615, 1, 0),
    (
        BinOp::More,
        RIGHT_UNSIGNED,
        18_446_744_073_709_551_615,
        1,
        1,
    ),
    (BinOp::LessEqual, SIGNED, 3, 3, 1),
    (BinOp::LessEqual, UNSIGNED, 18_446_744_073_709_551_615, 1, 0),
    (BinOp::MoreEqual, SIGNED, 18_446_744_073_709_551_615, 1, 0),
    (
        BinOp::MoreEqual,
        LEFT_UNSIGNED,
        18_446_744_073_709_551_615,
        1,
        1,
    ),
    (
        BinOp::LessEqual,
        SIGNED,
        LEAST,
        18_446_744_073_709_551_615,
        1,
    ),
    (BinOp::MoreEqual, SIGNED, 2, 3, 0),
    (
        BinOp::Equal,
        SIGNED,
        18_446_744_073_709_551_615,
        18_446_744_073_709_551_615,
        1,
    ),
    (
        BinOp::Equal,
        RIGHT_UNSIGNED,
        18_446_744_073_709_551_615,
        18_446_744_073_709_551_615,
        1,
    ),
    (BinOp::Equal, SIGNED, 0, 1, 0),
    (BinOp::Differ, SIGNED, 1, 2, 1),
    (BinOp::Differ, SIGNED, LEAST, LEAST, 0),
    (
        BinOp::Or,
        SIGNED,
        18_446_744_073_709_551_615,
        12,
        18_446_744_073_709_551_615,
    ),
    (BinOp::Or, UNSIGNED, 10, 12, 14),
    (
        BinOp::Or,
        SIGNED,
        LEAST,
        GREATEST,
        18_446_744_073_709_551_615,
    ),
    (
        BinOp::Xor,
        SIGNED,
        18_446_744_073_709_551_615,
        12,
        18_446_744_073_709_551_603,
    ),
    (BinOp::Xor, UNSIGNED, 10, 12, 6),
    (
        BinOp::Xor,
        SIGNED,
        LEAST,
        GREATEST,
        18_446_744_073_709_551_615,
    ),
    (BinOp::And, SIGNED, 18_446_744_073_709_551_615, 12, 12),
    (BinOp::And, UNSIGNED, 10, 12, 8),
    (BinOp::And, SIGNED, LEAST, GREATEST, 0),
    (BinOp::AndAlso, SIGNED, 2, 0, 0),
    (BinOp::AndAlso, SIGNED, 18_446_744_073_709_551_615, 3, 1),
    (BinOp::OrElse, SIGNED, 0, 0, 0),
    (BinOp::OrElse, SIGNED, 0, 18_446_744_073_709_551_611, 1),
];

/// The faults, and what the language says where C leaves it open: the least number divided by -1.
const FAULTS: [(BinOp, (bool, bool), u64, u64, Result<u64, FaultKind>); 10] = [
    (BinOp::Div, SIGNED, 1, 0, Err(FaultKind::DivideByZero)),
    (BinOp::Rem, UNSIGNED, 1, 0, Err(FaultKind::DivideByZero)),
    (BinOp::Div, SIGNED, LEAST, MINUS_ONE, Ok(LEAST)),
    (BinOp::Rem, SIGNED, LEAST, MINUS_ONE, Ok(0)),
    (BinOp::Left, SIGNED, 1, 64, Err(FaultKind::ShiftRange)),
    (
        BinOp::Left,
        SIGNED,
        1,
        MINUS_ONE,
        Err(FaultKind::ShiftRange),
    ),
    (BinOp::Right, SIGNED, 1, 64, Err(FaultKind::ShiftRange)),
    (BinOp::Right, UNSIGNED, 1, LEAST, Err(FaultKind::ShiftRange)),
    (BinOp::Left, SIGNED, 1, 63, Ok(LEAST)),
    (BinOp::Right, UNSIGNED, LEAST, 63, Ok(1)),
];

/// What the operator makes of two numbers.
fn applied(
    operator: BinOp,
    unsigned: (bool, bool),
    left: u64,
    right: u64,
) -> Result<Value, FaultKind> {
    apply(
        operator,
        unsigned.0,
        unsigned.1,
        Value::Num(left),
        Value::Num(right),
    )
}

#[test]
fn operators_make_what_a_compiler_makes(rt: HostRuntime) {
    for (operator, unsigned, left, right, value) in VALUES.iter() {
        let made = applied(*operator, *unsigned, *left, *right);
        assert!(rt; made == Ok(Value::Num(*value)));
    }
}

#[test]
fn faults_and_what_c_leaves_open(rt: HostRuntime) {
    for (operator, unsigned, left, right, wanted) in FAULTS.iter() {
        let made = applied(*operator, *unsigned, *left, *right);
        let wanted = match *wanted {
            Ok(value) => Ok(Value::Num(value)),
            Err(kind) => Err(kind),
        };
        assert!(rt; made == wanted);
    }
}

#[test]
fn variables_and_prefixes(rt: HostRuntime) {
    assert!(rt; keep(NumKind::Int, 2_147_483_648) == 18_446_744_071_562_067_968);
    assert!(rt; keep(NumKind::Int, 4_294_967_301) == 5);
    assert!(rt; keep(NumKind::Long, 2_147_483_648) == 2_147_483_648);
    assert!(rt; keep(NumKind::Ulong, MINUS_ONE) == MINUS_ONE);
    let int = Kind::Num(NumKind::Int);
    assert!(rt; convert(int, Value::Num(4_294_967_295)) == Value::Num(MINUS_ONE));
    let pointer = Kind::Pointer(NumKind::Int);
    assert!(rt; convert(pointer, Value::Place(2, -1)) == Value::Place(2, -1));
    assert!(rt; prefix(UnOp::Minus, Value::Num(LEAST)) == Value::Num(LEAST));
    assert!(rt; prefix(UnOp::Minus, Value::Num(1)) == Value::Num(MINUS_ONE));
    assert!(rt; prefix(UnOp::Not, Value::Num(7)) == Value::Num(0));
    assert!(rt; prefix(UnOp::Not, Value::Num(0)) == Value::Num(1));
    assert!(rt; prefix(UnOp::Invert, Value::Num(0)) == Value::Num(MINUS_ONE));
    assert!(rt; prefix(UnOp::Plus, Value::Num(9)) == Value::Num(9));
    assert!(rt; truth_value(Value::Num(9)) == Value::Num(1));
    assert!(rt; is_zero(Value::Num(0)));
    assert!(rt; number_in(Value::Num(4)) == 4);
}

#[test]
fn pointers_leave_their_array_and_come_back(rt: HostRuntime) {
    let first = Value::Place(1, 0);
    let before = shift(true, first, Value::Num(1));
    assert!(rt; before == Value::Place(1, -1));
    assert!(rt; shift(false, before, Value::Num(3)) == Value::Place(1, 2));
    assert!(rt; shift(false, first, Value::Num(LEAST)) == Value::Place(1, i64::MIN));
    assert!(rt;
        shift(false, Value::Place(1, i64::MAX), Value::Num(1)) == Value::Place(1, i64::MIN)
    );
    assert!(rt; shift(false, Value::Nowhere, Value::Num(1)) == Value::Nowhere);
}
