//! Rushes through calls and returns, in mains that were worked by hand: `x = f(n)` with a function `f(k)` that gives `k + 1` by
//! calling itself `k` times, so that all of these return with no act between them.

ghost use Rattle.std.specs.Prelude.{◌≡◌, false};
ghost use Rattle.oss_body.specs.Relation.{is_over};

use oss_body::{Act, Body, main_body};
use oss_code::{Code, CodeParts, GlobalPlace, Instr, Operator};
use oss_syntax::{BinOp, Cells, FaultKind, List, NumKind, Range};
use std::process::Abort;

/// A list of these numbers.
fn numbers(rt: &(impl Abort + AllocGlobal), numbers: &[u32]) -> List<u32> {
    List::from_vec(Vec::from_slice(rt.alloc(), numbers).expect(rt, "memory"))
}

/// An operator on two signed numbers.
fn signed(op: BinOp) -> Instr {
    Instr::Apply(Operator {
        op,
        left_unsigned: false,
        right_unsigned: false,
    })
}

/// A call of `f`.
fn call() -> Instr {
    Instr::Call {
        function: 0,
        arguments: 1,
    }
}

/// The code of `x = f(n)`, in which `f(0)` does this with 1 and 0. Each instruction has a line of its own: the call in main
/// the third, that in `f` the twelfth, and what is done with 1 and 0 the eighteenth. The cell has 9 at the start.
fn code(rt: &(impl Abort + AllocGlobal), n: u64, last: BinOp) -> Code {
    let instrs = [
        Instr::Address(0),
        Instr::Push(n),
        call(),
        Instr::Store(NumKind::Long),
        Instr::Nothing,
        Instr::Return,
        Instr::Local(0),
        Instr::SkipUnless(7),
        Instr::Local(0),
        Instr::Push(1),
        signed(BinOp::Sub),
        call(),
        Instr::Push(1),
        signed(BinOp::Add),
        Instr::Return,
        Instr::Push(1),
        Instr::Push(0),
        signed(last),
        Instr::Return,
    ];
    let globals = [GlobalPlace {
        range: Range { lo: 0, hi: 1 },
        columns: None,
    }];
    let lines = [
        1, 2, 3, 4, 5, 6, 7, 8, 9, 10, 11, 12, 13, 14, 15, 16, 17, 18, 19,
    ];
    let depths = [0, 1, 2, 2, 0, 1, 0, 1, 0, 1, 2, 1, 1, 2, 1, 0, 1, 2, 1];
    let parts = CodeParts {
        instrs: List::from_vec(Vec::from_array(rt.alloc(), instrs).expect(rt, "memory")),
        lines: numbers(rt, &lines),
        depths: numbers(rt, &depths),
        first: Cells::from_vec(vec![in rt.alloc(); 9].expect(rt, "memory")),
        globals: List::from_vec(Vec::from_slice(rt.alloc(), &globals).expect(rt, "memory")),
        functions: numbers(rt, &[6]),
    };
    Code::build(rt.alloc(), parts).expect(rt, "a code")
}

/// Main with fuel for so many ticks makes so many acts in one rush. Behind it the cell has this value, and this fault stands
/// next, on this line, or the end if there is none.
fn assert_rush(
    rt: &(impl Abort + AllocGlobal),
    code: &Code,
    fuel: u32,
    acts: u64,
    value: u64,
    fault: Option<(FaultKind, u32)>,
) {
    assert!(rt; code.first().len() <= 1_048_576);
    let mut body = main_body(rt.alloc(), code, fuel).expect(rt, "memory");
    let mut cells = vec![in rt.alloc(); 9].expect(rt, "memory");
    assert!(rt; !body.ended());
    let count = body.rush(code, &mut cells, 1000);
    assert_eq!(rt; count, acts);
    assert!(rt; cells.as_slice() == [value].as_slice());
    assert!(rt; is_before(&body, fault));
    drop(body);
}

/// Whether this fault stands next, or the end if there is none.
fn is_before(body: &Body, fault: Option<(FaultKind, u32)>) -> bool
    requires { is_over body.now ≡ false }
{
    match (body.pending(), fault) {
        (Act::Fault { kind, line, .. }, Some((wanted, at))) => *kind == wanted && *line == at,
        (Act::End, None) => true,
        _ => false,
    }
}

/// Four calls, and the store behind all their returns.
#[test]
fn goes_through_calls_and_returns(rt: HostRuntime) {
    let code = code(&rt, 3, BinOp::Sub);
    assert_rush(&rt, &code, 100, 5, 4, None);
    drop(code);
}

/// The innermost function fails, on its line.
#[test]
fn stops_before_a_fault_in_a_function(rt: HostRuntime) {
    let code = code(&rt, 2, BinOp::Div);
    assert_rush(&rt, &code, 100, 3, 9, Some((FaultKind::DivideByZero, 18)));
    drop(code);
}

/// The tick for which there is no fuel is that of a call.
#[test]
fn stops_before_a_call_without_fuel(rt: HostRuntime) {
    let code = code(&rt, 3, BinOp::Sub);
    assert_rush(&rt, &code, 3, 3, 9, Some((FaultKind::OutOfFuel, 12)));
    assert_rush(&rt, &code, 0, 0, 9, Some((FaultKind::OutOfFuel, 3)));
    drop(code);
}

/// Main and 255 calls of `f` are open at once.
#[test]
fn goes_as_deep_as_may_be(rt: HostRuntime) {
    let code = code(&rt, 254, BinOp::Sub);
    assert_rush(&rt, &code, 1000, 256, 255, None);
    drop(code);
}

/// One more is too deep: its tick is counted, and behind it stands the fault.
#[test]
fn goes_no_deeper(rt: HostRuntime) {
    let code = code(&rt, 255, BinOp::Sub);
    assert!(rt; code.first().len() <= 1_048_576);
    let mut body = main_body(rt.alloc(), &code, 1000).expect(&rt, "memory");
    let mut cells = vec![in rt.alloc(); 9].expect(&rt, "memory");
    assert!(rt; !body.ended());
    let count = body.rush(&code, &mut cells, 1000);
    assert_eq!(rt; count, 255);
    assert!(rt; matches!(body.pending(), Act::Tick));
    assert!(rt; !matches!(body.pending(), Act::Fault { .. }));
    body.advance(&code, 0).expect(&rt, "memory");
    assert!(rt; !body.ended());
    assert!(rt; is_before(&body, Some((FaultKind::TooDeep, 12))));
    drop(body);
    drop(code);
}
