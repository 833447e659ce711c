//! A main that was worked by hand, with each row of instructions that is run as one, and each kind of touch: a rush over it comes to the same as the
//! plain steps of its machine.

use oss_body::memory::{set, value_at, word};
use oss_body::{Body, main_body};
use oss_code::{Code, CodeParts, Direction, GlobalPlace, Instr, Operator, TaskOrder};
use oss_machine::{Ask, Machine};
use oss_syntax::{BinOp, Cells, Kind, List, NumKind, Range};
use std::process::Abort;

/// A list of these numbers.
fn numbers(rt: &(impl Abort + AllocGlobal), numbers: &[u32]) -> List<u32> {
    List::from_vec(Vec::from_slice(rt.alloc(), numbers).expect(rt, "memory"))
}

/// An operator on two signed numbers.
fn signed(op: BinOp) -> Instr {
    Instr::Apply(Operator {
        op,
        left_unsigned: false,
        right_unsigned: false,
    })
}

/// A number is kept in a local.
fn set_local(slot: u32) -> Instr {
    Instr::SetLocal(slot, Kind::Num(NumKind::Long))
}

/// `long i = 0, s = 10;`, and the head of `while (i < s && i < 3)`.
fn head() -> [Instr; 13] {
    [
        Instr::Push(0),
        Instr::Bind(Kind::Num(NumKind::Long)),
        Instr::Push(10),
        Instr::Bind(Kind::Num(NumKind::Long)),
        Instr::Tick,
        Instr::Local(0),
        Instr::Local(1),
        signed(BinOp::Less),
        Instr::SkipUnless(33),
        Instr::Local(0),
        Instr::Push(3),
        signed(BinOp::Less),
        Instr::SkipUnless(29),
    ]
}

/// `a[i] = (a[i] + s) * 2 + (i - 7);` over an array of three cells.
fn assignment() -> [Instr; 16] {
    [
        Instr::Address(0),
        Instr::Local(0),
        Instr::Move(Direction::Forth),
        Instr::Address(0),
        Instr::Local(0),
        Instr::Move(Direction::Forth),
        Instr::Load,
        Instr::Local(1),
        signed(BinOp::Add),
        Instr::Push(2),
        signed(BinOp::Mul),
        Instr::Local(0),
        Instr::Push(7),
        signed(BinOp::Sub),
        signed(BinOp::Add),
        Instr::Store(NumKind::Long),
    ]
}

/// `s = s + i * 3; i = i + 1;`, a jump over nothing, what keeps both locals, and the end of the loop and of main.
fn tail() -> [Instr; 15] {
    [
        Instr::Local(1),
        Instr::Local(0),
        Instr::Push(3),
        signed(BinOp::Mul),
        signed(BinOp::Add),
        set_local(1),
        Instr::Local(0),
        Instr::Push(1),
        signed(BinOp::Add),
        set_local(0),
        Instr::Skip(0),
        Instr::Keep(2),
        Instr::Again(37),
        Instr::Push(0),
        Instr::Return,
    ]
}

/// Puts an instruction behind others.
fn add(rt: &impl Abort, instrs: &mut Vec<Instr>, instr: Instr) {
    assert!(rt; instrs.push(instr).is_ok());
}

/// All of them.
fn instructions(rt: &(impl Abort + AllocGlobal)) -> Vec<Instr> {
    let mut instrs = Vec::new(rt.alloc());
    for instr in head() {
        add(rt, &mut instrs, instr);
    }
    for instr in assignment() {
        add(rt, &mut instrs, instr);
    }
    for instr in tail() {
        add(rt, &mut instrs, instr);
    }
    instrs
}

/// How many values there are before each of them.
const DEPTHS: [u32; 44] = [
    0, 1, 0, 1, 0, 0, 1, 2, 1, 0, 1, 2, 1, 0, 1, 2, 1, 2, 3, 2, 2, 3, 2, 3, 2, 3, 4, 3, 2, 0, 1, 2,
    3, 2, 1, 0, 1, 2, 1, 0, 0, 0, 0, 1,
];

/// The code of the main.
fn code(rt: &(impl Abort + AllocGlobal)) -> Code {
    let globals = [GlobalPlace {
        range: Range { lo: 0, hi: 3 },
        columns: None,
    }];
    let parts = CodeParts {
        instrs: List::from_vec(instructions(rt)),
        lines: List::from_vec(vec![in rt.alloc(); 1; 44].expect(rt, "memory")),
        depths: numbers(rt, DEPTHS.as_slice()),
        first: Cells::from_vec(vec![in rt.alloc(); 0; 3].expect(rt, "memory")),
        globals: List::from_vec(Vec::from_slice(rt.alloc(), &globals).expect(rt, "memory")),
        functions: numbers(rt, &[]),
    };
    Code::build(rt.alloc(), parts).expect(rt, "a code")
}

/// A machine of `main` at its first ask.
fn machine_of_main(rt: &(impl Abort + AllocGlobal), code: &Code) -> Machine {
    let order = TaskOrder {
        entry: 0,
        copies: List::new(rt.alloc()),
        accesses: List::new(rt.alloc()),
        when: true,
        last: false,
        wait: false,
        priority: 0,
    };
    Machine::new(rt.alloc(), code, &order).expect(rt, "memory")
}

/// What the machine asks happens to these cells; what is found, or `None` at an ask that is no touch.
fn happen(machine: &Machine, cells: &mut [u64]) -> Option<u64> {
    match machine.ask() {
        Ask::Tick => Some(0),
        Ask::Read(cell) => Some(value_at(cells, *cell)),
        Ask::Write(cell, value) => {
            set(cells, *cell, word(*value));
            Some(0)
        }
        _ => None,
    }
}

/// Runs the main by looks alone, each of which makes its silent steps one by one, and counts the touches. It makes at most
/// so many.
fn by_looks(rt: &(impl Abort + AllocGlobal), code: &Code, cells: &mut [u64], most: u64) -> u64 {
    let mut machine = machine_of_main(rt, code);
    for count in 0..most {
        match happen(&machine, cells) {
            Some(found) => machine.look(code, found).expect(rt, "memory"),
            None => return count,
        }
        machine.go();
    }
    most
}

/// The body of main at its start.
fn begun(rt: &(impl Abort + AllocGlobal), code: &Code) -> Body {
    assert!(rt; code.first().len() <= 1_048_576);
    main_body(rt.alloc(), code, 1000).expect(rt, "memory")
}

/// Three turns are 13 touches: a tick before the first, and in each a load, a store, the tick that goes back and the one before
/// the next test.
#[test]
fn comes_to_what_plain_steps_come_to(rt: HostRuntime) {
    let code = code(&rt);
    let mut plain = vec![in rt.alloc(); 0; 3].expect(&rt, "memory");
    let touches = by_looks(&rt, &code, plain.as_mut_slice(), 100);
    assert_eq!(rt; touches, 13);
    assert!(rt; plain.as_slice() == [13, 14, 21].as_slice());
    let mut body = begun(&rt, &code);
    let mut cells = vec![in rt.alloc(); 0; 3].expect(&rt, "memory");
    assert!(rt; !body.ended());
    let first = body.rush(&code, &mut cells, 5);
    assert!(rt; first <= 5);
    assert!(rt; !body.ended());
    let rest = body.rush(&code, &mut cells, 1000);
    assert_eq!(rt; first.saturating_add(rest), touches);
    assert!(rt; cells.as_slice() == plain.as_slice());
    drop(body);
    drop(code);
}
