//! Acts of bodies that were worked by hand.

ghost use Rattle.std.specs.Prelude.{◌<◌, ◌≤◌};

use oss_code::{
    Code, CodeParts, Direction, GlobalPlace, Indices, Instr, Operator, PartForm, SectionBase,
    SectionForm, TaskOrder,
};
use oss_grammar::Piece;
use oss_machine::{Ask, Machine};
use oss_meaning::Declared;
use oss_syntax::{Access, BinOp, Cells, FaultKind, Kind, List, Mode, NumKind, Op, Range};
use std::process::Abort;

/// What is seen of an ask.
#[derive(Clone, Copy)]
enum Seen {
    Begin,
    Tick,
    Read(u32),
    Write(u32, u64),
    Fold(u32, u64),
    /// The entry of the body, and how many accesses there are.
    Create(u32, usize),
    /// The entry of the body, and the cells of its one access.
    CreateOver(u32, u32, u32),
    Wait,
    /// The cells of one range.
    WaitOn(u32, u32),
    /// The cells of one access.
    Release(u32, u32),
    Print(&'static [u8]),
    End,
    Fault(FaultKind),
}

/// The sum of two signed numbers.
const SUM: Operator = Operator {
    op: BinOp::Add,
    left_unsigned: false,
    right_unsigned: false,
};

/// A clause `in`.
const IN: Declared = Declared {
    mode: Mode::Read,
    strong: true,
    fresh: false,
};

/// A list of these numbers.
fn numbers(rt: &(impl Abort + AllocGlobal), numbers: &[u32]) -> List<u32> {
    List::from_vec(Vec::from_slice(rt.alloc(), numbers).expect(rt, "memory"))
}

/// A global with these cells.
fn place(lo: u32, hi: u32) -> GlobalPlace
    requires some { lo < hi }
    requires within { hi ≤ 1048576 }
{
    GlobalPlace {
        range: Range { lo, hi },
        columns: None,
    }
}

/// The code of `long x, a[3], i;` with these instructions, each on a line of its own.
fn code<const N: usize>(
    rt: &(impl Abort + AllocGlobal),
    instrs: [Instr; N],
    depths: &[u32],
    functions: &[u32],
) -> Code {
    let globals = [place(0, 1), place(1, 4), place(4, 5)];
    let lines = [1, 2, 3, 4, 5, 6, 7, 8, 9, 10, 11, 12, 13, 14, 15];
    let lines = lines.as_slice();
    assert!(rt; depths.len() <= lines.len());
    let (lines, _) = lines.split_at(depths.len());
    let parts = CodeParts {
        instrs: List::from_vec(Vec::from_array(rt.alloc(), instrs).expect(rt, "memory")),
        lines: numbers(rt, lines),
        depths: numbers(rt, depths),
        first: Cells::from_vec(vec![in rt.alloc(); 0; 5].expect(rt, "memory")),
        globals: List::from_vec(Vec::from_slice(rt.alloc(), &globals).expect(rt, "memory")),
        functions: numbers(rt, functions),
    };
    Code::build(rt.alloc(), parts).expect(rt, "a code")
}

/// There is one range, of these cells.
fn is_one_range(ranges: &List<Range>, lo: u32, hi: u32) -> bool {
    match ranges.get(0) {
        Some(range) => ranges.len() == 1 && range.lo == lo && range.hi == hi,
        None => false,
    }
}

/// There is one access, to these cells.
fn is_one_access(accesses: &List<Access>, lo: u32, hi: u32) -> bool {
    match accesses.get(0) {
        Some(access) => accesses.len() == 1 && access.range.lo == lo && access.range.hi == hi,
        None => false,
    }
}

fn is(ask: &Ask, wanted: &Seen) -> bool {
    match (ask, wanted) {
        (Ask::Begin, Seen::Begin) => true,
        (Ask::Tick, Seen::Tick) => true,
        (Ask::End, Seen::End) => true,
        (Ask::Read(cell), Seen::Read(other)) => *cell == *other,
        (Ask::Write(cell, number), Seen::Write(other, value)) => {
            *cell == *other && *number == *value
        }
        (Ask::Fold(cell, _, number), Seen::Fold(other, value)) => {
            *cell == *other && *number == *value
        }
        (Ask::Create(order), Seen::Create(entry, count)) => {
            let order = order.get();
            order.entry == *entry && order.accesses.len() == *count
        }
        (Ask::Create(order), Seen::CreateOver(entry, lo, hi)) => {
            let order = order.get();
            order.entry == *entry && is_one_access(&order.accesses, *lo, *hi)
        }
        (Ask::Wait, Seen::Wait) => true,
        (Ask::WaitOn(ranges), Seen::WaitOn(lo, hi)) => is_one_range(ranges, *lo, *hi),
        (Ask::Release(accesses), Seen::Release(lo, hi)) => is_one_access(accesses, *lo, *hi),
        (Ask::Print(text), Seen::Print(other)) => text.as_slice() == *other,
        (Ask::Fault(kind), Seen::Fault(other)) => *kind == *other,
        _ => false,
    }
}

/// The body of `main` asks this on these lines, where its loads find these numbers.
fn assert_asks(
    rt: &(impl Abort + AllocGlobal),
    code: &Code,
    loaded: &[u64],
    wanted: &[(Seen, u32)],
) {
    assert_body_asks(rt, code, 0, loaded, wanted);
}

/// The same of the body that begins with this instruction.
fn assert_body_asks(
    rt: &(impl Abort + AllocGlobal),
    code: &Code,
    entry: u32,
    loaded: &[u64],
    wanted: &[(Seen, u32)],
) {
    let order = TaskOrder {
        entry,
        copies: List::new(rt.alloc()),
        accesses: List::new(rt.alloc()),
        when: true,
        last: false,
        wait: false,
        priority: 0,
    };
    let mut machine = Machine::new(rt.alloc(), code, &order).expect(rt, "memory");
    let mut left = loaded;
    for (ask, line) in wanted {
        assert!(rt; is(machine.ask(), ask));
        assert_eq!(rt; machine.line(), *line);
        let mut found = 0;
        if let Seen::Read(_) = ask {
            if let Some((number, rest)) = left.split_first() {
                found = *number;
                left = rest;
            }
        }
        answer(rt, &mut machine, code, found);
    }
}

/// Answers, and once more where memory was wanting: then the machine stood.
fn answer(rt: &(impl Abort + AllocGlobal), machine: &mut Machine, code: &Code, found: u64) {
    if machine.answer(code, found).is_err() {
        machine.answer(code, found).expect(rt, "memory");
    }
}

/// Looks so many asks ahead of where the machine stands, if no memory is wanting; otherwise it forgets what it
/// looked at.
fn looks(machine: &mut Machine, code: &Code, asks: usize) -> bool {
    machine.stay();
    for _ in 0..asks {
        if machine.look(code, 0).is_err() {
            return false;
        }
    }
    true
}

/// The same, and once more where memory was wanting: then the machine stood, and had not looked ahead.
fn look(rt: &(impl Abort + AllocGlobal), machine: &mut Machine, code: &Code, asks: usize) {
    if !looks(machine, code, asks) {
        assert_eq!(rt; machine.line(), machine.line_ahead());
        assert!(rt; looks(machine, code, asks));
    }
}

/// The machine stands at this ask, and has looked ahead to this one.
fn assert_poised(
    rt: &(impl Abort + AllocGlobal),
    machine: &Machine,
    here: &(Seen, u32),
    ahead: &(Seen, u32),
) {
    assert!(rt; is(machine.ask(), &here.0));
    assert_eq!(rt; machine.line(), here.1);
    assert!(rt; is(machine.ask_ahead(), &ahead.0));
    assert_eq!(rt; machine.line_ahead(), ahead.1);
}

/// `x = a[i] + 1;` with an `int` x.
#[test]
fn an_assignment(rt: HostRuntime) {
    let instrs = [
        Instr::Tick,
        Instr::Address(0),
        Instr::Address(1),
        Instr::Address(2),
        Instr::Load,
        Instr::Move(Direction::Forth),
        Instr::Load,
        Instr::Push(1),
        Instr::Apply(SUM),
        Instr::Store(NumKind::Int),
        Instr::Nothing,
        Instr::Return,
    ];
    let code = code(&rt, instrs, &[0, 0, 1, 2, 3, 3, 2, 2, 3, 2, 0, 1], &[]);
    let wanted = [
        (Seen::Tick, 1),
        (Seen::Read(4), 5),
        (Seen::Read(3), 7),
        (Seen::Write(0, 0xffff_ffff_8000_0000), 10),
        (Seen::End, 12),
        (Seen::End, 12),
    ];
    assert_asks(&rt, &code, &[2, 0x7fff_ffff], &wanted);
    let outside = [
        (Seen::Tick, 1),
        (Seen::Read(4), 5),
        (Seen::Fault(FaultKind::OutOfRange), 7),
    ];
    assert_asks(&rt, &code, &[3], &outside);
}

/// `a[i] += 1;` over `long`, and over `int`.
#[test]
fn a_compound_assignment(rt: HostRuntime) {
    let fold = [
        Instr::Tick,
        Instr::Address(1),
        Instr::Address(2),
        Instr::Load,
        Instr::Move(Direction::Forth),
        Instr::Push(1),
        Instr::Fold(Op::Add),
        Instr::Nothing,
        Instr::Return,
    ];
    let folded = code(&rt, fold, &[0, 0, 1, 2, 2, 1, 2, 0, 1], &[]);
    let wanted = [
        (Seen::Tick, 1),
        (Seen::Read(4), 4),
        (Seen::Fold(2, 1), 7),
        (Seen::End, 9),
    ];
    assert_asks(&rt, &folded, &[1], &wanted);
    let change = [
        Instr::Tick,
        Instr::Address(1),
        Instr::Push(1),
        Instr::Under,
        Instr::Load,
        Instr::Swap,
        Instr::Apply(SUM),
        Instr::Store(NumKind::Int),
        Instr::Nothing,
        Instr::Return,
    ];
    let changed = code(&rt, change, &[0, 0, 1, 2, 3, 3, 3, 2, 0, 1], &[]);
    let wanted = [
        (Seen::Tick, 1),
        (Seen::Read(1), 5),
        (Seen::Write(1, 8), 8),
        (Seen::End, 10),
    ];
    assert_asks(&rt, &changed, &[7], &wanted);
}

/// `f(g(1), 2)`, each call with a tick, printed; `g` has an `int` parameter.
#[test]
fn calls_and_a_print(rt: HostRuntime) {
    let alloc = rt.alloc();
    let pieces = vec![in alloc; Piece::Signed, Piece::Plain(10)].expect(&rt, "memory");
    let instrs = [
        Instr::Push(0x8000_0000),
        Instr::Call {
            function: 1,
            arguments: 1,
        },
        Instr::Push(2),
        Instr::Call {
            function: 0,
            arguments: 2,
        },
        Instr::Print {
            pieces: List::from_vec(pieces),
            arguments: 1,
        },
        Instr::Nothing,
        Instr::Return,
        Instr::Local(0),
        Instr::Local(1),
        Instr::Apply(SUM),
        Instr::Return,
        Instr::Local(0),
        Instr::SetLocal(0, Kind::Num(NumKind::Int)),
        Instr::Local(0),
        Instr::Return,
    ];
    let code = code(
        &rt,
        instrs,
        &[0, 1, 1, 2, 1, 0, 1, 0, 1, 2, 1, 0, 1, 0, 1],
        &[7, 11],
    );
    let wanted = [
        (Seen::Tick, 2),
        (Seen::Tick, 4),
        (Seen::Print(b"-2147483646\n"), 5),
        (Seen::End, 7),
    ];
    assert_asks(&rt, &code, &[], &wanted);
}

/// The turns of a loop, each with a tick.
#[test]
fn a_loop(rt: HostRuntime) {
    let instrs = [
        Instr::Push(1),
        Instr::SkipUnless(1),
        Instr::Again(2),
        Instr::Nothing,
        Instr::Return,
    ];
    let code = code(&rt, instrs, &[0, 1, 0, 0, 1], &[]);
    assert_asks(
        &rt,
        &code,
        &[],
        &[(Seen::Tick, 3), (Seen::Tick, 3), (Seen::Tick, 3)],
    );
}

/// The creation of a task with the section `a[0;n]`, the number of cells being loaded; and with one that fails.
#[test]
fn a_creation(rt: HostRuntime) {
    let instrs = [
        Instr::Begin,
        Instr::Push(0),
        Instr::Address(2),
        Instr::Load,
        Instr::Section(
            SectionBase::Global(1),
            SectionForm::Line(PartForm::Length),
            IN,
        ),
        Instr::Push(2),
        Instr::Section(
            SectionBase::Global(1),
            SectionForm::Line(PartForm::Element),
            IN,
        ),
        Instr::Create(2),
        Instr::Nothing,
        Instr::Return,
        Instr::Nothing,
        Instr::Return,
    ];
    let code = code(&rt, instrs, &[0, 0, 1, 2, 2, 0, 1, 0, 0, 1, 0, 1], &[]);
    let wanted = [
        (Seen::Begin, 1),
        (Seen::Read(4), 4),
        (Seen::Create(10, 2), 8),
        (Seen::End, 10),
    ];
    assert_asks(&rt, &code, &[2], &wanted);
    let fails = [
        (Seen::Begin, 1),
        (Seen::Read(4), 4),
        (Seen::Fault(FaultKind::OutOfRange), 5),
    ];
    assert_asks(&rt, &code, &[4], &fails);
}

/// `x = x && i;`: the right side is evaluated where the left one is not 0 alone.
#[test]
fn both_hold(rt: HostRuntime) {
    let instrs = [
        Instr::Tick,
        Instr::Address(0),
        Instr::Address(0),
        Instr::Load,
        Instr::SkipUnless(4),
        Instr::Address(2),
        Instr::Load,
        Instr::Truth,
        Instr::Skip(1),
        Instr::Push(0),
        Instr::Store(NumKind::Long),
        Instr::Nothing,
        Instr::Return,
    ];
    let code = code(&rt, instrs, &[0, 0, 1, 2, 2, 1, 2, 2, 2, 1, 2, 0, 1], &[]);
    let passed = [
        (Seen::Tick, 1),
        (Seen::Read(0), 4),
        (Seen::Write(0, 0), 11),
        (Seen::End, 13),
    ];
    assert_asks(&rt, &code, &[0], &passed);
    let evaluated = [
        (Seen::Tick, 1),
        (Seen::Read(0), 4),
        (Seen::Read(4), 7),
        (Seen::Write(0, 1), 11),
        (Seen::End, 13),
    ];
    assert_asks(&rt, &code, &[2, 5], &evaluated);
}

/// `while (i) { if (x) break; continue; }`
#[test]
fn a_loop_that_is_left(rt: HostRuntime) {
    let instrs = [
        Instr::Tick,
        Instr::Address(2),
        Instr::Load,
        Instr::SkipUnless(8),
        Instr::Tick,
        Instr::Address(0),
        Instr::Load,
        Instr::SkipUnless(2),
        Instr::Tick,
        Instr::Skip(2),
        Instr::Tick,
        Instr::Again(10),
        Instr::Nothing,
        Instr::Return,
    ];
    let code = code(
        &rt,
        instrs,
        &[0, 0, 1, 1, 0, 0, 1, 1, 0, 0, 0, 0, 0, 1],
        &[],
    );
    let by_break = [
        (Seen::Tick, 1),
        (Seen::Read(4), 3),
        (Seen::Tick, 5),
        (Seen::Read(0), 7),
        (Seen::Tick, 11),
        (Seen::Tick, 12),
        (Seen::Read(4), 3),
        (Seen::Tick, 5),
        (Seen::Read(0), 7),
        (Seen::Tick, 9),
        (Seen::End, 14),
    ];
    assert_asks(&rt, &code, &[1, 0, 1, 1], &by_break);
    let by_its_test = [(Seen::Tick, 1), (Seen::Read(4), 3), (Seen::End, 14)];
    assert_asks(&rt, &code, &[0], &by_its_test);
}

/// `printf("%ld %lu\n", x, i);`: the arguments are loaded from left to right.
#[test]
fn a_print_of_two_loads(rt: HostRuntime) {
    let alloc = rt.alloc();
    let pieces = vec![in alloc;
        Piece::Signed,
        Piece::Plain(32),
        Piece::Unsigned,
        Piece::Plain(10),
    ]
    .expect(&rt, "memory");
    let instrs = [
        Instr::Tick,
        Instr::Address(0),
        Instr::Load,
        Instr::Address(2),
        Instr::Load,
        Instr::Print {
            pieces: List::from_vec(pieces),
            arguments: 2,
        },
        Instr::Nothing,
        Instr::Return,
    ];
    let code = code(&rt, instrs, &[0, 0, 1, 1, 2, 2, 0, 1], &[]);
    let wanted = [
        (Seen::Tick, 1),
        (Seen::Read(0), 3),
        (Seen::Read(4), 5),
        (Seen::Print(b"-1 18446744073709551615\n"), 6),
        (Seen::End, 8),
    ];
    assert_asks(&rt, &code, &[u64::MAX, u64::MAX], &wanted);
}

/// `f(2);` with a task function, whose body is `return;`: the creation has the line of the call, and the body its own.
#[test]
fn a_task_function_that_returns(rt: HostRuntime) {
    let instrs = [
        Instr::Push(2),
        Instr::Spawn {
            function: 0,
            arguments: 1,
        },
        Instr::Drop,
        Instr::Nothing,
        Instr::Return,
        Instr::Begin,
        Instr::Create(2),
        Instr::Nothing,
        Instr::Return,
        Instr::Tick,
        Instr::Nothing,
        Instr::Return,
    ];
    let code = code(&rt, instrs, &[0, 1, 1, 0, 1, 0, 0, 0, 1, 0, 0, 1], &[5]);
    let caller = [(Seen::Begin, 2), (Seen::Create(9, 0), 2), (Seen::End, 5)];
    assert_asks(&rt, &code, &[], &caller);
    let body = [(Seen::Tick, 10), (Seen::End, 12), (Seen::End, 12)];
    assert_body_asks(&rt, &code, 9, &[], &body);
}

/// `in({ a[k], k = 0; i })`: the number of turns is loaded; without a turn nothing is declared, and the fourth
/// has no cell.
#[test]
fn a_multidependency(rt: HostRuntime) {
    let instrs = [
        Instr::Begin,
        Instr::Push(0),
        Instr::Address(2),
        Instr::Load,
        Instr::Turns(3),
        Instr::Local(0),
        Instr::Turn(SectionBase::Global(1), Indices::One),
        Instr::NextTurn(2),
        Instr::EndTurns(IN),
        Instr::Create(2),
        Instr::Nothing,
        Instr::Return,
        Instr::Nothing,
        Instr::Return,
    ];
    let code = code(
        &rt,
        instrs,
        &[0, 0, 1, 2, 2, 0, 1, 0, 0, 0, 0, 1, 0, 1],
        &[],
    );
    let two = [
        (Seen::Begin, 1),
        (Seen::Read(4), 4),
        (Seen::CreateOver(12, 1, 3), 10),
        (Seen::End, 12),
    ];
    assert_asks(&rt, &code, &[2], &two);
    let none = [
        (Seen::Begin, 1),
        (Seen::Read(4), 4),
        (Seen::Create(12, 0), 10),
    ];
    assert_asks(&rt, &code, &[0], &none);
    let four = [
        (Seen::Begin, 1),
        (Seen::Read(4), 4),
        (Seen::Fault(FaultKind::OutOfRange), 7),
    ];
    assert_asks(&rt, &code, &[4], &four);
}

/// `taskwait on(a)`, `release in(a[1])` and `taskwait`.
#[test]
fn waits_and_a_release(rt: HostRuntime) {
    let instrs = [
        Instr::Section(SectionBase::Global(1), SectionForm::Whole, IN),
        Instr::WaitOn,
        Instr::Push(1),
        Instr::Section(
            SectionBase::Global(1),
            SectionForm::Line(PartForm::Element),
            IN,
        ),
        Instr::Release,
        Instr::Wait,
        Instr::Nothing,
        Instr::Return,
    ];
    let code = code(&rt, instrs, &[0, 0, 0, 1, 0, 0, 0, 1], &[]);
    let wanted = [
        (Seen::WaitOn(1, 4), 2),
        (Seen::Release(2, 3), 5),
        (Seen::Wait, 6),
        (Seen::End, 8),
    ];
    assert_asks(&rt, &code, &[], &wanted);
}

/// `printf("%ld\n", f(5));` with a function `f` that gives `g(g(x))`, and a `g` that gives `x + 1` behind a
/// tick: so from one ask to the next functions come to stand upon others, and values are given to callers that
/// stood.
fn calls_that_stand(rt: &(impl Abort + AllocGlobal)) -> Code {
    let pieces = vec![in rt.alloc(); Piece::Signed, Piece::Plain(10)].expect(rt, "memory");
    let instrs = [
        Instr::Push(5),
        Instr::Call {
            function: 0,
            arguments: 1,
        },
        Instr::Print {
            pieces: List::from_vec(pieces),
            arguments: 1,
        },
        Instr::Nothing,
        Instr::Return,
        Instr::Local(0),
        Instr::Call {
            function: 1,
            arguments: 1,
        },
        Instr::Call {
            function: 1,
            arguments: 1,
        },
        Instr::Return,
        Instr::Tick,
        Instr::Local(0),
        Instr::Push(1),
        Instr::Apply(SUM),
        Instr::Return,
    ];
    code(
        rt,
        instrs,
        &[0, 1, 1, 0, 1, 0, 1, 1, 1, 0, 0, 1, 2, 1],
        &[5, 9],
    )
}

/// What it asks.
const ASKS_OF_CALLS: [(Seen, u32); 9] = [
    (Seen::Tick, 2),
    (Seen::Tick, 7),
    (Seen::Tick, 10),
    (Seen::Tick, 8),
    (Seen::Tick, 10),
    (Seen::Print(b"7\n"), 3),
    (Seen::End, 5),
    (Seen::End, 5),
    (Seen::End, 5),
];

/// A machine of `main`.
fn machine_of_main(rt: &(impl Abort + AllocGlobal), code: &Code) -> Machine {
    let order = TaskOrder {
        entry: 0,
        copies: List::new(rt.alloc()),
        accesses: List::new(rt.alloc()),
        when: true,
        last: false,
        wait: false,
        priority: 0,
    };
    Machine::new(rt.alloc(), code, &order).expect(rt, "memory")
}

/// Functions that wait, alone.
#[test]
fn answers_among_calls(rt: HostRuntime) {
    let code = calls_that_stand(&rt);
    assert_asks(&rt, &code, &[], &ASKS_OF_CALLS);
}

/// One that looks twice and stays asks behind its answer what it asks without a look; so does one that answers
/// without staying first.
#[test]
fn looks_that_are_forgotten(rt: HostRuntime) {
    let code = calls_that_stand(&rt);
    let mut machine = machine_of_main(&rt, &code);
    let asks = ASKS_OF_CALLS;
    for at in 0..7usize {
        let (here, next, after) = (asks[at], asks[at + 1], asks[at + 2]);
        assert_poised(&rt, &machine, &here, &here);
        look(&rt, &mut machine, &code, 1);
        assert_poised(&rt, &machine, &here, &next);
        look(&rt, &mut machine, &code, 2);
        assert_poised(&rt, &machine, &here, &after);
        if at % 2 == 0 {
            machine.stay();
            assert_poised(&rt, &machine, &here, &here);
        }
        answer(&rt, &mut machine, &code, 0);
    }
}

/// One that goes on to where it has looked stands there, as behind an answer; without a look it stays.
#[test]
fn looks_that_are_gone_on_to(rt: HostRuntime) {
    let code = calls_that_stand(&rt);
    let mut machine = machine_of_main(&rt, &code);
    let asks = ASKS_OF_CALLS;
    for at in 0..7usize {
        let (here, next) = (asks[at], asks[at + 1]);
        assert_poised(&rt, &machine, &here, &here);
        if at % 3 == 0 {
            machine.go();
            assert_poised(&rt, &machine, &here, &here);
        }
        look(&rt, &mut machine, &code, 1);
        assert_poised(&rt, &machine, &here, &next);
        machine.go();
    }
    let mut farther = machine_of_main(&rt, &code);
    for at in 1..6usize {
        look(&rt, &mut farther, &code, at);
        assert_poised(&rt, &farther, &asks[0], &asks[at]);
    }
    farther.go();
    assert_poised(&rt, &farther, &asks[5], &asks[5]);
    farther.stay();
    assert_poised(&rt, &farther, &asks[5], &asks[5]);
}
