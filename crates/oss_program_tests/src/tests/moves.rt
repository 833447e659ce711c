//! A program with one task, worked by hand: its moves in one order, its answer, and its passes.

ghost use Rattle.std.specs.Prelude.{◌≡◌, ◌<◌, [], false, ℕ};
ghost use Rattle.oss_code.specs.declared.code.CodeParts.{CodeParts as Parts};
ghost use Rattle.oss_core.specs.Cores.{kept_of};
ghost use Rattle.oss_core.specs.Kept.{IsRunning};

use oss_code::{Code, CodeParts, GlobalPlace, Instr, SectionBase, SectionForm};
use oss_core::{ApplyFault, Core, Passed};
use oss_deps::{Deps, PlainDeps};
use oss_grammar::Piece;
use oss_meaning::Declared;
use oss_model::{Answer, Move, TaskNo};
use oss_syntax::{Cells, List, Mode, NumKind, Op, Range};
use std::process::Abort;

/// A clause `out`.
const OUT: Declared = Declared {
    mode: Mode::Write,
    strong: true,
    fresh: true,
};

/// A clause `reduction` by `+`.
const SUM: Declared = Declared {
    mode: Mode::Fold(Op::Add),
    strong: true,
    fresh: false,
};

/// A list of these numbers.
fn numbers(rt: &(impl Abort + AllocGlobal), numbers: &[u32]) -> List<u32> {
    List::from_vec(Vec::from_slice(rt.alloc(), numbers).expect(rt, "memory"))
}

/// A global with one cell.
fn place(lo: u32) -> GlobalPlace
    requires { lo < 1048576 }
{
    GlobalPlace {
        range: Range { lo, hi: lo + 1 },
        columns: None,
    }
}

/// A print of one letter.
fn print(rt: &(impl Abort + AllocGlobal), letter: u8) -> Instr {
    let pieces = vec![in rt.alloc(); Piece::Plain(letter)].expect(rt, "memory");
    Instr::Print {
        pieces: List::from_vec(pieces),
        arguments: 0,
    }
}

/// The code of `long x, y = 4;` and a `main` that creates a task with `out(x) reduction(+: y)`, prints `m` and
/// waits. The task sets `x` to 5, adds 3 to `y` and prints `t`.
fn code(rt: &(impl Abort + AllocGlobal)) -> Code {
    let instrs = [
        Instr::Begin,
        Instr::Section(SectionBase::Global(0), SectionForm::Whole, OUT),
        Instr::Section(SectionBase::Global(1), SectionForm::Whole, SUM),
        Instr::Create(4),
        print(rt, b'm'),
        Instr::Wait,
        Instr::Nothing,
        Instr::Return,
        Instr::Address(0),
        Instr::Push(5),
        Instr::Store(NumKind::Long),
        Instr::Address(1),
        Instr::Push(3),
        Instr::Fold(Op::Add),
        print(rt, b't'),
        Instr::Nothing,
        Instr::Return,
    ];
    let depths = [0, 0, 0, 0, 0, 0, 0, 1, 0, 1, 2, 0, 1, 2, 0, 0, 1];
    let lines = [3, 3, 3, 3, 4, 5, 6, 6, 7, 7, 7, 8, 8, 8, 9, 10, 10];
    let globals = [place(0), place(1)];
    let parts = CodeParts {
        instrs: List::from_vec(Vec::from_array(rt.alloc(), instrs).expect(rt, "memory")),
        lines: numbers(rt, &lines),
        depths: numbers(rt, &depths),
        first: Cells::from_vec(vec![in rt.alloc(); 0, 4].expect(rt, "memory")),
        globals: List::from_vec(Vec::from_slice(rt.alloc(), &globals).expect(rt, "memory")),
        functions: numbers(rt, &[]),
    };
    Code::build(rt.alloc(), parts).expect(rt, "a code")
}

/// A core of the code, which has just begun.
fn begun<D: Deps>(rt: &(impl Abort + AllocGlobal), code: &Code, deps: D) -> Core<D>
    requires opens { (D.seen deps).opens ≡ [] }
    requires given { (t c : ℕ) → (D.seen deps).given t c ≡ false }
    ensures { IsRunning code.now (kept_of D.seen result) }
{
    assert!(rt; code.first().len() <= 1_048_576);
    Core::new(rt.alloc(), code, 100, deps).expect(rt, "memory")
}

/// Makes a move where it is enabled, and tells whether it was.
fn is_made<D: Deps>(rt: &impl Abort, core: &mut Core<D>, code: &Code, m: Move) -> bool
    requires { IsRunning code.now (kept_of D.seen core.old) }
    ensures { IsRunning code.now (kept_of D.seen core.new) }
{
    let enabled = core.enabled(&m);
    match core.apply(code, m) {
        Ok(()) => {
            assert!(rt; enabled);
            true
        }
        Err(ApplyFault::NotNow) => {
            assert!(rt; !enabled);
            false
        }
        Err(ApplyFault::Memory(_)) => panic!(rt; "memory"),
    }
}

/// Of these moves, one after the other, exactly those are made that are marked so.
fn assert_moves<D: Deps>(rt: &impl Abort, core: &mut Core<D>, code: &Code, moves: &[(Move, bool)])
    requires { IsRunning code.now (kept_of D.seen core.old) }
    ensures { IsRunning code.now (kept_of D.seen core.new) }
{
    for (m, wanted) in moves {
        let made = is_made(rt, core, code, *m);
        assert!(rt; made == *wanted, "at {m:?}");
    }
}

/// Whether this is the answer of a run that ended so.
fn is_done(answer: &Option<Answer>, output: &[u8], cells: &[u64]) -> bool {
    match answer {
        Some(Answer::Done(printed, left)) => {
            printed.as_slice() == output && left.as_slice() == cells
        }
        Some(Answer::Fault(_, _, _)) => false,
        None => false,
    }
}

/// The core has a move left, and so many tasks are not complete.
fn assert_going<D: Deps>(rt: &impl Abort, core: &mut Core<D>, unfinished: u64)
    requires { (code : Parts) × IsRunning code (kept_of D.seen core.old) }
    ensures { kept_of D.seen core.new ≡ kept_of D.seen core.old }
{
    assert!(rt; !core.stopped());
    assert_eq!(rt; core.unfinished(), unfinished);
    let answer = core.answer().expect(rt, "memory");
    assert!(rt; answer.is_none());
    drop(answer);
}

/// The core stands still, all tasks are complete, and this is its answer.
fn assert_done<D: Deps>(rt: &impl Abort, core: &mut Core<D>, output: &[u8], cells: &[u64])
    requires { (code : Parts) × IsRunning code (kept_of D.seen core.old) }
{
    assert!(rt; core.stopped());
    assert_eq!(rt; core.unfinished(), 0);
    let answer = core.answer().expect(rt, "memory");
    assert!(rt; is_done(&answer, output, cells));
    drop(answer);
}

const MAIN: TaskNo = TaskNo(0);

const TASK: TaskNo = TaskNo(1);

/// Main creates the task, prints and waits, and the task runs to its end, with moves between that are not enabled.
fn run_to_end<D: Deps>(rt: &impl Abort, core: &mut Core<D>, code: &Code)
    requires { IsRunning code.now (kept_of D.seen core.old) }
    ensures { IsRunning code.now (kept_of D.seen core.new) }
{
    let created = [
        (Move::Step(TASK), false),
        (Move::Let(MAIN, 0), false),
        (Move::Step(MAIN), true),
    ];
    assert_moves(rt, core, code, &created);
    let ended = [
        // main prints, and waits
        (Move::Step(MAIN), true),
        (Move::Step(MAIN), false),
        (Move::Let(TASK, 0), false),
        // the task stores, folds, prints and ends
        (Move::Step(TASK), true),
        (Move::Step(TASK), true),
        (Move::Step(TASK), true),
        (Move::Join(TASK, 1), false),
        (Move::Step(TASK), true),
        (Move::Step(TASK), false),
        (Move::Step(MAIN), false),
    ];
    assert_moves(rt, core, code, &ended);
}

/// Main waits for the task, which nothing hinders, and which has not given up all its cells.
fn assert_waits<D: Deps>(rt: &impl Abort, core: &mut Core<D>)
    requires { (code : Parts) × IsRunning code (kept_of D.seen core.old) }
    ensures { kept_of D.seen core.new ≡ kept_of D.seen core.old }
{
    if core.tree().count() != 2 {
        panic!(rt; "two tasks");
    }
    assert!(rt; core.hindrance(MAIN) == Some(TASK));
    assert!(rt; core.hindrance(TASK).is_none());
    assert!(rt; !core.spent(TASK));
}

#[test]
fn a_task_in_one_order(rt: HostRuntime) {
    let code = code(&rt);
    let mut core = begun(&rt, &code, PlainDeps::new(rt.alloc()));
    assert!(rt; core.find(&[0]) == Some(MAIN) && core.find(&[0, 0]).is_none());
    run_to_end(&rt, &mut core, &code);
    assert!(rt; core.find(&[0, 0]) == Some(TASK) && core.find(&[0, 1]).is_none());
    assert_going(&rt, &mut core, 2);
    assert_waits(&rt, &mut core);
    let given = [
        (Move::Let(TASK, 1), false),
        (Move::Join(TASK, 0), false),
        (Move::Join(TASK, 1), true),
        (Move::Step(MAIN), false),
        (Move::Let(TASK, 0), true),
        (Move::Let(TASK, 0), false),
        // main goes past its wait, and ends
        (Move::Step(MAIN), true),
        (Move::Step(MAIN), true),
        (Move::Step(MAIN), false),
    ];
    assert_moves(&rt, &mut core, &code, &given);
    assert_done(&rt, &mut core, b"tm", &[5, 7]);
    drop(core);
    drop(code);
}

/// Whether the task has passed these cells so.
fn is_run(one: &Passed, lo: u32, hi: u32, joined: bool) -> bool {
    one.task.0 == TASK.0 && one.range.lo == lo && one.range.hi == hi && one.joined == joined
}

/// What a pass over main and the task gives up, which are all tasks.
fn passed_of<D: Deps>(rt: &impl Abort, core: &mut Core<D>, code: &Code) -> Vec<Passed>
    requires { IsRunning code.now (kept_of D.seen core.old) }
    ensures { IsRunning code.now (kept_of D.seen core.new) }
{
    if core.tree().count() != 2 {
        panic!(rt; "two tasks");
    }
    let asked = [MAIN, TASK];
    core.pass(code, &asked).expect(rt, "memory")
}

/// A pass gives up nothing.
fn assert_idle<D: Deps>(rt: &impl Abort, core: &mut Core<D>, code: &Code)
    requires { IsRunning code.now (kept_of D.seen core.old) }
    ensures { IsRunning code.now (kept_of D.seen core.new) }
{
    let passed = passed_of(rt, core, code);
    assert!(rt; passed.is_empty());
    drop(passed);
}

#[test]
fn a_task_in_passes(rt: HostRuntime) {
    let code = code(&rt);
    let mut core = begun(&rt, &code, PlainDeps::new(rt.alloc()));
    // main creates the task and prints; the task stores and folds
    let begun = [
        (Move::Step(MAIN), true),
        (Move::Step(MAIN), true),
        (Move::Step(TASK), true),
        (Move::Step(TASK), true),
    ];
    assert_moves(&rt, &mut core, &code, &begun);
    assert_idle(&rt, &mut core, &code);
    // it prints and ends
    let ended = [(Move::Step(TASK), true), (Move::Step(TASK), true)];
    assert_moves(&rt, &mut core, &code, &ended);
    let passed = passed_of(&rt, &mut core, &code);
    assert!(rt; passed.len() == 2);
    assert!(rt; is_run(&passed[0], 0, 1, false) && is_run(&passed[1], 1, 2, true));
    drop(passed);
    assert_idle(&rt, &mut core, &code);
    // main goes past its wait, and ends
    let behind = [(Move::Step(MAIN), true), (Move::Step(MAIN), true)];
    assert_moves(&rt, &mut core, &code, &behind);
    assert_done(&rt, &mut core, b"tm", &[5, 7]);
    drop(core);
    drop(code);
}
