//! Programs run in orders chosen at random: each move is drawn from those that are enabled. Whatever the order,
//! the answer is that of the sequential run.

ghost use Rattle.std.specs.Prelude.{◌≡◌, ◌≤◌, length};
ghost use Rattle.oss_code.specs.declared.code.CodeParts.{CodeParts as Parts};
ghost use Rattle.oss_core.specs.Cores.{kept_of};
ghost use Rattle.oss_core.specs.Kept.{IsRunning};

use crate::tests::draws::Draws;
use crate::tests::programs;
use crate::tests::reading::{code_of, serial_answer};
use oss_code::Code;
use oss_core::{ApplyFault, Core};
use oss_deps::{Deps, PlainDeps};
use oss_model::{Answer, FaultKind, Move, TaskNo};
use std::process::Abort;

/// Each program is run so often.
const RUNS: u64 = 33;

/// No run of these programs has so many moves.
const MOST_MOVES: u32 = 1000;

/// How a run is to end: by the end of main, or by a fault of this kind on this line.
#[derive(Clone, Copy)]
enum Ending {
    Done,
    Fault(FaultKind, u32),
}

/// Notes a move where it is enabled.
fn note<D: Deps>(
    rt: &(impl Abort + AllocGlobal),
    core: &mut Core<D>,
    m: Move,
    enabled: &mut Vec<Move>,
)
    requires { (code : Parts) × IsRunning code (kept_of D.seen core.old) }
    ensures { kept_of D.seen core.new ≡ kept_of D.seen core.old }
{
    if core.enabled(&m) {
        enabled.push(m).expect(rt, "memory");
    }
}

/// Notes the moves of a task that are enabled.
fn note_task<D: Deps>(
    rt: &(impl Abort + AllocGlobal),
    core: &mut Core<D>,
    task: TaskNo,
    cells: u32,
    enabled: &mut Vec<Move>,
)
    requires { (code : Parts) × IsRunning code (kept_of D.seen core.old) }
    ensures { kept_of D.seen core.new ≡ kept_of D.seen core.old }
{
    note(rt, core, Move::Step(task), enabled);
    for cell in 0..cells {
        note(rt, core, Move::Let(task, cell), enabled);
        note(rt, core, Move::Join(task, cell), enabled);
    }
}

/// All moves that are enabled.
fn enabled_moves<D: Deps>(
    rt: &(impl Abort + AllocGlobal),
    core: &mut Core<D>,
    cells: u32,
) -> Vec<Move>
    requires { (code : Parts) × IsRunning code (kept_of D.seen core.old) }
    ensures { kept_of D.seen core.new ≡ kept_of D.seen core.old }
{
    let mut enabled = Vec::new(rt.alloc());
    for number in 0..core.count() {
        note_task(rt, core, TaskNo(number), cells, &mut enabled);
    }
    enabled
}

/// Makes a move, and says whether it was enabled.
fn is_made<D: Deps>(rt: &impl Abort, core: &mut Core<D>, code: &Code, m: Move) -> bool
    requires { IsRunning code.now (kept_of D.seen core.old) }
    ensures { IsRunning code.now (kept_of D.seen core.new) }
{
    match core.apply(code, m) {
        Ok(()) => true,
        Err(ApplyFault::NotNow) => false,
        Err(ApplyFault::Memory(_)) => panic!(rt; "memory"),
    }
}

/// Makes one of the moves that are enabled, unless none is. Says whether it did.
fn make_one<D: Deps>(
    rt: &(impl Abort + AllocGlobal),
    core: &mut Core<D>,
    code: &Code,
    cells: u32,
    draws: &mut Draws,
) -> bool
    requires { IsRunning code.now (kept_of D.seen core.old) }
    ensures { IsRunning code.now (kept_of D.seen core.new) }
{
    let moves = enabled_moves(rt, core, cells);
    assert!(rt; core.stopped() == moves.is_empty());
    if moves.is_empty() {
        return false;
    }
    let m = moves[draws.below(moves.len())];
    let made = is_made(rt, core, code, m);
    assert!(rt; made, "{m:?} is enabled");
    true
}

/// Makes moves until none is left.
fn run<D: Deps>(
    rt: &(impl Abort + AllocGlobal),
    core: &mut Core<D>,
    code: &Code,
    cells: u32,
    draws: &mut Draws,
)
    requires { IsRunning code.now (kept_of D.seen core.old) }
    ensures { IsRunning code.now (kept_of D.seen core.new) }
{
    for _ in 0..MOST_MOVES {
        if !make_one(rt, core, code, cells, draws) {
            return;
        }
    }
    panic!(rt; "a run without end");
}

/// Whether the run that has this answer ended so.
fn is_ending(answer: &Answer, ending: Ending) -> bool {
    match answer {
        Answer::Done(_, _) => matches!(ending, Ending::Done),
        Answer::Fault(kind, line, _) => match ending {
            Ending::Done => false,
            Ending::Fault(wanted, at) => *kind == wanted && *line == at,
        },
    }
}

/// Whether both answers are the same.
fn is_same(answer: &Answer, wanted: &Answer) -> bool {
    match answer {
        Answer::Done(output, cells) => match wanted {
            Answer::Done(printed, left) => {
                output.as_slice() == printed.as_slice() && cells.as_slice() == left.as_slice()
            }
            Answer::Fault(_, _, _) => false,
        },
        Answer::Fault(kind, line, output) => match wanted {
            Answer::Done(_, _) => false,
            Answer::Fault(fault, at, printed) => {
                *kind == *fault && *line == *at && output.as_slice() == printed.as_slice()
            }
        },
    }
}

/// The answer of a run in an order that is drawn.
fn drawn_answer(
    rt: &(impl Abort + AllocGlobal),
    code: &Code,
    fuel: u32,
    draws: &mut Draws,
) -> Answer
    requires { length code.now.first ≤ 1048576 }
{
    let cells = code.first().len() as u32;
    let deps = PlainDeps::new(rt.alloc());
    let mut core = Core::new(rt.alloc(), code, fuel, deps).expect(rt, "memory");
    run(rt, &mut core, code, cells, draws);
    match core.answer().expect(rt, "memory") {
        Some(answer) => answer,
        None => panic!(rt; "a move is left"),
    }
}

/// Runs a program in orders that are drawn, which all give the answer of the sequential run; and that run ends so.
fn assert_agrees(rt: &(impl Abort + AllocGlobal), text: &str, fuel: u32, ending: Ending) {
    let code = code_of(rt, text);
    let wanted = serial_answer(rt, &code, fuel);
    assert!(rt; is_ending(&wanted, ending), "{text}");
    let mut draws = Draws::new(1);
    for _ in 0..RUNS {
        let answer = drawn_answer(rt, &code, fuel, &mut draws);
        assert!(rt; is_same(&answer, &wanted), "{text}");
    }
}

#[test]
fn values_go_from_task_to_task(rt: HostRuntime) {
    for text in [
        programs::FLOW,
        programs::DIAMOND,
        programs::LOOPS,
        programs::READERS,
        programs::PRINTS,
        programs::FALSE_IF,
        programs::WAIT_ON,
        programs::GRID,
        programs::TASK_LOOP,
        programs::EVERY_SECOND,
        programs::FUNCTION,
    ] {
        assert_agrees(&rt, text, 100, Ending::Done);
    }
}

#[test]
fn folds_nested_tasks_and_releases(rt: HostRuntime) {
    for text in [
        programs::REDUCTIONS,
        programs::WEAK_REDUCTION,
        programs::OTHER_FOLDS,
        programs::WEAK,
        programs::WEAK_WAIT,
        programs::NESTED,
        programs::EARLY,
        programs::RELEASE,
        programs::RELEASE_OF_LENT,
        programs::INCLUDED,
    ] {
        assert_agrees(&rt, text, 100, Ending::Done);
    }
}

#[test]
fn the_first_fault_in_the_order_of_the_text_is_told(rt: HostRuntime) {
    for (text, fault, line) in [
        (programs::RACING_FAULTS, FaultKind::OutOfRange, 4),
        (programs::RACE_FROM_BELOW, FaultKind::NoRight, 7),
        (programs::OUT_OF_FUEL, FaultKind::OutOfFuel, 6),
        (programs::UNWRITTEN, FaultKind::Unwritten, 7),
        (programs::LENT, FaultKind::Lent, 6),
        (programs::NOT_COVERED, FaultKind::NotCovered, 6),
        (programs::RELEASED, FaultKind::Released, 7),
        (programs::SHIFT_RANGE, FaultKind::ShiftRange, 6),
        (programs::BAD_REDUCTION, FaultKind::BadReduction, 6),
        (programs::MIXED_ACCESS, FaultKind::MixedAccess, 5),
    ] {
        assert_agrees(&rt, text, 8, Ending::Fault(fault, line));
    }
}
