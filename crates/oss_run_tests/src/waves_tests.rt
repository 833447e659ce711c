//! A program with two tasks, worked by hand: its record and its answer, whatever the number of workers.

ghost use Rattle.std.specs.Prelude.{◌<◌};

use oss_code::{Code, CodeParts, GlobalPlace, Instr, SectionBase, SectionForm};
use oss_deps::PlainDeps;
use oss_grammar::Piece;
use oss_io::NoGate;
use oss_meaning::Declared;
use oss_model::Answer;
use oss_sched::schedule_text;
use oss_syntax::{Cells, List, Mode, NumKind, Range};
use oss_waves::{WaveRun, waves};
use std::process::Abort;
use std::thread::Threads;

/// A clause `out`.
const OUT: Declared = Declared {
    mode: Mode::Write,
    strong: true,
    fresh: true,
};

/// A list of these numbers.
fn numbers(rt: &(impl Abort + AllocGlobal), numbers: &[u32]) -> List<u32> {
    List::from_vec(Vec::from_slice(rt.alloc(), numbers).expect(rt, "memory"))
}

/// A global with one cell.
fn place(lo: u32) -> GlobalPlace
    requires { lo < 1048576 }
{
    GlobalPlace {
        range: Range { lo, hi: lo + 1 },
        columns: None,
    }
}

/// A print of one letter.
fn print(rt: &(impl Abort + AllocGlobal), letter: u8) -> Instr {
    let pieces = vec![in rt.alloc(); Piece::Plain(letter)].expect(rt, "memory");
    Instr::Print {
        pieces: List::from_vec(pieces),
        arguments: 0,
    }
}

/// The code of `long x, y;` and a `main` that creates a task with `out(x)` that sets `x` to 5 and prints `a`,
/// one with `out(y)` that sets `y` to 7 and prints `b`, and waits.
pub(crate) fn code(rt: &(impl Abort + AllocGlobal)) -> Code {
    let instrs = [
        Instr::Begin,
        Instr::Section(SectionBase::Global(0), SectionForm::Whole, OUT),
        Instr::Create(6),
        Instr::Begin,
        Instr::Section(SectionBase::Global(1), SectionForm::Whole, OUT),
        Instr::Create(9),
        Instr::Wait,
        Instr::Nothing,
        Instr::Return,
        Instr::Address(0),
        Instr::Push(5),
        Instr::Store(NumKind::Long),
        print(rt, b'a'),
        Instr::Nothing,
        Instr::Return,
        Instr::Address(1),
        Instr::Push(7),
        Instr::Store(NumKind::Long),
        print(rt, b'b'),
        Instr::Nothing,
        Instr::Return,
    ];
    let depths = [
        0, 0, 0, 0, 0, 0, 0, 0, 1, 0, 1, 2, 0, 0, 1, 0, 1, 2, 0, 0, 1,
    ];
    let lines = [
        3, 3, 3, 4, 4, 4, 5, 6, 6, 7, 7, 7, 8, 8, 8, 9, 9, 9, 10, 10, 10,
    ];
    let globals = [place(0), place(1)];
    let parts = CodeParts {
        instrs: List::from_vec(Vec::from_array(rt.alloc(), instrs).expect(rt, "memory")),
        lines: numbers(rt, &lines),
        depths: numbers(rt, &depths),
        first: Cells::from_vec(vec![in rt.alloc(); 0, 0].expect(rt, "memory")),
        globals: List::from_vec(Vec::from_slice(rt.alloc(), &globals).expect(rt, "memory")),
        functions: numbers(rt, &[]),
    };
    Code::build(rt.alloc(), parts).expect(rt, "a code")
}

/// Whether this is the answer of a run that ended so.
pub(crate) fn is_done(answer: &Answer, output: &[u8], cells: &[u64]) -> bool {
    match answer {
        Answer::Done(printed, left) => printed.as_slice() == output && left.as_slice() == cells,
        Answer::Fault(_, _, _) => false,
    }
}

/// In wave 1 main creates both tasks, in wave 2 both run and give up their cells, and in wave 3 main goes past
/// its wait and ends.
const TRACE: &[u8] =
    b"# wave 1\nstep 0 2\n# wave 2\nstep 0.0 3\nstep 0.1 3\nlet 0.0 0 1\nlet 0.1 1 1\n# wave 3\nstep 0 2\n# tasks 3 waves 3 widest 2\n";

/// On so many workers the run has this trace, and the answer.
fn assert_run<R: Abort + AllocGlobal + Threads + Sync>(rt: &R, code: &Code, workers: u32) {
    assert!(rt; 0 < workers && code.first().len() <= 1_048_576);
    let deps = PlainDeps::new(rt.alloc());
    let run = waves(rt, rt.alloc(), code, 100, deps, workers, &NoGate);
    let WaveRun {
        answer,
        waves: told,
        deps,
    } = run.expect(rt, "memory");
    let text = schedule_text(rt.alloc(), &told).expect(rt, "memory");
    assert!(rt; text.as_slice() == TRACE && is_done(&answer, b"ab", &[5, 7]));
    drop((answer, told, deps, text));
}

#[test]
fn two_tasks_on_one_worker_and_on_four(rt: HostRuntime) {
    let code = code(&rt);
    assert_run(&rt, &code, 1);
    assert_run(&rt, &code, 4);
    drop(code);
}
