//! Held states at their beginning, as a core that was made of the same code has it, and as they were worked by hand.

ghost use Rattle.std.specs.Prelude.{◌≤◌, length};

use oss_code::{Code, CodeParts, Instr};
use oss_core::Core;
use oss_deps::PlainDeps;
use oss_held::Held;
use oss_model::{Answer, TaskNo};
use oss_syntax::{Cells, FaultKind, List};
use std::process::Abort;

/// A list of these numbers.
fn numbers(rt: &(impl Abort + AllocGlobal), numbers: &[u32]) -> List<u32> {
    List::from_vec(Vec::from_slice(rt.alloc(), numbers).expect(rt, "memory"))
}

/// The code of a main without cells that asks for a tick on line 4, and ends.
fn ticking(rt: &(impl Abort + AllocGlobal)) -> Code {
    let instrs = [Instr::Tick, Instr::Nothing, Instr::Return];
    let parts = CodeParts {
        instrs: List::from_vec(Vec::from_array(rt.alloc(), instrs).expect(rt, "memory")),
        lines: numbers(rt, &[4, 5, 5]),
        depths: numbers(rt, &[0, 0, 1]),
        first: Cells::from_vec(Vec::new(rt.alloc())),
        globals: List::from_vec(Vec::new(rt.alloc())),
        functions: numbers(rt, &[]),
    };
    Code::build(rt.alloc(), parts).expect(rt, "a code")
}

/// The points of the tasks of a held state are that of the one task of a core at its beginning.
fn assert_points(rt: &(impl Abort + AllocGlobal), code: &Code, held: &Held)
    requires { length code.now.first ≤ 1048576 }
{
    let deps = PlainDeps::new(rt.alloc());
    let core = Core::new(rt.alloc(), code, 100, deps).expect(rt, "memory");
    let points = held.points().expect(rt, "memory");
    assert!(rt; core.count() == 1 && points.len() == 1);
    assert!(rt; points.as_slice()[0].as_slice() == core.point(TaskNo(0)).as_slice());
    drop(points);
    drop(core);
}

/// With fuel for its tick the run goes on from its beginning: there is no answer yet, and the held state stays.
#[test]
fn has_main_alone_at_its_beginning(rt: HostRuntime) {
    let code = ticking(&rt);
    assert!(rt; code.first().len() <= 1_048_576);
    let mut held = Held::opening(rt.alloc(), &code, 100).expect(&rt, "memory");
    assert_eq!(rt; held.needs(), 1);
    assert_points(&rt, &code, &held);
    assert!(rt; held.answer().expect(&rt, "memory").is_none());
    assert_eq!(rt; held.needs(), 1);
    assert_points(&rt, &code, &held);
    drop(held);
    drop(code);
}

/// Whether the answer is the fault of a task without fuel on this line, with nothing printed before it.
fn is_out_of_fuel(answer: &Answer, at: u32) -> bool {
    match answer {
        Answer::Fault(kind, line, output) => {
            *kind == FaultKind::OutOfFuel && *line == at && output.as_slice().is_empty()
        }
        Answer::Done(_, _) => false,
    }
}

/// Without fuel for the tick no move is left at the beginning: the answer is the fault on line 4.
#[test]
fn answers_a_stopped_state(rt: HostRuntime) {
    let code = ticking(&rt);
    assert!(rt; code.first().len() <= 1_048_576);
    let mut held = Held::opening(rt.alloc(), &code, 0).expect(&rt, "memory");
    let answer = held.answer().expect(&rt, "memory").expect(&rt, "an answer");
    assert!(rt; is_out_of_fuel(&answer, 4));
    drop(answer);
    drop(held);
    drop(code);
}
