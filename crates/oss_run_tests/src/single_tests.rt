//! Runs by one worker with priorities: the order in which tasks begin, worked by hand.

ghost use Rattle.std.specs.Prelude.{◌<◌};

use oss_code::{Code, CodeParts, GlobalPlace, Instr, SectionBase, SectionForm};
use oss_deps::PlainDeps;
use oss_io::NoGate;
use oss_meaning::Declared;
use oss_model::{Answer, Point};
use oss_prior::{SingleRun, single};
use oss_syntax::{Cells, List, Mode, Range};
use std::process::Abort;

/// A clause `in`.
const IN: Declared = Declared {
    mode: Mode::Read,
    strong: true,
    fresh: false,
};

/// A clause `out`.
const OUT: Declared = Declared {
    mode: Mode::Write,
    strong: true,
    fresh: true,
};

/// A task of main: its access to a global, and its priority, as a cell keeps it.
#[derive(Clone, Copy)]
struct Task {
    global: u32,
    declared: Declared,
    priority: u64,
}

/// A task with `out` of this global.
fn writes(global: u32, priority: u64) -> Task {
    Task {
        global,
        declared: OUT,
        priority,
    }
}

/// A task with `in` of this global.
fn reads(global: u32, priority: u64) -> Task {
    Task {
        global,
        declared: IN,
        priority,
    }
}

/// A list of these numbers.
fn numbers(rt: &(impl Abort + AllocGlobal), numbers: &[u32]) -> List<u32> {
    List::from_vec(Vec::from_slice(rt.alloc(), numbers).expect(rt, "memory"))
}

/// A global with one cell.
fn place(lo: u32) -> GlobalPlace
    requires { lo < 1048576 }
{
    GlobalPlace {
        range: Range { lo, hi: lo + 1 },
        columns: None,
    }
}

/// A code with three globals of one cell, and with these instructions.
fn code(
    rt: &(impl Abort + AllocGlobal),
    instrs: Vec<Instr>,
    depths: &[u32],
    lines: &[u32],
) -> Code {
    let globals = [place(0), place(1), place(2)];
    let parts = CodeParts {
        instrs: List::from_vec(instrs),
        lines: numbers(rt, lines),
        depths: numbers(rt, depths),
        first: Cells::from_vec(vec![in rt.alloc(); 0, 0, 0].expect(rt, "memory")),
        globals: List::from_vec(Vec::from_slice(rt.alloc(), &globals).expect(rt, "memory")),
        functions: numbers(rt, &[]),
    };
    Code::build(rt.alloc(), parts).expect(rt, "a code")
}

/// The creation of a task, whose body stands so many instructions behind it.
fn create(rt: &(impl Abort + AllocGlobal), instrs: &mut Vec<Instr>, task: Task, body: u32) {
    instrs.push(Instr::Begin).expect(rt, "memory");
    let section = Instr::Section(
        SectionBase::Global(task.global),
        SectionForm::Whole,
        task.declared,
    );
    instrs.push(section).expect(rt, "memory");
    instrs.push(Instr::Push(task.priority)).expect(rt, "memory");
    instrs.push(Instr::Priority).expect(rt, "memory");
    instrs.push(Instr::Create(body)).expect(rt, "memory");
}

/// The end of a body.
fn end(rt: &(impl Abort + AllocGlobal), instrs: &mut Vec<Instr>) {
    instrs.push(Instr::Nothing).expect(rt, "memory");
    instrs.push(Instr::Return).expect(rt, "memory");
}

/// The code of a main that creates these four tasks, each of which ends at once.
fn four(rt: &(impl Abort + AllocGlobal), tasks: [Task; 4]) -> Code {
    let [a, b, c, d] = tasks;
    let mut instrs = Vec::new(rt.alloc());
    create(rt, &mut instrs, a, 17);
    create(rt, &mut instrs, b, 12);
    create(rt, &mut instrs, c, 7);
    create(rt, &mut instrs, d, 2);
    end(rt, &mut instrs);
    end(rt, &mut instrs);
    let depths = [
        0, 0, 0, 1, 0, 0, 0, 0, 1, 0, 0, 0, 0, 1, 0, 0, 0, 0, 1, 0, 0, 1, 0, 1,
    ];
    let lines = [
        1, 1, 1, 1, 1, 2, 2, 2, 2, 2, 3, 3, 3, 3, 3, 4, 4, 4, 4, 4, 5, 5, 6, 6,
    ];
    code(rt, instrs, &depths, &lines)
}

/// Whether these are the points, in this order.
fn are_points(points: &[Point], wanted: &[&[u16]]) -> bool {
    if points.len() != wanted.len() {
        return false;
    }
    for at in 0..points.len() {
        if points[at].as_slice() != wanted[at] {
            return false;
        }
    }
    true
}

/// Run by one worker, with this much fuel for each task, the tasks of the code begin in this order, and the run has so
/// many tasks and ends well or not.
fn assert_order(
    rt: &(impl Abort + AllocGlobal),
    code: Code,
    fuel: u32,
    wanted: &[&[u16]],
    tasks: u64,
    ends: bool,
) {
    assert!(rt; code.first().len() <= 1_048_576);
    let deps = PlainDeps::new(rt.alloc());
    let run = single(rt.alloc(), &code, fuel, deps, &NoGate).expect(rt, "memory");
    let SingleRun {
        answer,
        order,
        tasks: counted,
    } = run;
    let done = match &answer {
        Answer::Done(_, _) => true,
        Answer::Fault(_, _, _) => false,
    };
    assert!(rt; are_points(order.as_slice(), wanted) && counted == tasks && done == ends);
    drop((answer, order, code));
}

/// Priorities 1, 5, 0 and 3; the third task waits for the first.
#[test]
fn the_greatest_priority_goes_first(rt: HostRuntime) {
    let code = four(&rt, [writes(0, 1), writes(1, 5), reads(0, 0), writes(2, 3)]);
    let wanted: [&[u16]; 5] = [&[0], &[0, 1], &[0, 3], &[0, 0], &[0, 2]];
    assert_order(&rt, code, 100, &wanted, 5, true);
}

/// With 9 in place of 1 the task that waits is the successor of the first, and goes before the others.
#[test]
fn the_successor_goes_first(rt: HostRuntime) {
    let code = four(&rt, [writes(0, 9), writes(1, 5), reads(0, 0), writes(2, 3)]);
    let wanted: [&[u16]; 5] = [&[0], &[0, 0], &[0, 2], &[0, 1], &[0, 3]];
    assert_order(&rt, code, 100, &wanted, 5, true);
}

/// Among equals the least point decides, also among successors: 0.1 and 0.3 wait for 0.0.
#[test]
fn the_least_point_decides(rt: HostRuntime) {
    let code = four(&rt, [writes(0, 2), reads(0, 2), writes(1, 2), reads(0, 2)]);
    let wanted: [&[u16]; 5] = [&[0], &[0, 0], &[0, 1], &[0, 2], &[0, 3]];
    assert_order(&rt, code, 100, &wanted, 5, true);
}

/// Priorities -1, 0, -2 and 1; a priority below 0 goes behind none.
#[test]
fn priorities_have_a_sign(rt: HostRuntime) {
    let code = four(
        &rt,
        [
            writes(0, u64::MAX),
            writes(1, 0),
            reads(2, u64::MAX - 1),
            reads(2, 1),
        ],
    );
    let wanted: [&[u16]; 5] = [&[0], &[0, 3], &[0, 1], &[0, 0], &[0, 2]];
    assert_order(&rt, code, 100, &wanted, 5, true);
}

/// Main creates 0.0 of priority 1 and 0.1 of priority 3; 0.0 creates 0.0.0 of priority 0 and 0.0.1 of priority 7, over
/// cells of its own.
#[test]
fn tasks_of_tasks_stand_among_all(rt: HostRuntime) {
    let mut instrs = Vec::new(rt.alloc());
    create(&rt, &mut instrs, writes(0, 1), 7);
    create(&rt, &mut instrs, writes(1, 3), 14);
    end(&rt, &mut instrs);
    create(&rt, &mut instrs, reads(0, 0), 7);
    create(&rt, &mut instrs, reads(0, 7), 2);
    end(&rt, &mut instrs);
    end(&rt, &mut instrs);
    let depths = [
        0, 0, 0, 1, 0, 0, 0, 0, 1, 0, 0, 1, 0, 0, 0, 1, 0, 0, 0, 0, 1, 0, 0, 1, 0, 1,
    ];
    let lines = [
        1, 1, 1, 1, 1, 2, 2, 2, 2, 2, 3, 3, 4, 4, 4, 4, 4, 5, 5, 5, 5, 5, 6, 6, 7, 7,
    ];
    let code = code(&rt, instrs, &depths, &lines);
    let wanted: [&[u16]; 5] = [&[0], &[0, 1], &[0, 0], &[0, 0, 1], &[0, 0, 0]];
    assert_order(&rt, code, 100, &wanted, 5, true);
}

/// Without fuel main stands before a fault at once: its turn has no step, and the order is empty.
#[test]
fn a_fault_at_once_leaves_no_order(rt: HostRuntime) {
    let mut instrs = Vec::new(rt.alloc());
    instrs.push(Instr::Tick).expect(&rt, "memory");
    end(&rt, &mut instrs);
    let code = code(&rt, instrs, &[0, 0, 1], &[1, 2, 2]);
    assert_order(&rt, code, 0, &[], 1, false);
}
