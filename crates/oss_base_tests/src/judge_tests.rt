//! What no clause says: that each public call answers where there is memory. The faults that are expected are
//! those of the rules, worked by hand. Each context dies by a call of `drop`: at the end of a function the
//! proof would take its maps apart anew.

ghost use Rattle.std.specs.Prelude.{◌<◌, ◌≤◌};

use oss_judge::{Context, Given, JudgeRefused};
use oss_model::FaultKind;
use oss_syntax::{Access, List, Mode, Op, Range};
use std::alloc::Global;
use std::process::Abort;

mod beforehand;
mod creations;
mod limits;
mod marks;
mod notes;
mod releases;
mod touches;
mod waits;

/// An access of `in`, `inout` or a reduction, or of its weak form.
fn access(lo: u32, hi: u32, mode: Mode, strong: bool) -> Access
    requires some { lo < hi }
    requires within { hi ≤ 1048576 }
{
    Access {
        range: Range { lo, hi },
        mode,
        strong,
        fresh: false,
    }
}

/// An access of `in` to cells.
fn reads(lo: u32, hi: u32) -> Access
    requires some { lo < hi }
    requires within { hi ≤ 1048576 }
{
    access(lo, hi, Mode::Read, true)
}

/// An access of `inout` to cells.
fn writes(lo: u32, hi: u32) -> Access
    requires some { lo < hi }
    requires within { hi ≤ 1048576 }
{
    access(lo, hi, Mode::Write, true)
}

/// An access of `out` to cells.
fn out(lo: u32, hi: u32) -> Access
    requires some { lo < hi }
    requires within { hi ≤ 1048576 }
{
    Access {
        range: Range { lo, hi },
        mode: Mode::Write,
        strong: true,
        fresh: true,
    }
}

/// These accesses, as a creation takes them.
fn list(rt: &impl Abort, alloc: Global, accesses: &[Access]) -> List<Access> {
    List::from_vec(accesses.to_vec(alloc).expect(rt, "memory for clauses"))
}

/// These ranges, as a wait for some cells takes them.
fn ranges(rt: &impl Abort, alloc: Global, named: &[Range]) -> List<Range> {
    List::from_vec(named.to_vec(alloc).expect(rt, "memory for ranges"))
}

/// Main over so many cells.
fn main_of(rt: &impl Abort, alloc: Global, cells: u32) -> Context
    requires { cells ≤ 1048576 }
{
    Context::main(alloc, cells, 1).expect(rt, "memory for main")
}

/// A child of a context, which may have one with these clauses.
fn child_of(
    rt: &impl Abort,
    alloc: Global,
    creator: &Context,
    clauses: &[Access],
    last: bool,
) -> Context {
    let clauses = list(rt, alloc, clauses);
    match creator.may_create() {
        Ok(()) => creator.child(&clauses, last).expect(rt, "a child"),
        Err(_) => panic!(rt; "no child may be created"),
    }
}

/// A task that main has created, over so many cells.
fn task_of(rt: &impl Abort, alloc: Global, cells: u32, clauses: &[Access]) -> Context
    requires { cells ≤ 1048576 }
{
    let main = main_of(rt, alloc, cells);
    let task = child_of(rt, alloc, &main, clauses, false);
    drop(main);
    task
}

/// The faults of a read, of a write and of a fold by `+` of a cell.
type Faults = [Option<FaultKind>; 3];

/// Each touch is allowed.
const FREE: Faults = [None, None, None];

/// The task never had a right to the cell.
const NO_RIGHT: Faults = [
    Some(FaultKind::NoRight),
    Some(FaultKind::NoRight),
    Some(FaultKind::NoRight),
];

/// The task has given the cell up.
const RELEASED: Faults = [
    Some(FaultKind::Released),
    Some(FaultKind::Released),
    Some(FaultKind::Released),
];

/// The cell is lent to a child that may write it.
const LENT: Faults = [
    Some(FaultKind::Lent),
    Some(FaultKind::Lent),
    Some(FaultKind::Lent),
];

/// The cell is lent to children that only read it.
const LENT_FOR_READING: Faults = [None, Some(FaultKind::Lent), Some(FaultKind::Lent)];

/// The cell has no value yet, so only a write is allowed.
const UNWRITTEN: Faults = [Some(FaultKind::Unwritten), None, Some(FaultKind::Unwritten)];

/// The touches of the first cells have these faults.
fn assert_cells(rt: &impl Abort, task: &Context, expected: &[Faults]) {
    let mut cell = 0u32;
    for faults in expected {
        assert_eq!(rt; task.may_read(cell).err(), faults[0], "a read of {cell}");
        assert_eq!(rt; task.may_write(cell).err(), faults[1], "a write of {cell}");
        assert_eq!(rt;
            task.may_fold(cell, Op::Add).err(),
            faults[2],
            "a fold into {cell}"
        );
        cell = cell.saturating_add(1);
    }
}

/// A call told this fault, or that there is none. It did not want memory.
fn assert_fault(rt: &impl Abort, answer: Result<(), JudgeRefused>, expected: Option<FaultKind>) {
    let told = match answer {
        Ok(()) => None,
        Err(JudgeRefused::Fault(kind)) => Some(kind),
        Err(JudgeRefused::Memory(_)) => panic!(rt; "no memory"),
    };
    assert_eq!(rt; told, expected);
}

/// A creation with these clauses has this fault.
fn assert_gives(
    rt: &impl Abort,
    alloc: Global,
    task: &Context,
    clauses: &[Access],
    expected: Option<FaultKind>,
) {
    let clauses = list(rt, alloc, clauses);
    assert_fault(rt, task.may_give(&clauses, false), expected);
}

/// A release of the cells of these clauses has this fault, or it is done.
fn assert_releases(
    rt: &impl Abort,
    alloc: Global,
    task: &mut Context,
    clauses: &[Access],
    expected: Option<FaultKind>,
) {
    let clauses = list(rt, alloc, clauses);
    assert_fault(rt, task.release(&clauses), expected);
}

/// Lends these cells, as at a creation with these clauses.
fn lend(rt: &impl Abort, alloc: Global, task: &mut Context, clauses: &[Access]) {
    let clauses = list(rt, alloc, clauses);
    task.lend(&clauses).expect(rt, "memory to lend");
}
