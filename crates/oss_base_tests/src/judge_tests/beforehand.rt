//! Creations and releases that are judged by what their clauses give, which was worked out before.

use super::*;

/// What these clauses give.
fn given_by(rt: &impl Abort, alloc: Global, clauses: &List<Access>, is_final: bool) -> Given {
    Given::of(alloc, clauses, is_final).expect(rt, "memory for rights")
}

/// A creation with these clauses has this fault by what they give, and by the call that works it out itself.
fn assert_gives_these(
    rt: &impl Abort,
    alloc: Global,
    task: &Context,
    clauses: &[Access],
    expected: Option<FaultKind>,
) {
    let clauses = list(rt, alloc, clauses);
    let given = given_by(rt, alloc, &clauses, false);
    assert_eq!(rt; task.may_give_these(&given, &clauses).err(), expected);
    drop(given);
    assert_fault(rt, task.may_give(&clauses, false), expected);
}

/// A release of the cells of these clauses has this fault by what they give, and by the call that works it out itself.
fn assert_releases_these(
    rt: &impl Abort,
    alloc: Global,
    task: &Context,
    clauses: &[Access],
    expected: Option<FaultKind>,
) {
    let clauses = list(rt, alloc, clauses);
    let given = given_by(rt, alloc, &clauses, false);
    assert_eq!(rt; task.may_release_these(&given, &clauses).err(), expected);
    drop(given);
    assert_fault(rt, task.may_release(&clauses), expected);
}

#[test]
fn faults_are_those_of_the_calls_that_take_memory(rt: HostRuntime) {
    let alloc = rt.alloc();
    let mut task = task_of(&rt, alloc, 4, &[writes(0, 3)]);
    assert_releases(&rt, alloc, &mut task, &[writes(0, 1)], None);
    assert_gives_these(&rt, alloc, &task, &[reads(1, 3)], None);
    assert_releases_these(&rt, alloc, &task, &[reads(1, 3)], None);
    let gone = Some(FaultKind::Released);
    assert_gives_these(&rt, alloc, &task, &[reads(0, 4)], gone);
    assert_releases_these(&rt, alloc, &task, &[reads(0, 4)], gone);
    let beyond = Some(FaultKind::NotCovered);
    assert_gives_these(&rt, alloc, &task, &[reads(2, 4)], beyond);
    assert_releases_these(&rt, alloc, &task, &[reads(2, 4)], beyond);
    let mixed = [reads(0, 2), access(1, 4, Mode::Fold(Op::Add), true)];
    let unjoined = Some(FaultKind::MixedAccess);
    assert_gives_these(&rt, alloc, &task, &mixed, unjoined);
    drop(task);
}

/// The context in which a new task with these clauses starts.
fn start_of(
    rt: &impl Abort,
    alloc: Global,
    creator: &Context,
    clauses: &[Access],
    last: bool,
) -> Context {
    let clauses = list(rt, alloc, clauses);
    let given = given_by(rt, alloc, &clauses, last);
    match creator.may_create() {
        Ok(()) => creator.start(&given, &clauses, last).expect(rt, "a start"),
        Err(_) => panic!(rt; "no task may be created"),
    }
}

#[test]
fn a_task_starts_with_what_its_clauses_give(rt: HostRuntime) {
    let alloc = rt.alloc();
    let main = main_of(&rt, alloc, 3);
    let task = start_of(&rt, alloc, &main, &[out(0, 1), writes(1, 2)], false);
    let weak = [access(0, 1, Mode::Write, false)];
    let last = start_of(&rt, alloc, &main, &weak, true);
    drop(main);
    assert!(rt; last.is_final() && !task.is_final());
    assert_cells(&rt, &task, &[UNWRITTEN, FREE, NO_RIGHT]);
    assert_cells(&rt, &last, &[FREE, NO_RIGHT, NO_RIGHT]);
    drop(task);
    drop(last);
}
