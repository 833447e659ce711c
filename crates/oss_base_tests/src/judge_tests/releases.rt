//! What a task gives up.

use super::*;

#[test]
fn released_cells_are_gone(rt: HostRuntime) {
    let alloc = rt.alloc();
    let mut task = task_of(&rt, alloc, 3, &[writes(0, 3)]);
    let gone = Some(FaultKind::Released);
    assert_releases(&rt, alloc, &mut task, &[writes(0, 1)], None);
    assert_gives(&rt, alloc, &task, &[writes(0, 1)], gone);
    assert_releases(&rt, alloc, &mut task, &[writes(0, 2)], gone);
    assert_releases(
        &rt,
        alloc,
        &mut task,
        &[reads(2, 4)],
        Some(FaultKind::NotCovered),
    );
    assert_cells(&rt, &task, &[RELEASED, FREE, FREE]);
    drop(task);
}

/// A release of the cells of these clauses has this fault. It is tested and not done.
fn assert_may_release(
    rt: &impl Abort,
    alloc: Global,
    task: &Context,
    clauses: &[Access],
    expected: Option<FaultKind>,
) {
    let clauses = list(rt, alloc, clauses);
    assert_fault(rt, task.may_release(&clauses), expected);
}

/// Releases cells with no test.
fn give_up(rt: &impl Abort, alloc: Global, task: &mut Context, clauses: &[Access]) {
    let clauses = list(rt, alloc, clauses);
    task.released(&clauses).expect(rt, "memory for a release");
}

#[test]
fn a_release_is_tested_and_then_done(rt: HostRuntime) {
    let alloc = rt.alloc();
    let mut task = task_of(&rt, alloc, 3, &[writes(0, 2)]);
    assert_may_release(&rt, alloc, &task, &[writes(1, 2)], None);
    assert_cells(&rt, &task, &[FREE, FREE, NO_RIGHT]);
    give_up(&rt, alloc, &mut task, &[writes(1, 2)]);
    assert_cells(&rt, &task, &[FREE, RELEASED, NO_RIGHT]);
    assert_may_release(&rt, alloc, &task, &[reads(1, 3)], Some(FaultKind::Released));
    drop(task);
}
