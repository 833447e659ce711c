//! What a task has lent, and takes back.

use super::*;

#[test]
fn a_wait_takes_back_all_that_is_lent(rt: HostRuntime) {
    let alloc = rt.alloc();
    let mut main = main_of(&rt, alloc, 3);
    let clauses = [reads(0, 1), access(1, 2, Mode::Write, false)];
    lend(&rt, alloc, &mut main, &clauses);
    assert_cells(&rt, &main, &[LENT_FOR_READING, LENT, FREE]);
    main.waited();
    assert_cells(&rt, &main, &[FREE, FREE, FREE]);
    drop(main);
}

#[test]
fn a_child_is_lent_what_it_still_has(rt: HostRuntime) {
    let alloc = rt.alloc();
    let mut main = main_of(&rt, alloc, 3);
    let mut child = child_of(&rt, alloc, &main, &[reads(0, 1), writes(1, 3)], false);
    assert_releases(&rt, alloc, &mut child, &[writes(2, 3)], None);
    main.lend_to(&child).expect(&rt, "memory to lend");
    assert_cells(&rt, &main, &[LENT_FOR_READING, LENT, FREE]);
    drop(main);
    drop(child);
}

/// A wait for cells has this fault, or it is done.
fn assert_waits(
    rt: &impl Abort,
    alloc: Global,
    task: &mut Context,
    named: &[Range],
    expected: Option<FaultKind>,
) {
    let named = ranges(rt, alloc, named);
    assert_fault(rt, task.waited_on(&named), expected);
}

#[test]
fn a_wait_on_cells_takes_them_back_alone(rt: HostRuntime) {
    let alloc = rt.alloc();
    let mut main = main_of(&rt, alloc, 3);
    lend(&rt, alloc, &mut main, &[writes(0, 3)]);
    assert_waits(&rt, alloc, &mut main, &[Range { lo: 1, hi: 2 }], None);
    assert_waits(
        &rt,
        alloc,
        &mut main,
        &[Range { lo: 2, hi: 4 }],
        Some(FaultKind::NotCovered),
    );
    assert_cells(&rt, &main, &[LENT, FREE, LENT]);
    drop(main);
}

/// A wait for cells has this fault. It is tested and not done.
fn assert_may_wait(
    rt: &impl Abort,
    alloc: Global,
    task: &Context,
    named: &[Range],
    expected: Option<FaultKind>,
) {
    let named = ranges(rt, alloc, named);
    assert_eq!(rt; task.may_wait_on(&named).err(), expected);
}

/// Takes cells back with no test.
fn take_back(rt: &impl Abort, alloc: Global, task: &mut Context, named: &[Range]) {
    let named = ranges(rt, alloc, named);
    task.took_back(&named).expect(rt, "memory for a wait");
}

#[test]
fn a_wait_is_tested_and_then_done(rt: HostRuntime) {
    let alloc = rt.alloc();
    let mut task = task_of(&rt, alloc, 3, &[writes(0, 2)]);
    lend(&rt, alloc, &mut task, &[writes(0, 2)]);
    let first = Range { lo: 0, hi: 1 };
    let last = Range { lo: 2, hi: 3 };
    assert_may_wait(&rt, alloc, &task, &[first], None);
    assert_cells(&rt, &task, &[LENT, LENT, NO_RIGHT]);
    take_back(&rt, alloc, &mut task, &[first]);
    assert_cells(&rt, &task, &[FREE, LENT, NO_RIGHT]);
    assert_may_wait(&rt, alloc, &task, &[last], Some(FaultKind::NotCovered));
    assert_releases(&rt, alloc, &mut task, &[writes(0, 1)], None);
    assert_may_wait(&rt, alloc, &task, &[last, first], Some(FaultKind::Released));
    drop(task);
}
