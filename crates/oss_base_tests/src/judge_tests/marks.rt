//! Which cells are written.

use super::*;

/// Marks what a creation with these clauses writes.
fn make(rt: &impl Abort, alloc: Global, task: &mut Context, clauses: &[Access]) {
    let clauses = list(rt, alloc, clauses);
    task.made(&clauses).expect(rt, "memory for marks");
}

#[test]
fn a_cell_of_out_is_written_first(rt: HostRuntime) {
    let alloc = rt.alloc();
    let mut task = task_of(&rt, alloc, 3, &[out(0, 3), reads(2, 3)]);
    assert_cells(&rt, &task, &[UNWRITTEN, UNWRITTEN, FREE]);
    task.wrote(0).expect(&rt, "memory for a mark");
    task.waited();
    assert_cells(&rt, &task, &[FREE, UNWRITTEN, FREE]);
    make(&rt, alloc, &mut task, &[out(1, 2)]);
    assert_cells(&rt, &task, &[FREE, FREE, FREE]);
    drop(task);
}

#[test]
fn a_child_writes_for_its_creator(rt: HostRuntime) {
    let alloc = rt.alloc();
    let mut task = task_of(&rt, alloc, 2, &[out(0, 2)]);
    let child = child_of(&rt, alloc, &task, &[out(0, 1), reads(1, 2)], false);
    task.made_by(&child).expect(&rt, "memory for marks");
    assert_cells(&rt, &task, &[FREE, UNWRITTEN]);
    drop(task);
    drop(child);
}

/// The access at a place among those of a task has these ends, and its cells are written first or not.
fn assert_access(rt: &impl Abort, task: &Context, at: usize, expected: Option<(u32, u32, bool)>) {
    let accesses = task.accesses().expect(rt, "memory for accesses");
    let told = match accesses.get(at) {
        Some(access) => Some((access.range.lo, access.range.hi, access.fresh)),
        None => None,
    };
    assert_eq!(rt; told, expected);
}

#[test]
fn accesses_are_cut_where_marks_differ(rt: HostRuntime) {
    let mut task = task_of(&rt, rt.alloc(), 2, &[out(0, 2)]);
    assert_access(&rt, &task, 0, Some((0, 2, true)));
    assert_access(&rt, &task, 1, None);
    task.wrote(0).expect(&rt, "memory for a mark");
    assert_access(&rt, &task, 0, Some((0, 1, false)));
    assert_access(&rt, &task, 1, Some((1, 2, true)));
    drop(task);
}

#[test]
fn a_copy_goes_its_own_way(rt: HostRuntime) {
    let task = task_of(&rt, rt.alloc(), 2, &[out(0, 2)]);
    let mut copy = task.copy().expect(&rt, "memory for a copy");
    assert_cells(&rt, &copy, &[UNWRITTEN, UNWRITTEN]);
    copy.wrote(0).expect(&rt, "memory for a mark");
    assert_cells(&rt, &copy, &[FREE, UNWRITTEN]);
    assert_cells(&rt, &task, &[UNWRITTEN, UNWRITTEN]);
    drop(task);
    drop(copy);
}
