//! Creations that are noted.

use super::*;

/// Notes the creation of a child, to which nothing is lent.
fn note(rt: &impl Abort, task: &mut Context, child: &Context) {
    match task.may_create() {
        Ok(()) => task.noted(child).expect(rt, "memory for marks"),
        Err(_) => panic!(rt; "no child may be created"),
    }
}

/// Notes the creation of a child, and lends it its cells.
fn note_and_lend(rt: &impl Abort, task: &mut Context, child: &Context) {
    match task.may_create() {
        Ok(()) => task.noted_and_lent(child).expect(rt, "memory to lend"),
        Err(_) => panic!(rt; "no child may be created"),
    }
}

#[test]
fn a_creation_is_noted_with_a_loan_or_without(rt: HostRuntime) {
    let alloc = rt.alloc();
    let mut task = task_of(&rt, alloc, 3, &[out(0, 3)]);
    let unlent = child_of(&rt, alloc, &task, &[out(0, 1)], false);
    note(&rt, &mut task, &unlent);
    drop(unlent);
    assert_cells(&rt, &task, &[FREE, UNWRITTEN, UNWRITTEN]);
    let lent = child_of(&rt, alloc, &task, &[out(1, 2)], false);
    note_and_lend(&rt, &mut task, &lent);
    drop(lent);
    assert_cells(&rt, &task, &[FREE, LENT, UNWRITTEN]);
    assert_eq!(rt; task.created_count(), 2);
    task.waited();
    assert_cells(&rt, &task, &[FREE, FREE, UNWRITTEN]);
    drop(task);
}
