//! What a task may do with a cell.

use super::*;

#[test]
fn main_may_touch_its_cells(rt: HostRuntime) {
    let main = main_of(&rt, rt.alloc(), 2);
    assert_cells(&rt, &main, &[FREE, FREE, NO_RIGHT]);
    assert_eq!(rt; main.fold_op(0), None);
    assert_eq!(rt; main.depth(), 0);
    assert_eq!(rt; main.created_count(), 0);
    assert!(rt; !main.is_final());
    drop(main);
}

/// A task with `in` of cell 0, `inout` of cell 1, `weakinout` of cell 2, a reduction by `+` of cell 3, and
/// nothing of cell 4.
fn task_with_each(rt: &impl Abort, alloc: Global) -> Context {
    let clauses = [
        reads(0, 1),
        writes(1, 2),
        access(2, 3, Mode::Write, false),
        access(3, 4, Mode::Fold(Op::Add), true),
    ];
    task_of(rt, alloc, 5, &clauses)
}

#[test]
fn a_task_touches_what_its_clauses_name(rt: HostRuntime) {
    let task = task_with_each(&rt, rt.alloc());
    let read = [None, Some(FaultKind::NoRight), Some(FaultKind::NoRight)];
    let reduced = [
        Some(FaultKind::BadReduction),
        Some(FaultKind::BadReduction),
        None,
    ];
    assert_cells(&rt, &task, &[read, FREE, NO_RIGHT, reduced, NO_RIGHT]);
    assert_eq!(rt; task.fold_op(3), Some(Op::Add));
    assert_eq!(rt; task.may_fold(3, Op::Xor), Err(FaultKind::BadReduction));
    assert_eq!(rt; task.depth(), 1);
    drop(task);
}
