//! What a task uses up.

use super::*;

#[test]
fn fuel_is_used_up(rt: HostRuntime) {
    let mut main = Context::main(rt.alloc(), 0, 2).expect(&rt, "memory for main");
    let used_up = Some(FaultKind::OutOfFuel);
    for fault in [None, None, used_up] {
        assert_eq!(rt; main.may_tick().err(), fault);
        assert_eq!(rt; main.tick().err(), fault);
    }
    drop(main);
}

#[test]
fn tasks_are_at_most_65535(rt: HostRuntime) {
    let mut main = main_of(&rt, rt.alloc(), 0);
    for _task in 0..65_535 {
        assert_eq!(rt; main.may_create(), Ok(()));
        if main.created_count() < 65_535 {
            main.created();
        }
    }
    assert_eq!(rt; main.created_count(), 65_535);
    assert_eq!(rt; main.may_create(), Err(FaultKind::TooManyTasks));
    drop(main);
}

/// A child of a task in place of it.
fn deeper(rt: &impl Abort, alloc: Global, task: Context) -> Context {
    let child = child_of(rt, alloc, &task, &[reads(0, 1)], false);
    drop(task);
    child
}

#[test]
fn tasks_nest_64_deep(rt: HostRuntime) {
    let alloc = rt.alloc();
    let mut task = main_of(&rt, alloc, 1);
    for _level in 0..64 {
        assert_eq!(rt; task.may_create(), Ok(()));
        task = deeper(&rt, alloc, task);
    }
    assert_eq!(rt; task.depth(), 64);
    assert_eq!(rt; task.may_create(), Err(FaultKind::TooDeep));
    drop(task);
}
