//! What a task may give to a child, and what the child starts with.

use super::*;

/// A reduction, by whichever operator.
const REDUCTION: Mode = Mode::Fold(Op::Add);

#[test]
fn a_creation_is_covered_by_the_rights_of_its_creator(rt: HostRuntime) {
    let alloc = rt.alloc();
    let task = task_of(&rt, alloc, 2, &[reads(0, 1)]);
    assert_gives(&rt, alloc, &task, &[reads(0, 1)], None);
    let beyond = Some(FaultKind::NotCovered);
    assert_gives(&rt, alloc, &task, &[writes(0, 1)], beyond);
    assert_gives(&rt, alloc, &task, &[reads(0, 2)], beyond);
    drop(task);
}

#[test]
fn a_reduction_is_joined_to_itself_alone(rt: HostRuntime) {
    let alloc = rt.alloc();
    let main = main_of(&rt, alloc, 2);
    let twice = [
        access(0, 1, REDUCTION, true),
        access(0, 2, REDUCTION, false),
    ];
    assert_gives(&rt, alloc, &main, &twice, None);
    let mixed = [reads(0, 1), access(0, 2, REDUCTION, true)];
    assert_gives(&rt, alloc, &main, &mixed, Some(FaultKind::MixedAccess));
    let other = [
        access(0, 1, Mode::Fold(Op::Xor), true),
        access(0, 2, REDUCTION, true),
    ];
    assert_gives(&rt, alloc, &main, &other, Some(FaultKind::MixedAccess));
    drop(main);
}

/// The creation of a child with these clauses has this fault.
fn assert_creates(
    rt: &impl Abort,
    alloc: Global,
    task: &Context,
    clauses: &[Access],
    expected: Option<FaultKind>,
) {
    let clauses = list(rt, alloc, clauses);
    match task.may_create() {
        Ok(()) => match task.child(&clauses, false) {
            Ok(child) => {
                drop(child);
                assert_eq!(rt; expected, None);
            }
            Err(refused) => assert_fault(rt, Err(refused), expected),
        },
        Err(_) => panic!(rt; "no child may be created"),
    }
}

#[test]
fn a_child_has_the_faults_of_its_clauses(rt: HostRuntime) {
    let alloc = rt.alloc();
    let main = main_of(&rt, alloc, 2);
    assert_creates(&rt, alloc, &main, &[writes(0, 2)], None);
    assert_creates(
        &rt,
        alloc,
        &main,
        &[reads(1, 3)],
        Some(FaultKind::NotCovered),
    );
    drop(main);
}

#[test]
fn a_final_task_makes_weak_accesses_strong(rt: HostRuntime) {
    let alloc = rt.alloc();
    let main = main_of(&rt, alloc, 1);
    let weak = [access(0, 1, Mode::Write, false)];
    let last = child_of(&rt, alloc, &main, &weak, true);
    drop(main);
    let included = child_of(&rt, alloc, &last, &weak, false);
    assert!(rt; last.is_final() && included.is_final());
    assert_cells(&rt, &last, &[FREE]);
    assert_cells(&rt, &included, &[FREE]);
    drop(last);
    drop(included);
}
