//! Folds beside values that were worked by hand.

use oss_slots::Slots;
use oss_syntax::{Op, Range};
use std::alloc::{AllocError, Global};
use std::test::Fail;

/// What the slot of a cell has after two folds, and what is left in it once that was taken.
fn after_folds(alloc: Global, op: Op, first: u64, second: u64) -> Result<(u64, u64), AllocError> {
    let mut slots = Slots::new(alloc);
    slots.add(Range { lo: 3, hi: 6 }, op)?;
    slots.fold(4, first);
    slots.fold(4, second);
    let value = slots.take(4);
    Ok((value, slots.value(4)))
}

#[test]
fn a_sum_wraps(rt: HostRuntime) -> Result<(), Fail> {
    let sum = after_folds(rt.alloc(), Op::Add, 7, 0xFFFF_FFFF_FFFF_FFFF)?;
    assert_eq!(rt; sum, (6, 0));
    Ok(())
}

#[test]
fn bits_are_kept_that_all_values_have(rt: HostRuntime) -> Result<(), Fail> {
    let kept = after_folds(rt.alloc(), Op::And, 6, 3)?;
    assert_eq!(rt; kept, (2, 0xFFFF_FFFF_FFFF_FFFF));
    Ok(())
}

#[test]
fn bits_are_set_that_some_value_has(rt: HostRuntime) -> Result<(), Fail> {
    let set = after_folds(rt.alloc(), Op::Or, 6, 3)?;
    assert_eq!(rt; set, (7, 0));
    Ok(())
}

#[test]
fn bits_are_set_that_one_value_of_two_has(rt: HostRuntime) -> Result<(), Fail> {
    let odd = after_folds(rt.alloc(), Op::Xor, 6, 3)?;
    assert_eq!(rt; odd, (5, 0));
    Ok(())
}

#[test]
fn a_fold_stays_in_its_slot(rt: HostRuntime) -> Result<(), Fail> {
    let mut slots = Slots::new(rt.alloc());
    slots.add(Range { lo: 3, hi: 6 }, Op::Add)?;
    slots.add(Range { lo: 0, hi: 3 }, Op::Or)?;
    slots.fold(4, 9);
    assert_eq!(rt;
        (
            slots.value(2),
            slots.value(3),
            slots.value(4),
            slots.value(5)
        ),
        (0, 0, 9, 0)
    );
    Ok(())
}
