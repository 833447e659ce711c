//! A line without the accesses on which nothing depends any more.

ghost use Rattle.std.specs.Prelude.{◌≡◌, ◌<◌, ◌↔◌, ℕ, length, slice_get, true, IfOk, IsTrue, Some};
ghost use Rattle.oss_access_lists.specs.Tables.{marks_at};
ghost use Rattle.oss_retire.specs.Remainder.{AreRising, IsRemainder, is_spent};
ghost use Rattle.oss_retire.specs.Tables.{TellsTheSame};

use crate::copying::{copied, is_spent};
use oss_access_lists::AccessList;
use std::alloc::{AllocError, Global};

/// The accesses to a cell, with the number of each one's task, main's first.
#[derive(Drop)]
pub struct Remainder {
    pub line: AccessList,
    pub numbers: Vec<usize>,
}

/// The accesses to a cell without those that are spent: done, with nothing earlier in the way of a write of
/// them. All before such an access in its list, and all below it, are spent too, and what is told of each other
/// access stays so: a released access stands in no list any more (Perez, Beltran, Labarta and Ayguadé, IPDPS
/// 2017). What is left tells the same of the opened tasks, and numbers that rise still do. Err: memory is
/// wanting. It costs as much as there are accesses. Conditions: the line is settled; each access has a number,
/// and main's is among them.
pub fn remainder_of(
    alloc: Global,
    line: &AccessList,
    numbers: &[usize],
) -> Result<Remainder, AllocError>
    requires settled { line.now.head ≡ 0 }
    requires size { length numbers.now ≡ length line.now.hangs }
    requires some { 0 < length line.now.hangs }
    ensures remainder { IfOk result (λ l. IsRemainder line.now.hangs line.now.stand numbers.now l.line.hangs
        l.numbers.items) }
    ensures same { IfOk result (λ l. TellsTheSame line.now.hangs numbers.now l.line.hangs l.numbers.items) }
    ensures settled { IfOk result (λ l. l.line.head ≡ 0) }
    ensures size { IfOk result (λ l. length l.numbers.items ≡ length l.line.hangs) }
    ensures main { IfOk result (λ l. slice_get l.numbers.items 0 ≡ Some 0) }
    ensures rising { IfOk result (λ l. AreRising numbers.now → AreRising l.numbers.items) }
{
    let mut copy = copied(alloc, line, numbers)?;
    copy.give_all(line, numbers);
    copy.line.settle();
    Ok(copy.told(line, numbers))
}

/// An access of the line, other than main's, is spent. It costs one look at each at most. Condition: the line
/// is settled.
pub fn has_spent(line: &AccessList) -> bool
    requires settled { line.now.head ≡ 0 }
    ensures { IsTrue result ↔ ((v : ℕ) × (v < length line.now.hangs) ×
        ((v ≡ 0 → ⊥) × (is_spent (marks_at line.now.stand v) ≡ true))) }
{
    for at in 1..line.count() {
        if is_spent(line.flags(at)) {
            return true;
        }
    }
    false
}
