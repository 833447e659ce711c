//! What is left of small lines, beside values that were worked by hand.

ghost use Rattle.std.specs.Prelude.{◌≡◌, true};
ghost use Rattle.oss_model.specs.Rights.{covers};

use oss_access_lists::AccessList;
use oss_retire::{has_spent, remainder_of};
use oss_syntax::{Mode, Op};
use std::alloc::Global;
use std::process::Abort;
use std::test::Fail;

/// An access of this mode covers each one of a child.
fn is_write(mode: Mode, child: Mode) -> bool
    ensures { result ≡ true → covers mode child ≡ true }
{
    match mode {
        Mode::Read => false,
        Mode::Write => true,
        Mode::Fold(_) => false,
    }
}

/// Hangs an access below a write.
fn hang(rt: &impl Abort, line: &mut AccessList, above: usize, mode: Mode) -> Result<(), Fail> {
    assert!(rt; above < line.count());
    let creator = line.hang(above);
    assert!(rt; !creator.gave);
    assert!(rt; is_write(creator.mode, mode));
    line.open(above, mode)?;
    line.settle();
    Ok(())
}

/// Gives up the cell of an access.
fn give(rt: &impl Abort, line: &mut AccessList, at: usize) {
    assert!(rt; at != 0);
    assert!(rt; at < line.count());
    line.give(at);
    line.settle();
}

/// The flags of an access as bits, the lowest first: it may read, join, write; it is given up, done; all before
/// it is done.
fn flags(rt: &impl Abort, line: &AccessList, at: usize) -> u16 {
    assert!(rt; line.is_settled());
    assert!(rt; at != 0);
    assert!(rt; at < line.count());
    line.flags(at).bits()
}

/// The numbers of the accesses that are left, main's first, and the flags of these but main's.
fn assert_left(
    rt: &impl Abort,
    alloc: Global,
    line: &AccessList,
    numbers: &[usize],
    left: &[usize],
    marks: &[u16],
) -> Result<(), Fail> {
    assert!(rt; line.is_settled());
    assert!(rt; numbers.len() == line.count());
    assert!(rt; line.count() > 0);
    assert_eq!(rt; has_spent(line), left.len() < numbers.len());
    let rest = remainder_of(alloc, line, numbers)?;
    assert_eq!(rt; rest.numbers.as_slice(), left);
    for (at, mark) in marks.iter().enumerate() {
        assert_eq!(rt; flags(rt, &rest.line, at + 1), *mark);
    }
    Ok(())
}

/// A write, access 1, with the write of a child, access 2, below it, and behind 1 a write and a read.
#[test]
fn what_is_over_is_left_out(rt: HostRuntime) -> Result<(), Fail> {
    let alloc = rt.alloc();
    let mut line = AccessList::new(alloc)?;
    hang(&rt, &mut line, 0, Mode::Write)?;
    hang(&rt, &mut line, 1, Mode::Write)?;
    hang(&rt, &mut line, 0, Mode::Write)?;
    hang(&rt, &mut line, 0, Mode::Read)?;
    let numbers = [0, 1, 2, 3, 4];
    // all are left while the child holds the cell, though 1 has given it up
    give(&rt, &mut line, 1);
    assert_left(
        &rt,
        alloc,
        &line,
        &numbers,
        &[0, 1, 2, 3, 4],
        &[45, 37, 0, 0],
    )?;
    // 3 is the first of the list then
    give(&rt, &mut line, 2);
    assert_left(&rt, alloc, &line, &numbers, &[0, 3, 4], &[37, 0])?;
    // and 4 once 3 is done
    give(&rt, &mut line, 3);
    assert_left(&rt, alloc, &line, &numbers, &[0, 4], &[37])?;
    give(&rt, &mut line, 4);
    assert_left(&rt, alloc, &line, &numbers, &[0], &[])
}

/// Two reductions behind a write, the second done before the first, and a read behind these.
#[test]
fn what_is_done_behind_another_stays(rt: HostRuntime) -> Result<(), Fail> {
    let alloc = rt.alloc();
    let mut line = AccessList::new(alloc)?;
    hang(&rt, &mut line, 0, Mode::Write)?;
    hang(&rt, &mut line, 0, Mode::Fold(Op::Add))?;
    hang(&rt, &mut line, 0, Mode::Fold(Op::Add))?;
    hang(&rt, &mut line, 0, Mode::Read)?;
    let numbers = [0, 10, 20, 30, 40];
    give(&rt, &mut line, 1);
    give(&rt, &mut line, 3);
    assert_left(&rt, alloc, &line, &numbers, &[0, 20, 30, 40], &[39, 26, 0])?;
    give(&rt, &mut line, 2);
    assert_left(&rt, alloc, &line, &numbers, &[0, 40], &[37])
}
