//! Flags beside values that were worked by hand, a copy, and a long chain of accesses that is given up link by link.

ghost use Rattle.std.specs.Prelude.{◌≡◌, true};
ghost use Rattle.oss_model.specs.Rights.{covers};

use oss_access_lists::AccessList;
use oss_syntax::{Mode, Op};
use std::process::Abort;
use std::test::Fail;

/// How many accesses hang in the chain.
const LENGTH: usize = 1_000;

/// The flags of an access as bits, the lowest first: it may read, join, write; it is given up, done; all before
/// it is done.
type Bits = u16;

/// An access of this mode covers each one of a child.
fn covers_all(mode: Mode, child: Mode) -> bool
    ensures { result ≡ true → covers mode child ≡ true }
{
    match mode {
        Mode::Read => false,
        Mode::Write => true,
        Mode::Fold(_) => false,
    }
}

/// Hangs an access below one that covers all.
fn hang_below(
    rt: &impl Abort,
    line: &mut AccessList,
    above: usize,
    mode: Mode,
) -> Result<(), Fail> {
    assert!(rt; above < line.count());
    let creator = line.hang(above);
    assert!(rt; !creator.gave);
    assert!(rt; covers_all(creator.mode, mode));
    line.open(above, mode)?;
    Ok(())
}

/// Gives up the cell of an access, and settles the line.
fn give(rt: &impl Abort, line: &mut AccessList, at: usize) {
    assert!(rt; at != 0);
    assert!(rt; at < line.count());
    line.give(at);
    line.settle();
}

/// The flags of an access in the line once it is settled.
fn flags_of(rt: &impl Abort, line: &mut AccessList, at: usize) -> Bits {
    assert!(rt; at != 0);
    assert!(rt; at < line.count());
    line.settle();
    line.flags(at).bits()
}

/// The flags of the five accesses of the small line.
fn all_flags(rt: &impl Abort, line: &mut AccessList) -> [Bits; 5] {
    [
        flags_of(rt, line, 1),
        flags_of(rt, line, 2),
        flags_of(rt, line, 3),
        flags_of(rt, line, 4),
        flags_of(rt, line, 5),
    ]
}

#[test]
fn flags_come_in_order(rt: HostRuntime) -> Result<(), Fail> {
    // a write with the write of a child below it, two reductions behind it, and a read behind these
    let mut line = AccessList::new(rt.alloc())?;
    hang_below(&rt, &mut line, 0, Mode::Write)?;
    hang_below(&rt, &mut line, 1, Mode::Write)?;
    hang_below(&rt, &mut line, 0, Mode::Fold(Op::Add))?;
    hang_below(&rt, &mut line, 0, Mode::Fold(Op::Add))?;
    hang_below(&rt, &mut line, 0, Mode::Read)?;
    // the child may write as its creator may, and all others wait
    assert_eq!(rt; all_flags(&rt, &mut line), [37, 37, 0, 0, 0]);
    // what is given up is not done while the child holds the cell
    give(&rt, &mut line, 1);
    assert_eq!(rt; all_flags(&rt, &mut line), [45, 37, 0, 0, 0]);
    // now it is, and both reductions may be joined, the second before the first is done
    give(&rt, &mut line, 2);
    assert_eq!(rt; all_flags(&rt, &mut line), [61, 61, 39, 2, 0]);
    // the read waits for both of them
    give(&rt, &mut line, 4);
    assert_eq!(rt; all_flags(&rt, &mut line), [61, 61, 39, 26, 0]);
    give(&rt, &mut line, 3);
    assert_eq!(rt; all_flags(&rt, &mut line), [61, 61, 63, 63, 37]);
    Ok(())
}

#[test]
fn a_copy_goes_its_own_way(rt: HostRuntime) -> Result<(), Fail> {
    let mut line = AccessList::new(rt.alloc())?;
    line.reserve()?;
    hang_below(&rt, &mut line, 0, Mode::Write)?;
    hang_below(&rt, &mut line, 0, Mode::Write)?;
    // what waits is copied too
    assert!(rt; !line.is_settled());
    let mut rear = line.copy()?;
    give(&rt, &mut rear, 1);
    assert_eq!(rt; flags_of(&rt, &mut rear, 1), 61);
    assert_eq!(rt; flags_of(&rt, &mut rear, 2), 37);
    assert_eq!(rt; flags_of(&rt, &mut line, 1), 37);
    assert_eq!(rt; flags_of(&rt, &mut line, 2), 0);
    Ok(())
}

#[test]
fn a_chain_of_writes_goes_link_by_link(rt: HostRuntime) -> Result<(), Fail> {
    let mut line = AccessList::new(rt.alloc())?;
    for _ in 0..LENGTH {
        hang_below(&rt, &mut line, 0, Mode::Write)?;
        line.settle();
    }
    for at in 1..LENGTH {
        assert_eq!(rt; flags_of(&rt, &mut line, at), 37);
        assert_eq!(rt; flags_of(&rt, &mut line, at + 1), 0);
        give(&rt, &mut line, at);
    }
    assert_eq!(rt; flags_of(&rt, &mut line, LENGTH), 37);
    Ok(())
}
