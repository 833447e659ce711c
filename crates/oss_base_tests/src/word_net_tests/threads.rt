//! Threads that give up the siblings of a row, each with a seat of its own, so that their steps mix in any order.

ghost use Rattle.std.specs.Prelude.{◌≡◌, ◌<◌, ◌≤◌, ◌+◌, ◌-◌, ◌*◌, ℕ, [], IfOk};
ghost use Rattle.std.specs.Thread.{IsSync};
ghost use Rattle.oss_word_net.specs.Rows.{ToGive, Spans, Parted, Back};

use crate::word_net_tests::rows::{open_row, settle};
use oss_word_net::{WordNet, WordSeat};
use std::alloc::{AllocError, Global};
use std::process::Abort;
use std::test::Fail;
use std::thread::{Threads, join};

/// A seat, and the entries that it gives up: those from one on and below another.
#[derive(Drop)]
struct Share {
    seat: WordSeat,
    start: u32,
    end: u32,
}

/// The entries from one on and below another.
fn hand_of(alloc: Global, start: u32, end: u32) -> Result<Vec<u32>, AllocError>
    requires { start ≤ end }
    ensures { IfOk result (λ v. Spans v.items start end) }
{
    let mut hand = Vec::new(alloc);
    for entry in start..end {
        hand.push(entry)?;
    }
    Ok(hand)
}

/// A seat to which these entries are handed.
fn part(
    alloc: Global,
    net: &WordNet,
    seat: &mut WordSeat,
    start: u32,
    middle: u32,
    _end: u32,
) -> Result<Share, AllocError>
    requires net { (seat.old.net ≡ net.now.table) × (seat.old.id ≡ 0) }
    requires may { ToGive seat.old.known start _end × (start ≤ middle) × (middle ≤ _end) }
    requires parts { (1 < seat.old.known.view.parts) × (seat.old.known.view.splits < 65536) }
    ensures same { (seat.new.net ≡ seat.old.net) × (seat.new.id ≡ seat.old.id) }
    ensures left { IfOk result (λ s. ToGive seat.new.known middle _end) }
    ensures parts { IfOk result (λ s. (1 + seat.new.known.view.parts ≡ seat.old.known.view.parts) ×
        (seat.new.known.view.splits ≡ 1 + seat.old.known.view.splits)) }
    ensures parted { IfOk result (λ s. Parted net.now.table s.seat s.start s.end) }
{
    let hand = hand_of(alloc, start, middle)?;
    let parted = net.split(seat, hand.as_slice())?;
    Ok(Share {
        seat: parted,
        start,
        end: middle,
    })
}

/// Two seats, to each of which so many entries are handed.
fn part_two(
    alloc: Global,
    net: &WordNet,
    seat: &mut WordSeat,
    start: u32,
    each: u32,
    end: u32,
) -> Result<(Share, Share), AllocError>
    requires net { (seat.old.net ≡ net.now.table) × (seat.old.id ≡ 0) }
    requires may { ToGive seat.old.known start end × (start + 2 * each ≤ end) }
    requires parts { (2 < seat.old.known.view.parts) × (seat.old.known.view.splits < 1000) }
    ensures same { (seat.new.net ≡ seat.old.net) × (seat.new.id ≡ seat.old.id) }
    ensures left { IfOk result (λ s. ToGive seat.new.known (start + 2 * each) end) }
    ensures parts { IfOk result (λ s. (2 + seat.new.known.view.parts ≡ seat.old.known.view.parts) ×
        (seat.new.known.view.splits ≡ 2 + seat.old.known.view.splits)) }
    ensures parted { IfOk result (λ s. Parted net.now.table s.0.seat s.0.start s.0.end ×
        Parted net.now.table s.1.seat s.1.start s.1.end) }
{
    let middle = start + each;
    let one = part(alloc, net, seat, start, middle, end)?;
    let two = part(alloc, net, seat, middle, start + 2 * each, end)?;
    Ok((one, two))
}

/// Gives up the entries of a share, with what each completes.
fn give_all(net: &WordNet, share: Share) -> WordSeat
    requires { Parted net.now.table share.seat share.start share.end }
    ensures { Back net.now.table result }
{
    let Share {
        mut seat,
        start,
        end,
    } = share;
    for entry in start..end {
        net.give(&mut seat, entry);
        settle(net, &mut seat);
    }
    seat
}

/// Takes back two seats.
fn take_back(net: &WordNet, seat: &mut WordSeat, one: WordSeat, two: WordSeat)
    requires net { seat.old.net ≡ net.now.table }
    requires back { Back net.now.table one × Back net.now.table two }
    ensures same { (seat.new.net ≡ seat.old.net) × (seat.new.id ≡ seat.old.id) }
    ensures parts { seat.new.known.view.parts ≡ 2 + seat.old.known.view.parts }
{
    net.join(seat, one);
    net.join(seat, two);
}

/// Two threads at once.
fn in_two<R: Threads + Sync>(rt: &R, net: &WordNet, one: Share, two: Share) -> (WordSeat, WordSeat)
    requires { Parted net.now.table one.seat one.start one.end × Parted net.now.table two.seat two.start two.end }
    ensures { Back net.now.table result.0 × Back net.now.table result.1 }
{
    join(
        rt,
        || -> WordSeat
            requires { Parted net.now.table one.seat one.start one.end }
            ensures { Back net.entry.now.table result }
        { give_all(net, one) },
        || -> WordSeat
            requires { Parted net.now.table two.seat two.start two.end }
            ensures { Back net.entry.now.table result }
        { give_all(net, two) },
    )
}

/// Four threads at once.
fn in_four<R: Threads + Sync>(
    rt: &R,
    net: &WordNet,
    left: (Share, Share),
    right: (Share, Share),
) -> ((WordSeat, WordSeat), (WordSeat, WordSeat))
    requires left { Parted net.now.table left.0.seat left.0.start left.0.end ×
        Parted net.now.table left.1.seat left.1.start left.1.end }
    requires right { Parted net.now.table right.0.seat right.0.start right.0.end ×
        Parted net.now.table right.1.seat right.1.start right.1.end }
    ensures left { Back net.now.table result.0.0 × Back net.now.table result.0.1 }
    ensures right { Back net.now.table result.1.0 × Back net.now.table result.1.1 }
{
    join(
        rt,
        || -> (WordSeat, WordSeat)
            requires { IsSync R.row × Parted net.now.table left.0.seat left.0.start left.0.end ×
                Parted net.now.table left.1.seat left.1.start left.1.end }
            ensures { Back net.entry.now.table result.0 × Back net.entry.now.table result.1 }
        { in_two(rt, net, left.0, left.1) },
        || -> (WordSeat, WordSeat)
            requires { IsSync R.row × Parted net.now.table right.0.seat right.0.start right.0.end ×
                Parted net.now.table right.1.seat right.1.start right.1.end }
            ensures { Back net.entry.now.table result.0 × Back net.entry.now.table result.1 }
        { in_two(rt, net, right.0, right.1) },
    )
}

/// Each sibling is given up and done, and so is the weak access above; and each sibling may read, be joined and
/// write, with nothing before it.
fn assert_done(rt: &impl Abort, states: &[u64], top: u32, siblings: u32)
    requires { top + siblings < 4294967296 }
{
    for (at, state) in states.iter().enumerate() {
        if at == top as usize {
            assert!(rt; *state & 24 == 24);
        } else if at > top as usize && at <= (top + siblings) as usize {
            assert!(rt; *state & 61 == 61);
        }
    }
}

/// Two siblings, each given up by a thread of its own.
fn run_two<R: Threads + Abort + Sync>(rt: &R, alloc: Global) -> Result<(), AllocError> {
    let (net, mut seat, top) = open_row(rt, alloc, 2)?;
    let (one, two) = part_two(alloc, &net, &mut seat, top + 1, 1, top + 3)?;
    let (one, two) = in_two(rt, &net, one, two);
    take_back(&net, &mut seat, one, two);
    settle(&net, &mut seat);
    let states = net.close(seat)?;
    assert_done(rt, states.as_slice(), top, 2);
    Ok(())
}

/// A thousand siblings, given up by four threads.
fn run_four<R: Threads + Abort + Sync>(rt: &R, alloc: Global) -> Result<(), AllocError> {
    let (net, mut seat, top) = open_row(rt, alloc, 1_000)?;
    let left = part_two(alloc, &net, &mut seat, top + 1, 250, top + 1_001)?;
    let right = part_two(alloc, &net, &mut seat, top + 501, 250, top + 1_001)?;
    let ((one, two), (three, four)) = in_four(rt, &net, left, right);
    take_back(&net, &mut seat, one, two);
    take_back(&net, &mut seat, three, four);
    settle(&net, &mut seat);
    let states = net.close(seat)?;
    assert_done(rt, states.as_slice(), top, 1_000);
    Ok(())
}

#[test]
fn two_threads_give_up_a_sibling_each(rt: HostRuntime) -> Result<(), Fail> {
    for _ in 0..100 {
        run_two(&rt, rt.alloc())?;
    }
    Ok(())
}

#[test]
fn four_threads_give_up_a_thousand_siblings(rt: HostRuntime) -> Result<(), Fail> {
    for _ in 0..100 {
        run_four(&rt, rt.alloc())?;
    }
    Ok(())
}
