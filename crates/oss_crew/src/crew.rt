//! A crew at work: a thread for each worker if one can be made.

ghost use Rattle.std.specs.Prelude.{◌≡◌, ◌<◌, ◌≤◌, [], ◌∷◌, ◌++◌, ℕ, All, IfOk, OnOk, length, map, slice_index_or};
ghost use Rattle.oss_crew.specs.Seats.{AreBack, AreHome};
ghost use Rattle.oss_crew.specs.Numbers.{AllBelow};

use crate::queue::{Limit, Queue};
use crate::roster::Roster;
use crate::shift::Shift;
use crate::work::{Worker, announce_all, work};
use crossbeam_utils::sync::Parker;
use std::alloc::{AllocError, Global};
use std::marker::Brand;
use std::sync::Wait;
use std::sync::atomic::AtomicU64;
use std::thread;
use std::thread::Threads;

/// Works on these ready numbers and all that become ready meanwhile, with one worker for each seat, until nothing is queued or in hand, or a stretch says that
/// everybody is to go home. A worker has a thread of its own if one can be made. Else workers follow one another, and whoever is first does all. The seats come
/// back in their order, each at rest, with its mark as it was. Want of memory is the one error, also that of a stretch: everybody then goes home, and all seats are
/// given up.
pub fn run_crew<R: Threads + Wait + Sync, S: Send + Drop, W: Shift<S> + Sync>(
    rt: &R,
    alloc: Global,
    shift: &W,
    seats: Vec<S>,
    ready: &[u32],
    limit: u32,
) -> Result<Vec<S>, AllocError>
    requires limit { limit ≡ W.limit shift.now }
    requires some { 0 < limit }
    requires crew { length seats.items ≡ W.crew shift.now }
    requires few { length seats.items ≤ 64 }
    requires rests { All (W.rests shift.now) seats.items }
    requires ready { AllBelow limit ready.now }
    ensures { IfOk result (λ back. AreBack (W.rests shift.now) W.mark seats.items back.items) }
{
    let (roster, workers) = enter(alloc, seats)?;
    crew_by::<Brand, R, S, W>(rt, alloc, shift, &roster, workers, ready, limit)
}

/// A roster for these seats, and for each seat a worker with its number and parker.
fn enter<S: Drop>(alloc: Global, seats: Vec<S>) -> Result<(Roster, Vec<Worker<S>>), AllocError>
    requires { length seats.items ≤ 64 }
    ensures seats { IfOk result (λ r. map (λ w. w.seat) r.1.items ≡ seats.items) }
    ensures numbers { IfOk result (λ r. All (λ w. w.number < length r.1.items) r.1.items) }
{
    let mut sleeps = Vec::new(alloc);
    let mut unparkers = Vec::new(alloc);
    let mut workers = Vec::new(alloc);
    for seat in seats {
        let parker = Parker::new(alloc)?;
        unparkers.push(parker.unparker().clone()?)?;
        sleeps.push(AtomicU64::new(0))?;
        add_worker(&mut workers, parker, seat)?;
    }
    let roster = Roster {
        left: AtomicU64::new(0),
        closed: AtomicU64::new(0),
        asleep: AtomicU64::new(0),
        sleeps,
        unparkers,
    };
    Ok((roster, workers))
}

/// Adds a worker with this seat, whose number is how many there were.
fn add_worker<S: Drop>(
    workers: &mut Vec<Worker<S>>,
    parker: Parker,
    seat: S,
) -> Result<(), AllocError>
    requires few { length workers.old.items < 64 }
    requires numbers { All (λ w. w.number < length workers.old.items) workers.old.items }
    ensures seats { OnOk result (map (λ w. w.seat) workers.new.items ≡ map (λ w. w.seat) workers.old.items ++ seat ∷ []) }
    ensures numbers { OnOk result (All (λ w. w.number < length workers.new.items) workers.new.items) }
{
    let number = workers.len() as u32;
    workers.push(Worker {
        number,
        parker,
        seat,
    })?;
    Ok(())
}

/// The same with workers, over a queue whose limit is picked here. The ready numbers count as in hand while they are queued, so that nobody goes home before all are.
fn crew_by<N: Limit + Sync, R: Threads + Wait + Sync, S: Send + Drop, W: Shift<S> + Sync>(
    rt: &R,
    alloc: Global,
    shift: &W,
    roster: &Roster,
    workers: Vec<Worker<S>>,
    ready: &[u32],
    limit: u32,
) -> Result<Vec<S>, AllocError>
    requires pick { N.limit ≡ limit }
    requires limit { limit ≡ W.limit shift.now }
    requires some { 0 < limit }
    requires numbers { All (λ w. w.number < W.crew shift.now) workers.items }
    requires rests { All (λ w. W.rests shift.now w.seat) workers.items }
    requires ready { AllBelow limit ready.now }
    ensures { IfOk result (λ back. AreBack (W.rests shift.now) W.mark (map (λ w. w.seat) workers.items) back.items) }
{
    let (queue, mut pass) = Queue::<N>::ruled(alloc, limit as usize)?;
    roster.one_more();
    announce_all(rt, roster, &queue, &mut pass, ready);
    roster.one_less();
    let done = work_all(rt, roster, &queue, shift, workers)?;
    come_home(alloc, done)
}

/// Each worker works on a thread of its own if one can be made, until everybody goes home.
fn work_all<N: Limit + Sync, R: Threads + Wait + Sync, S: Send + Drop, W: Shift<S> + Sync>(
    rt: &R,
    roster: &Roster,
    queue: &Queue<N>,
    shift: &W,
    workers: Vec<Worker<S>>,
) -> Result<Vec<Result<S, AllocError>>, AllocError>
    requires limit { N.limit ≡ W.limit shift.now }
    requires numbers { All (λ w. w.number < W.crew shift.now) workers.items }
    requires rests { All (λ w. W.rests shift.now w.seat) workers.items }
    ensures len { IfOk result (λ done. length done.items ≡ length workers.items) }
    ensures each { IfOk result (λ done. (i : ℕ) (d : _) (e : _) → i < length workers.items
        → IfOk (slice_index_or done.items i d) (λ seat. W.rests shift.now seat × (W.mark seat ≡ W.mark (slice_index_or workers.items i e).seat))) }
{
    thread::map_vec(
        rt,
        workers,
        &|begun| work::<N, R, S, W>(rt, roster, queue, shift, begun),
    )
}

/// The seats of all that have come home. Want of memory, here or of one of them, is the one error.
fn come_home<S: Drop>(alloc: Global, done: Vec<Result<S, AllocError>>) -> Result<Vec<S>, AllocError>
    ensures { IfOk result (λ back. AreHome done.items back.items) }
{
    let mut back = Vec::new(alloc);
    for one in done {
        let seat = one?;
        back.push(seat)?;
    }
    Ok(back)
}
