//! What one worker does until everybody goes home.

ghost use Rattle.std.specs.Prelude.{◌≡◌, ◌<◌, IfOk, IfSome, OnOk};
ghost use Rattle.crossbeam_queue.specs.Passes.{IsPassOf};
ghost use Rattle.oss_crew.specs.Numbers.{AllBelow};

use crate::queue::{BelowLimit, Limit, Queue, QueuePass};
use crate::roster::Roster;
use crate::shift::{Ending, Shift, Stretch};
use crossbeam_utils::sync::Parker;
use std::alloc::AllocError;
use std::sync::Wait;
use std::thread;

/// A worker before it begins.
#[derive(Drop)]
pub(crate) struct Worker<S> {
    pub(crate) number: u32,
    pub(crate) parker: Parker,
    pub(crate) seat: S,
}

/// Queues a number, and wakes a worker for it. The queue has room for each number once, so a push that finds no room is tried again after another worker's turn.
fn announce<N: Limit, R: Wait>(
    rt: &R,
    roster: &Roster,
    queue: &Queue<N>,
    pass: &mut QueuePass,
    number: u32,
)
    requires number { number < N.limit }
    requires pass { IsPassOf queue.now pass.old }
    ensures pass { IsPassOf queue.now pass.new }
{
    roster.one_more();
    for _ in rt.forever() {
        match queue.push_as::<BelowLimit<N>, R>(rt, pass, number) {
            Ok(()) => {
                roster.wake_one();
                return;
            }
            Err(_) => thread::yield_now(),
        }
    }
    unreachable!()
}

/// Queues all that has become ready.
pub(crate) fn announce_all<N: Limit, R: Wait>(
    rt: &R,
    roster: &Roster,
    queue: &Queue<N>,
    pass: &mut QueuePass,
    news: &[u32],
)
    requires news { AllBelow N.limit news.now }
    requires pass { IsPassOf queue.now pass.old }
    ensures pass { IsPassOf queue.now pass.new }
{
    for at in 0..news.len() {
        announce(rt, roster, queue, pass, news[at]);
    }
}

/// The next number to work on; `None` if the worker has slept, or everybody goes home. A worker looks once more after it has said that it will sleep, so that no
/// number that is queued in between waits for a sleeper. If it then finds one, and was woken for another number at the same time, it wakes somebody else for that.
fn next<N: Limit, R: Wait>(
    rt: &R,
    roster: &Roster,
    queue: &Queue<N>,
    pass: &mut QueuePass,
    worker: u32,
    parker: &Parker,
) -> Option<u32>
    requires pass { IsPassOf queue.now pass.old }
    ensures pass { IsPassOf queue.now pass.new }
    ensures below { IfSome result (λ number. number < N.limit) }
{
    if let Some(number) = queue.pop_as::<BelowLimit<N>, R>(rt, pass) {
        return Some(number);
    }
    roster.lie_down(worker);
    let found = queue.pop_as::<BelowLimit<N>, R>(rt, pass);
    if found.is_none() && !roster.is_closed() {
        parker.park(rt);
    }
    if !roster.get_up(worker) && found.is_some() {
        roster.wake_one();
    }
    found
}

/// Works on a number until there is nothing more to do with it at present, or everybody goes home. What becomes ready in a stretch is queued before the next
/// stretch. Want of memory is the one error.
fn turn<N: Limit, R: Wait, S, W: Shift<S>>(
    rt: &R,
    roster: &Roster,
    queue: &Queue<N>,
    pass: &mut QueuePass,
    shift: &W,
    worker: u32,
    seat: &mut S,
    number: u32,
) -> Result<(), AllocError>
    requires limit { N.limit ≡ W.limit shift.now }
    requires worker { worker < W.crew shift.now }
    requires number { number < N.limit }
    requires rests { W.rests shift.now seat.old }
    requires pass { IsPassOf queue.now pass.old }
    ensures rests { OnOk result (W.rests shift.now seat.new × (W.mark seat.new ≡ W.mark seat.old)) }
    ensures pass { IsPassOf queue.now pass.new }
{
    if !shift.begin(worker, seat, number) {
        return Ok(());
    }
    for _ in rt.forever() {
        let Stretch { ending, news } = shift.go_on(worker, seat)?;
        announce_all(rt, roster, queue, pass, news.as_slice());
        match ending {
            Ending::More => {
                if roster.is_closed() {
                    shift.put_down(seat);
                    return Ok(());
                }
            }
            Ending::Rest => return Ok(()),
            Ending::Stop => {
                roster.close();
                return Ok(());
            }
        }
    }
    unreachable!()
}

/// Works until everybody goes home, and gives the seat back. Want of memory is the one error; everybody then goes home.
pub(crate) fn work<N: Limit, R: Wait, S: Drop, W: Shift<S>>(
    rt: &R,
    roster: &Roster,
    queue: &Queue<N>,
    shift: &W,
    begun: Worker<S>,
) -> Result<S, AllocError>
    requires limit { N.limit ≡ W.limit shift.now }
    requires worker { begun.number < W.crew shift.now }
    requires rests { W.rests shift.now begun.seat }
    ensures { IfOk result (λ seat. W.rests shift.now seat × (W.mark seat ≡ W.mark begun.seat)) }
{
    let Worker {
        number: worker,
        parker,
        seat,
    } = begun;
    let mut seat = seat;
    let mut pass = queue.pass();
    for _ in rt.forever() {
        if roster.is_closed() {
            break;
        }
        if let Some(number) = next(rt, roster, queue, &mut pass, worker, &parker) {
            match turn(
                rt, roster, queue, &mut pass, shift, worker, &mut seat, number,
            ) {
                Ok(()) => roster.one_less(),
                Err(full) => {
                    roster.close();
                    return Err(full);
                }
            }
        }
    }
    Ok(seat)
}
