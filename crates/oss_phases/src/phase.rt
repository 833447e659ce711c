//! One phase.

ghost use Rattle.std.specs.Prelude.{◌≡◌, ◌≤◌, ◌<◌, ◌+◌, All, IfOk, length};
ghost use Rattle.std.specs.List.{sum_by};

use crate::phased::{Closed, Opened, Phased};
use oss_crew::{Shift, run_crew};
use std::alloc::{AllocError, Global};
use std::sync::Wait;
use std::thread::Threads;

/// A phase over a held state, on a table of so many entries, with so many workers: the state that the table has come to. This call
/// may wait. Want of memory is the one error.
pub(crate) fn phase<
    R: Threads + Wait + Sync,
    H: Drop,
    F: Shift<S> + Sync + Drop,
    S: Send + Drop,
    A,
    P: Phased<H, F, S, A>,
>(
    rt: &R,
    alloc: Global,
    phased: &P,
    held: H,
    entries: u32,
    workers: u32,
) -> Result<Closed<H>, AllocError>
    requires reached { P.reached phased.now held }
    requires some { 0 < entries }
    requires enough { (P.needs held ≤ entries) × (entries ≤ 16777216) }
    requires workers { (0 < workers) × (workers ≤ 64) }
    ensures reached { IfOk result (λ closed. P.reached phased.now closed.held) }
    ensures has { IfOk result (λ closed. P.has phased.now (P.needs closed.held + closed.wanted)) }
{
    let Opened { table, seat, ready } = phased.open(held, entries, workers)?;
    let seats = seats_of(alloc, phased, &table, seat, workers)?;
    let back = run_crew(rt, alloc, &table, seats, ready.as_slice(), entries)?;
    let seat = joined(phased, &table, back);
    phased.close(table, seat)
}

/// So many seats of a table, of which this is the first. Want of memory is the one error.
fn seats_of<H: Drop, F: Shift<S> + Drop, S: Drop, A, P: Phased<H, F, S, A>>(
    alloc: Global,
    phased: &P,
    table: &F,
    seat: S,
    workers: u32,
) -> Result<Vec<S>, AllocError>
    requires rests { F.rests table.now seat }
    requires parts { F.mark seat ≡ 65537 }
    requires workers { (0 < workers) × (workers ≤ 64) }
    ensures rests { IfOk result (λ seats. All (F.rests table.now) seats.items) }
    ensures parts { IfOk result (λ seats. sum_by F.mark seats.items ≡ 65537) }
    ensures count { IfOk result (λ seats. length seats.items ≡ workers) }
{
    let mut seat = seat;
    let mut seats = Vec::new(alloc);
    for _ in 1..workers {
        let other = phased.split(table, &mut seat)?;
        seats.push(other)?;
    }
    seats.push(seat)?;
    Ok(seats)
}

/// All seats joined to one.
fn joined<H: Drop, F: Shift<S> + Drop, S: Drop, A, P: Phased<H, F, S, A>>(
    phased: &P,
    table: &F,
    seats: Vec<S>,
) -> S
    requires rests { All (F.rests table.now) seats.items }
    requires parts { sum_by F.mark seats.items ≡ 65537 }
    ensures rests { F.rests table.now result }
    ensures parts { F.mark result ≡ 65537 }
{
    let mut seats = seats;
    let Some(mut seat) = seats.pop() else {
        unreachable!()
    };
    while let Some(other) = seats.pop() {
        phased.join(table, &mut seat, other);
    }
    seat
}
