//! Phases, one after the other.

ghost use Rattle.std.specs.Prelude.{◌≡◌, ◌≤◌, ◌<◌, IfOk};
ghost use Rattle.oss_phases.specs.Outcomes.{IsOutcome};

use crate::growth::grown;
use crate::phase::phase;
use crate::phased::{Closed, Phased};
use oss_crew::Shift;
use std::alloc::{AllocError, Global};
use std::sync::Wait;
use std::thread::Threads;

/// How many entries the first table has, if it may have so many.
const FIRST: u32 = 65536;

/// What comes of a run in phases.
#[derive(Drop)]
pub enum Outcome<H: Drop, A: Drop> {
    /// The run has ended, with this answer, at this held state, which the last table has left; or it ends where it begins.
    Ended(A, H),
    /// The run has more entries than a table may have. It was given up.
    TooMany,
}

/// Runs phases until the run has ended, with so many workers. The first table has 65,536 entries, or `most` if that is less; each
/// further one has room for what its held state needs and for what was asked of the last in vain. This call may wait. Want
/// of memory is the one error.
pub fn run_phases<
    R: Threads + Wait + Sync,
    H: Drop,
    F: Shift<S> + Sync + Drop,
    S: Send + Drop,
    A: Drop,
    P: Phased<H, F, S, A>,
>(rt: &R, alloc: Global, phased: &P, most: u32, workers: u32) -> Result<Outcome<H, A>, AllocError>
    requires most { (0 < most) × (most ≤ 16777216) }
    requires workers { (0 < workers) × (workers ≤ 64) }
    ensures { IfOk result (λ outcome. IsOutcome (P.reached phased.now) (P.ends phased.now) (P.has phased.now) most outcome) }
{
    let mut held = phased.opening()?;
    let mut entries = most.min(FIRST);
    for _ in rt.forever() {
        if let Some(answer) = phased.answer(&mut held)? {
            return Ok(Outcome::Ended(answer, held));
        }
        let Closed { held: left, wanted } = phase(rt, alloc, phased, held, entries, workers)?;
        held = left;
        match grown(entries, phased.needs(&held).saturating_add(wanted), most) {
            Some(next) => entries = next,
            None => return Ok(Outcome::TooMany),
        }
    }
    unreachable!()
}
