//! The queue of ready numbers, each below a limit that a call picks.

ghost use Rattle.std.specs.Prelude.{◌≡◌, ◌<◌, ℕ, []};
ghost use Rattle.oss_crew.specs.Numbers.{EachBelow};

use crossbeam_queue::protocol::{Lesson, Outcome, Protocol};
use crossbeam_queue::{Pass, RuledArrayQueue};
use std::marker::{Brand, PhantomData};

/// The limit of a queue.
pub trait Limit {
    ghost limit: { ℕ };
}

impl Limit for Brand {
    ghost limit = { 0 };
}

/// The rule of the queue: each number in it is below the limit.
pub struct BelowLimit<N: Limit> {
    of: PhantomData<N>,
}

impl<N: Limit> Protocol<u32, ()> for BelowLimit<N> {
    ghost holds = { λ items views. EachBelow N.limit items };

    ghost first = { tt };
}

impl<N: Limit> Outcome<u32, ()> for BelowLimit<N> {
    ghost then = { λ v x w. x < N.limit };
}

impl<N: Limit> Lesson<u32, ()> for BelowLimit<N> {
    ghost fact = { λ v items. Unit {0} };
}

pub(crate) type Queue<N> = RuledArrayQueue<u32, (), BelowLimit<N>>;

/// One worker's way to the queue.
pub(crate) type QueuePass = Pass<u32, ()>;
