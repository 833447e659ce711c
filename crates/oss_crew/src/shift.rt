//! What a user of a crew says of its numbers: how one is worked on, and how a seat stands before and after.

ghost use Rattle.std.specs.Prelude.{◌≡◌, ◌<◌, ℕ, MatchBool, IfOk, OnOk};
ghost use Rattle.oss_crew.specs.Numbers.{AllBelow};
ghost use Rattle.oss_crew.specs.Endings.{Leaves};

use arrayvec::ArrayVec;
use std::alloc::AllocError;

/// Numbers that have become ready: at most 64 in a stretch of work.
pub type News = ArrayVec<u32, 64>;

/// How a stretch of work ended.
#[derive(Clone, Copy)]
pub enum Ending {
    /// There is more to do with the number at once.
    More,
    /// There is nothing more to do with it at present.
    Rest,
    /// Everybody is to go home.
    Stop,
}

/// A stretch of work: how it ended, and which numbers have become ready in it.
#[derive(Drop)]
pub struct Stretch {
    pub ending: Ending,
    pub news: News,
}

/// What a crew does with ready numbers. All workers share it, and each has a seat of its own.
pub trait Shift<S> {
    /// Each number is below this.
    ghost limit: { Self → ℕ };
    /// The number of workers, and so each worker's number is below this.
    ghost crew: { Self → ℕ };
    /// The seat is one of this shift, and has nothing in hand.
    ghost rests: { Self → S → Type 0 };
    /// The seat is one of this shift, and has something in hand.
    ghost works: { Self → S → Type 0 };
    /// What of a seat stays as it is, whatever is done with the seat.
    ghost mark: { S → ℕ };

    /// Takes in hand what has this number, as this worker; whether it was there to take.
    fn begin(&self, worker: u32, seat: &mut S, number: u32) -> bool
        requires worker { worker < crew self.now }
        requires number { number < limit self.now }
        requires rests { rests self.now seat.old }
        ensures left { MatchBool result (works self.now seat.new) (rests self.now seat.new) }
        ensures mark { mark seat.new ≡ mark seat.old };

    /// Works a stretch on what is in hand, as this worker. Want of memory is the one error.
    fn go_on(&self, worker: u32, seat: &mut S) -> Result<Stretch, AllocError>
        requires worker { worker < crew self.now }
        requires works { works self.now seat.old }
        ensures left { IfOk result (λ s. Leaves s.ending (works self.now seat.new) (rests self.now seat.new)) }
        ensures news { IfOk result (λ s. AllBelow (limit self.now) s.news.items) }
        ensures mark { OnOk result (mark seat.new ≡ mark seat.old) };

    /// Puts down what is in hand, since everybody goes home.
    fn put_down(&self, seat: &mut S)
        requires works { works self.now seat.old }
        ensures rests { rests self.now seat.new }
        ensures mark { mark seat.new ≡ mark seat.old };
}
