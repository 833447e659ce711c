//! What a user of phases says of its held states, tables and seats.

ghost use Rattle.std.specs.Prelude.{◌≡◌, ◌≤◌, ◌<◌, ◌+◌, ℕ, IfOk, IfSome};
ghost use Rattle.oss_crew.specs.Numbers.{AllBelow};

use oss_crew::Shift;
use std::alloc::AllocError;

/// A table that was opened over a held state, its first seat, and the numbers of what may be worked on.
#[derive(Drop)]
pub struct Opened<F: Drop, S: Drop> {
    pub table: F,
    pub seat: S,
    pub ready: Vec<u32>,
}

/// The held state that a table has left, and how many entries were asked of the table in vain; 0 if none were.
#[derive(Drop)]
pub struct Closed<H: Drop> {
    pub held: H,
    pub wanted: u64,
}

/// What phases are made of: held states `H`, tables `F` over them, which are the shifts of their seats `S`, and answers `A`.
pub trait Phased<H: Drop, F: Shift<S> + Drop, S: Drop, A> {
    /// The run may come to the held state.
    ghost reached: { Self → H → Type 0 };
    /// How many entries a table over the held state needs.
    ghost needs: { H → ℕ };
    /// The run ends at the held state, with this answer.
    ghost ends: { Self → H → A → Type 0 };
    /// The run has so many entries in all, or more.
    ghost has: { Self → ℕ → Type 0 };
    /// The table was opened over a state that the run may come to.
    ghost opened: { Self → F → Type 0 };

    /// The held state at the beginning, which needs one entry. Want of memory is the one error.
    fn opening(&self) -> Result<H, AllocError>
        ensures reached { IfOk result (λ held. reached self.now held) }
        ensures needs { IfOk result (λ held. needs held ≡ 1) };

    /// The answer if the run ends at the held state, which stays as it is. Want of memory is the one error.
    fn answer(&self, held: &mut H) -> Result<Option<A>, AllocError>
        requires reached { reached self.now held.old }
        ensures reached { reached self.now held.new }
        ensures needs { needs held.new ≡ needs held.old }
        ensures ends { IfOk result (λ answer. IfSome answer (λ a. ends self.now held.new a)) };

    /// How many entries a table over the held state needs.
    fn needs(&self, held: &H) -> u64
        ensures { result ≡ needs held.now };

    /// A table of so many entries over the held state, for so many workers. Want of memory is the one error.
    fn open(&self, held: H, entries: u32, workers: u32) -> Result<Opened<F, S>, AllocError>
        requires reached { reached self.now held }
        requires some { 0 < entries }
        requires enough { (needs held ≤ entries) × (entries ≤ 16777216) }
        requires workers { (0 < workers) × (workers ≤ 64) }
        ensures opened { IfOk result (λ o. opened self.now o.table) }
        ensures limit { IfOk result (λ o. F.limit o.table ≡ entries) }
        ensures crew { IfOk result (λ o. F.crew o.table ≡ workers) }
        ensures seat { IfOk result (λ o. F.rests o.table o.seat × (F.mark o.seat ≡ 65537)) }
        ensures ready { IfOk result (λ o. AllBelow entries o.ready.items) };

    /// One seat more, which takes over one of the parts that the first has. Want of memory is the one error.
    fn split(&self, table: &F, seat: &mut S) -> Result<S, AllocError>
        requires rests { F.rests table.now seat.old }
        requires parts { 1 < F.mark seat.old }
        ensures rests { IfOk result (λ other. F.rests table.now seat.new × F.rests table.now other) }
        ensures parts { IfOk result (λ other. (F.mark other ≡ 1) × (F.mark seat.new + 1 ≡ F.mark seat.old)) };

    /// The end of another seat, whose parts go to this one. There are 65,537 parts in all.
    fn join(&self, table: &F, seat: &mut S, other: S)
        requires rests { F.rests table.now seat.old × F.rests table.now other }
        requires parts { F.mark seat.old + F.mark other ≤ 65537 }
        ensures rests { F.rests table.now seat.new }
        ensures parts { F.mark seat.new ≡ F.mark seat.old + F.mark other };

    /// The state that the table has come to. The seat is the only one: it has all parts. Want of memory is the one error.
    fn close(&self, table: F, seat: S) -> Result<Closed<H>, AllocError>
        requires opened { opened self.now table }
        requires rests { F.rests table seat }
        requires parts { F.mark seat ≡ 65537 }
        ensures reached { IfOk result (λ closed. reached self.now closed.held) }
        ensures has { IfOk result (λ closed. has self.now (needs closed.held + closed.wanted)) };
}
