//! Single atomic steps on the words of a field's table, whatever a step is for. What a step tells is picked by its
//! caller, and with it what the caller owes: that the step keeps the rule.

ghost use Rattle.std.specs.Prelude.{◌≡◌, ◌<◌, ◌==◌, ◌+◌, ◌%◌, ◌^◌, ℕ};
ghost use prog.Atomic.{either};
ghost use Rattle.atomic_table.specs.Table.{Allows, Me};
ghost use Rattle.oss_field.specs.Known.{Known};
ghost use Rattle.oss_field.specs.Standing.{Stays};
ghost use Rattle.oss_field.specs.Steps.{Steps};
ghost use Rattle.oss_field.specs.Table.{Slot, Stands};

use crate::key::FieldKey;
use crate::rule::FieldRule;
use crate::view::SeatView;
use atomic_table::{Play, Seat, Shared};
use oss_jobs::Job;
use std::marker::{Brand, PhantomData};

/// The words and slots of a field, as threads share them.
pub(crate) type Words = Shared<Option<Box<Job>>, SeatView, FieldKey, FieldRule>;

/// What a seat of the table is.
pub(crate) type Place = Seat<Option<Box<Job>>, SeatView>;

/// What a step tells, which a call picks: of the word that it found, or stored, and what its seat knew and knows.
pub(crate) trait Tells {
    ghost tells: { ℕ → Known → Known → Type 0 };
}

impl Tells for Brand {
    ghost tells = { λ n k l. l ≡ k };
}

/// The kind of step that tells this. It is a type, so what is told may be what the proof alone knows.
pub(crate) struct Told<T: Tells> {
    /// No value of the type is made.
    of: PhantomData<T>,
}

impl<T: Tells> Play<Option<Box<Job>>, SeatView> for Told<T> {
    ghost then = { λ s v n w. (w.1 ≡ v.1) × T.tells n v.0.known w.0.known × (0 < w.0.known.words.parts) };
}

/// Reads a word of a task or an entry, in a field of so many cells.
pub(crate) fn read_word<T: Tells>(
    words: &Words,
    seat: &mut Place,
    word: usize,
    _cells: u32,
    _task: u32,
) -> u64
    requires table { seat.old.table_id ≡ words.now.table_id }
    requires live { 0 < seat.old.me.0.known.words.parts }
    requires inside { word < words.now.table_id.words }
    requires keeps { Steps words.now.key.code.value words.now.key.fuel words.now.key.entries seat.old.id
        seat.old.me.0 word (λ n. n) (λ n l. T.tells n seat.old.me.0.known l) }
    ensures stays { Stays seat.old seat.new }
    ensures told { T.tells result seat.old.me.0.known seat.new.me.0.known }
{
    words.load::<Told<T>>(seat, word)
}

/// Reads the word of a cell, for the act of a job.
pub(crate) fn read_for<T: Tells>(
    words: &Words,
    seat: &mut Place,
    word: usize,
    _job: &Job,
    _cell: u32,
) -> u64
    requires table { seat.old.table_id ≡ words.now.table_id }
    requires live { 0 < seat.old.me.0.known.words.parts }
    requires inside { word < words.now.table_id.words }
    requires keeps { Steps words.now.key.code.value words.now.key.fuel words.now.key.entries seat.old.id
        seat.old.me.0 word (λ n. n) (λ n l. T.tells n seat.old.me.0.known l) }
    ensures stays { Stays seat.old seat.new }
    ensures told { T.tells result seat.old.me.0.known seat.new.me.0.known }
{
    words.load::<Told<T>>(seat, word)
}

/// Writes the word of a cell, for the act of a job.
pub(crate) fn write_for<T: Tells>(
    words: &Words,
    seat: &mut Place,
    word: usize,
    value: u64,
    _job: &Job,
    _cell: u32,
)
    requires table { seat.old.table_id ≡ words.now.table_id }
    requires live { 0 < seat.old.me.0.known.words.parts }
    requires inside { word < words.now.table_id.words }
    requires keeps { Steps words.now.key.code.value words.now.key.fuel words.now.key.entries seat.old.id
        seat.old.me.0 word (λ n. value) (λ n l. T.tells value seat.old.me.0.known l) }
    ensures stays { Stays seat.old seat.new }
    ensures told { T.tells value seat.old.me.0.known seat.new.me.0.known }
{
    words.store::<Told<T>>(seat, word, value);
}

/// Adds to a word, for a draw of so many entries in a field of so many: the word as it was.
pub(crate) fn add_word<T: Tells>(
    words: &Words,
    seat: &mut Place,
    word: usize,
    by: u64,
    _entries: u32,
    _count: u32,
) -> u64
    requires table { seat.old.table_id ≡ words.now.table_id }
    requires live { 0 < seat.old.me.0.known.words.parts }
    requires inside { word < words.now.table_id.words }
    requires keeps { Steps words.now.key.code.value words.now.key.fuel words.now.key.entries seat.old.id
        seat.old.me.0 word (λ n. (n + by) % 2 ^ 64) (λ n l. T.tells n seat.old.me.0.known l) }
    ensures stays { Stays seat.old seat.new }
    ensures told { T.tells result seat.old.me.0.known seat.new.me.0.known }
{
    words.fetch_add::<Told<T>>(seat, word, by)
}

/// What a step tells that may take a slot or give one back.
pub(crate) trait TellsSlots {
    ghost use Rattle.oss_field.specs.declared.view.SeatView.{SeatView};

    ghost tells: { ℕ → Me Slot SeatView → Me Slot SeatView → Type 0 };
}

impl TellsSlots for Brand {
    ghost tells = { λ n v w. w ≡ v };
}

/// The kind of step that tells this.
pub(crate) struct ToldSlots<T: TellsSlots> {
    /// No value of the type is made.
    of: PhantomData<T>,
}

impl<T: TellsSlots> Play<Option<Box<Job>>, SeatView> for ToldSlots<T> {
    ghost then = { λ s v n w. T.tells n v w × (0 < w.0.known.words.parts) };
}

/// Exchanges a word, if it is `old`: the word as it was.
pub(crate) fn exchange_word<T: TellsSlots>(
    words: &Words,
    seat: &mut Place,
    word: usize,
    old: u64,
    new: u64,
    _cells: u32,
    _task: u32,
) -> u64
    requires table { seat.old.table_id ≡ words.now.table_id }
    requires live { 0 < seat.old.me.0.known.words.parts }
    requires inside { word < words.now.table_id.words }
    requires keeps { Allows (λ z. Stands words.now.key.code.value words.now.key.fuel words.now.key.entries z.words
        z.homes z.views) words.now.table_id.slots seat.old.id seat.old.me word (λ n. either (n == old) new n)
        (λ n w. T.tells n seat.old.me w) }
    ensures same { (seat.new.table_id ≡ seat.old.table_id) × (seat.new.id ≡ seat.old.id) }
    ensures live { 0 < seat.new.me.0.known.words.parts }
    ensures told { T.tells result seat.old.me seat.new.me }
{
    words.compare_exchange::<ToldSlots<T>>(seat, word, old, new)
}

/// Writes a word, and may give the slot back that was taken last.
pub(crate) fn write_last<T: TellsSlots>(
    words: &Words,
    seat: &mut Place,
    word: usize,
    value: u64,
    _cells: u32,
)
    requires table { seat.old.table_id ≡ words.now.table_id }
    requires live { 0 < seat.old.me.0.known.words.parts }
    requires inside { word < words.now.table_id.words }
    requires keeps { Allows (λ z. Stands words.now.key.code.value words.now.key.fuel words.now.key.entries z.words
        z.homes z.views) words.now.table_id.slots seat.old.id seat.old.me word (λ _. value)
        (λ _ w. T.tells value seat.old.me w) }
    ensures same { (seat.new.table_id ≡ seat.old.table_id) × (seat.new.id ≡ seat.old.id) }
    ensures live { 0 < seat.new.me.0.known.words.parts }
    ensures told { T.tells value seat.old.me seat.new.me }
{
    words.store::<ToldSlots<T>>(seat, word, value);
}
