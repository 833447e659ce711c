//! Single atomic steps by which a task is made.

ghost use Rattle.std.specs.Prelude.{◌≡◌, ◌<◌, ◌+◌, ◌-◌, ◌%◌, ◌^◌};
ghost use Rattle.atomic_table.specs.Table.{Allows};
ghost use Rattle.oss_field.specs.Standing.{Stays};
ghost use Rattle.oss_field.specs.Steps.{Steps};
ghost use Rattle.oss_field.specs.Table.{Stands};

use crate::words::{Place, Tells, TellsSlots, Told, ToldSlots, Words};
use oss_jobs::Job;

/// Writes a word of a new task, which the job creates.
pub(crate) fn fill_word<T: Tells>(
    words: &Words,
    seat: &mut Place,
    word: usize,
    value: u64,
    _job: &Job,
    _task: u32,
)
    requires table { seat.old.table_id ≡ words.now.table_id }
    requires live { 0 < seat.old.me.0.known.words.parts }
    requires inside { word < words.now.table_id.words }
    requires keeps { Steps words.now.key.code.value words.now.key.fuel words.now.key.entries seat.old.id
        seat.old.me.0 word (λ n. value) (λ n l. T.tells value seat.old.me.0.known l) }
    ensures stays { Stays seat.old seat.new }
    ensures told { T.tells value seat.old.me.0.known seat.new.me.0.known }
{
    words.store::<Told<T>>(seat, word, value);
}

/// Takes from a word, for a new task which the job creates: the word as it was.
pub(crate) fn lower_word<T: Tells>(
    words: &Words,
    seat: &mut Place,
    word: usize,
    by: u64,
    _job: &Job,
    _task: u32,
) -> u64
    requires table { seat.old.table_id ≡ words.now.table_id }
    requires live { 0 < seat.old.me.0.known.words.parts }
    requires inside { word < words.now.table_id.words }
    requires keeps { Steps words.now.key.code.value words.now.key.fuel words.now.key.entries seat.old.id
        seat.old.me.0 word (λ n. (n + (2 ^ 64 - by)) % 2 ^ 64) (λ n l. T.tells n seat.old.me.0.known l) }
    ensures stays { Stays seat.old seat.new }
    ensures told { T.tells result seat.old.me.0.known seat.new.me.0.known }
{
    words.fetch_sub::<Told<T>>(seat, word, by)
}

/// Writes a word, for the first job of a new task, and may take the empty slot.
pub(crate) fn hold_word<T: TellsSlots>(
    words: &Words,
    seat: &mut Place,
    word: usize,
    value: u64,
    _cells: u32,
    _job: &Job,
)
    requires table { seat.old.table_id ≡ words.now.table_id }
    requires live { 0 < seat.old.me.0.known.words.parts }
    requires inside { word < words.now.table_id.words }
    requires keeps { Allows (λ z. Stands words.now.key.code.value words.now.key.fuel words.now.key.entries z.words
        z.homes z.views) words.now.table_id.slots seat.old.id seat.old.me word (λ _. value)
        (λ _ w. T.tells value seat.old.me w) }
    ensures same { (seat.new.table_id ≡ seat.old.table_id) × (seat.new.id ≡ seat.old.id) }
    ensures live { 0 < seat.new.me.0.known.words.parts }
    ensures told { T.tells value seat.old.me seat.new.me }
{
    words.store::<ToldSlots<T>>(seat, word, value);
}
