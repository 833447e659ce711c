//! Single atomic steps by which the value of a reduction is left for its join.

ghost use Rattle.std.specs.Prelude.{◌≡◌, ◌<◌, ◌+◌, ◌%◌, ◌^◌};
ghost use Rattle.oss_field.specs.Standing.{Stays};
ghost use Rattle.oss_field.specs.Steps.{Steps};

use crate::words::{Place, Tells, Told, Words};
use oss_jobs::Job;

/// Writes the value beside the state word of an entry of a job's task, on a cell, in a field of so many cells.
pub(crate) fn write_beside<T: Tells>(
    words: &Words,
    seat: &mut Place,
    word: usize,
    value: u64,
    _cells: u32,
    _job: &Job,
    _cell: u32,
    _entry: u32,
)
    requires table { seat.old.table_id ≡ words.now.table_id }
    requires live { 0 < seat.old.me.0.known.words.parts }
    requires inside { word < words.now.table_id.words }
    requires keeps { Steps words.now.key.code.value words.now.key.fuel words.now.key.entries seat.old.id
        seat.old.me.0 word (λ n. value) (λ n l. T.tells value seat.old.me.0.known l) }
    ensures stays { Stays seat.old seat.new }
    ensures told { T.tells value seat.old.me.0.known seat.new.me.0.known }
{
    words.store::<Told<T>>(seat, word, value);
}

/// Adds to the state word of an entry whose value is left, in a field of so many cells: the word as it was.
pub(crate) fn add_left<T: Tells>(
    words: &Words,
    seat: &mut Place,
    word: usize,
    by: u64,
    _cells: u32,
    _entry: u32,
) -> u64
    requires table { seat.old.table_id ≡ words.now.table_id }
    requires live { 0 < seat.old.me.0.known.words.parts }
    requires inside { word < words.now.table_id.words }
    requires keeps { Steps words.now.key.code.value words.now.key.fuel words.now.key.entries seat.old.id
        seat.old.me.0 word (λ n. (n + by) % 2 ^ 64) (λ n l. T.tells n seat.old.me.0.known l) }
    ensures stays { Stays seat.old seat.new }
    ensures told { T.tells result seat.old.me.0.known seat.new.me.0.known }
{
    words.fetch_add::<Told<T>>(seat, word, by)
}
