//! Single atomic steps that add a flag to a state word, or lower a count. What a step tells is picked by its caller.

ghost use Rattle.std.specs.Prelude.{◌≡◌, ◌<◌, ◌+◌, ◌-◌, ◌%◌, ◌^◌};
ghost use Rattle.oss_field.specs.Standing.{Stays};
ghost use Rattle.oss_field.specs.Steps.{Steps};

use crate::words::{Place, Tells, Told, Words};
use oss_jobs::Job;
use oss_words::Message;

/// Adds to the state word of an entry, whose info word is this, for the flag of a message, in a field of so many cells:
/// the word as it was.
pub(crate) fn add_flag<T: Tells>(
    words: &Words,
    seat: &mut Place,
    word: usize,
    by: u64,
    _cells: u32,
    _message: Message,
    _info: u64,
) -> u64
    requires table { seat.old.table_id ≡ words.now.table_id }
    requires live { 0 < seat.old.me.0.known.words.parts }
    requires inside { word < words.now.table_id.words }
    requires keeps { Steps words.now.key.code.value words.now.key.fuel words.now.key.entries seat.old.id
        seat.old.me.0 word (λ n. (n + by) % 2 ^ 64) (λ n l. T.tells n seat.old.me.0.known l) }
    ensures stays { Stays seat.old seat.new }
    ensures told { T.tells result seat.old.me.0.known seat.new.me.0.known }
{
    words.fetch_add::<Told<T>>(seat, word, by)
}

/// Takes 1 from the count word of a task, in a field of so many cells: the word as it was.
pub(crate) fn lower_word<T: Tells>(
    words: &Words,
    seat: &mut Place,
    word: usize,
    _cells: u32,
    _task: u32,
) -> u64
    requires table { seat.old.table_id ≡ words.now.table_id }
    requires live { 0 < seat.old.me.0.known.words.parts }
    requires inside { word < words.now.table_id.words }
    requires keeps { Steps words.now.key.code.value words.now.key.fuel words.now.key.entries seat.old.id
        seat.old.me.0 word (λ n. (n + (2 ^ 64 - 1)) % 2 ^ 64) (λ n l. T.tells n seat.old.me.0.known l) }
    ensures stays { Stays seat.old seat.new }
    ensures told { T.tells result seat.old.me.0.known seat.new.me.0.known }
{
    words.fetch_sub::<Told<T>>(seat, word, 1)
}

/// Adds to the state word of an entry that a job gives up, on a cell or its own, in a field of so many cells. What is told
/// of it is its info word, or the number of its last child. The word as it was.
pub(crate) fn add_given<T: Tells>(
    words: &Words,
    seat: &mut Place,
    word: usize,
    by: u64,
    _cells: u32,
    _job: &Job,
    _cell: Option<u32>,
    _entry: u32,
    _info: u64,
) -> u64
    requires table { seat.old.table_id ≡ words.now.table_id }
    requires live { 0 < seat.old.me.0.known.words.parts }
    requires inside { word < words.now.table_id.words }
    requires keeps { Steps words.now.key.code.value words.now.key.fuel words.now.key.entries seat.old.id
        seat.old.me.0 word (λ n. (n + by) % 2 ^ 64) (λ n l. T.tells n seat.old.me.0.known l) }
    ensures stays { Stays seat.old seat.new }
    ensures told { T.tells result seat.old.me.0.known seat.new.me.0.known }
{
    words.fetch_add::<Told<T>>(seat, word, by)
}

/// Adds to the state word of a last child, whose info word is this, for a link to its parent's entry, in a field of so
/// many cells: the word as it was.
pub(crate) fn add_link<T: Tells>(
    words: &Words,
    seat: &mut Place,
    word: usize,
    by: u64,
    _cells: u32,
    _entry: u32,
    _last: u32,
    _info: u64,
) -> u64
    requires table { seat.old.table_id ≡ words.now.table_id }
    requires live { 0 < seat.old.me.0.known.words.parts }
    requires inside { word < words.now.table_id.words }
    requires keeps { Steps words.now.key.code.value words.now.key.fuel words.now.key.entries seat.old.id
        seat.old.me.0 word (λ n. (n + by) % 2 ^ 64) (λ n l. T.tells n seat.old.me.0.known l) }
    ensures stays { Stays seat.old seat.new }
    ensures told { T.tells result seat.old.me.0.known seat.new.me.0.known }
{
    words.fetch_add::<Told<T>>(seat, word, by)
}
