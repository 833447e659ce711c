//! Single atomic steps by which a value is combined into a cell, and by which a child of an entry is read. What a step
//! tells is picked by its caller.

ghost use Rattle.std.specs.Prelude.{◌≡◌, ◌<◌, ◌+◌, ◌%◌, ◌^◌, bit_and, bit_or, bit_xor};
ghost use Rattle.oss_field.specs.Standing.{Stays};
ghost use Rattle.oss_field.specs.Steps.{Steps};

use crate::words::{Place, Tells, Told, Words};

/// Adds a value to the word of a cell, for the join of an entry: the word as it was.
pub(crate) fn fold_add<T: Tells>(
    words: &Words,
    seat: &mut Place,
    word: usize,
    value: u64,
    _cell: u32,
    _entry: u32,
) -> u64
    requires table { seat.old.table_id ≡ words.now.table_id }
    requires live { 0 < seat.old.me.0.known.words.parts }
    requires inside { word < words.now.table_id.words }
    requires keeps { Steps words.now.key.code.value words.now.key.fuel words.now.key.entries seat.old.id
        seat.old.me.0 word (λ n. (n + value) % 2 ^ 64) (λ n l. T.tells n seat.old.me.0.known l) }
    ensures stays { Stays seat.old seat.new }
    ensures told { T.tells result seat.old.me.0.known seat.new.me.0.known }
{
    words.fetch_add::<Told<T>>(seat, word, value)
}

/// The same, for a reduction by `&`.
pub(crate) fn fold_and<T: Tells>(
    words: &Words,
    seat: &mut Place,
    word: usize,
    value: u64,
    _cell: u32,
    _entry: u32,
) -> u64
    requires table { seat.old.table_id ≡ words.now.table_id }
    requires live { 0 < seat.old.me.0.known.words.parts }
    requires inside { word < words.now.table_id.words }
    requires keeps { Steps words.now.key.code.value words.now.key.fuel words.now.key.entries seat.old.id
        seat.old.me.0 word (λ n. bit_and n value) (λ n l. T.tells n seat.old.me.0.known l) }
    ensures stays { Stays seat.old seat.new }
    ensures told { T.tells result seat.old.me.0.known seat.new.me.0.known }
{
    words.fetch_and::<Told<T>>(seat, word, value)
}

/// The same, for one by `|`.
pub(crate) fn fold_or<T: Tells>(
    words: &Words,
    seat: &mut Place,
    word: usize,
    value: u64,
    _cell: u32,
    _entry: u32,
) -> u64
    requires table { seat.old.table_id ≡ words.now.table_id }
    requires live { 0 < seat.old.me.0.known.words.parts }
    requires inside { word < words.now.table_id.words }
    requires keeps { Steps words.now.key.code.value words.now.key.fuel words.now.key.entries seat.old.id
        seat.old.me.0 word (λ n. bit_or n value) (λ n l. T.tells n seat.old.me.0.known l) }
    ensures stays { Stays seat.old seat.new }
    ensures told { T.tells result seat.old.me.0.known seat.new.me.0.known }
{
    words.fetch_or::<Told<T>>(seat, word, value)
}

/// The same, for one by `^`.
pub(crate) fn fold_xor<T: Tells>(
    words: &Words,
    seat: &mut Place,
    word: usize,
    value: u64,
    _cell: u32,
    _entry: u32,
) -> u64
    requires table { seat.old.table_id ≡ words.now.table_id }
    requires live { 0 < seat.old.me.0.known.words.parts }
    requires inside { word < words.now.table_id.words }
    requires keeps { Steps words.now.key.code.value words.now.key.fuel words.now.key.entries seat.old.id
        seat.old.me.0 word (λ n. bit_xor n value) (λ n l. T.tells n seat.old.me.0.known l) }
    ensures stays { Stays seat.old seat.new }
    ensures told { T.tells result seat.old.me.0.known seat.new.me.0.known }
{
    words.fetch_xor::<Told<T>>(seat, word, value)
}

/// Reads the state word of a child of an entry, in a field of so many cells.
pub(crate) fn read_below_word<T: Tells>(
    words: &Words,
    seat: &mut Place,
    word: usize,
    _cells: u32,
    _entry: u32,
    _child: u32,
) -> u64
    requires table { seat.old.table_id ≡ words.now.table_id }
    requires live { 0 < seat.old.me.0.known.words.parts }
    requires inside { word < words.now.table_id.words }
    requires keeps { Steps words.now.key.code.value words.now.key.fuel words.now.key.entries seat.old.id
        seat.old.me.0 word (λ n. n) (λ n l. T.tells n seat.old.me.0.known l) }
    ensures stays { Stays seat.old seat.new }
    ensures told { T.tells result seat.old.me.0.known seat.new.me.0.known }
{
    words.load::<Told<T>>(seat, word)
}
