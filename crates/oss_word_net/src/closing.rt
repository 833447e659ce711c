//! The end of a table: its state words are copied out, into memory that was taken before.

ghost use Rattle.std.specs.Prelude.{◌≡◌, ◌<◌, ◌≤◌, ◌+◌, ◌*◌, ℕ, [], length, vec_capacity, slice_index};
ghost use Rattle.std.specs.Slots.{slots_items, slots_len, IsFull};
ghost use Rattle.oss_words.specs.Bits.{state_at};
ghost use Rattle.oss_word_net.specs.Asks.{On};
ghost use Rattle.oss_word_net.specs.Ended.{Ended};
ghost use Rattle.oss_word_net.specs.Known.{Rests};

use crate::rule::NetRule;
use crate::sight::Sight;
use crate::steps::Place;
use atomic_table::{Closed, Table};
use std::alloc::Global;

/// Copies the state words of a closed table, in order of the entries, to where there is room for them.
fn copy_states(closed: &Closed<u8, Global>, states: &mut Vec<u64>, entries: u32)
    requires size { slots_len closed.now.words ≡ 1 + 2 * entries }
    requires full { IsFull closed.now.words }
    requires room { (states.old.items ≡ []) × (entries ≤ vec_capacity states.old) }
    ensures size { length states.new.items ≡ entries }
    ensures words { (e : ℕ) → e < entries → slice_index states.new.items e ≡
        slice_index (slots_items closed.now.words) (1 + 2 * e) }
{
    for entry in 0..entries {
        let word = closed.word(1 + 2 * entry as usize);
        let Ok(()) = states.push(word) else {
            unreachable!()
        };
    }
}

/// Copies all words of a closed table to where there is room for them.
fn copy_words(closed: &Closed<u8, Global>, words: &mut Vec<u64>, count: usize)
    requires size { slots_len closed.now.words ≡ count }
    requires full { IsFull closed.now.words }
    requires room { (words.old.items ≡ []) × (count ≤ vec_capacity words.old) }
    ensures size { length words.new.items ≡ count }
    ensures words { (i : ℕ) → i < count → slice_index words.new.items i ≡
        slice_index (slots_items closed.now.words) i }
{
    for at in 0..count {
        let word = closed.word(at);
        let Ok(()) = words.push(word) else {
            unreachable!()
        };
    }
}

/// Closes a table with its only seat, which holds nothing, and frees it: all words go to where there is room for
/// them.
pub(crate) fn end_table(
    table: Table<u8, Sight, u32, NetRule, Global>,
    place: Place,
    words: &mut Vec<u64>,
    entries: u32,
)
    requires on { On table.shared.table_id entries place }
    requires key { (table.shared.key ≡ entries) × (table.shared.table_id.slots ≡ 0) }
    requires alone { (place.id ≡ 0) × (place.me.0.known.view.splits ≡ 0) }
    requires idle { (place.me.0.known.view.held ≡ []) × (place.me.0.known.view.half ≡ []) ×
        (place.me.0.known.filling ≡ []) }
    requires room { (words.old.items ≡ []) × (1 + 2 * entries ≤ vec_capacity words.old) }
    ensures { Ended entries words.new.items place.me.0.known }
{
    let closed = table.close_with(place);
    copy_words(&closed, words, 1 + 2 * entries as usize);
    closed.free();
}

/// Closes a table with a seat that has all parts of it and holds nothing, and frees it: its state words go to
/// where there is room for them.
pub(crate) fn close_table(
    table: Table<u8, Sight, u32, NetRule, Global>,
    place: Place,
    states: &mut Vec<u64>,
    entries: u32,
)
    requires on { On table.shared.table_id entries place }
    requires key { (table.shared.key ≡ entries) × (table.shared.table_id.slots ≡ 0) }
    requires all { (place.me.0.known.view.parts ≡ 65537) × (place.me.0.known.view.held ≡ []) ×
        (place.me.0.known.view.half ≡ []) }
    requires room { (states.old.items ≡ []) × (entries ≤ vec_capacity states.old) }
    ensures size { length states.new.items ≡ entries }
    ensures rests { (e : ℕ) → e < entries → Rests place.me.0.known e (state_at (slice_index states.new.items e)) }
{
    let closed = table.close_with(place);
    copy_states(&closed, states, entries);
    closed.free();
}
