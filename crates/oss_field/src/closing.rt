//! The end of a table: its words and slots are moved out, into memory that was taken before.

ghost use Rattle.std.specs.Prelude.{◌≡◌, ◌<◌, ◌≤◌, [], vec_capacity};
ghost use Rattle.std.specs.Slots.{slots_items, slots_len, IsFull};
ghost use Rattle.oss_field.specs.Spent.{HasNoWork, IsApart};
ghost use Rattle.oss_field.specs.Standing.{On};

use crate::start::FieldTable;
use crate::words::Place;
use atomic_table::Closed;
use oss_jobs::Job;
use std::alloc::Global;

/// What a table leaves: its words, and the jobs in its slots by the numbers of their tasks. Contracts say for which states
/// they stand (`IsApart`).
#[derive(Drop)]
pub struct FieldParts {
    /// The draw word, the cells, and six words for each entry.
    pub words: Vec<u64>,
    /// One slot for each entry.
    pub slots: Vec<Option<Box<Job>>>,
}

/// A table that no thread shares any more.
type ClosedTable = Closed<Option<Box<Job>>, Global>;

/// Copies so many words of a closed table to where there is room for them.
fn move_words(closed: &ClosedTable, words: &mut Vec<u64>, count: usize)
    requires size { slots_len closed.now.words ≡ count }
    requires full { IsFull closed.now.words }
    requires room { (words.old.items ≡ []) × (count ≤ vec_capacity words.old) }
    ensures words { words.new.items ≡ slots_items closed.now.words }
{
    for place in 0..count {
        let word = closed.word(place);
        let Ok(()) = words.push(word) else {
            unreachable!()
        };
    }
}

/// Moves what lies in so many slots of a closed table to where there is room for it, and frees the table.
fn move_jobs(mut closed: ClosedTable, slots: &mut Vec<Option<Box<Job>>>, count: usize)
    requires size { slots_len closed.slots ≡ count }
    requires full { IsFull closed.slots }
    requires room { (slots.old.items ≡ []) × (count ≤ vec_capacity slots.old) }
    ensures slots { slots.new.items ≡ slots_items closed.slots }
{
    for place in 0..count {
        let slot = closed.take(place);
        let Ok(()) = slots.push(slot) else {
            unreachable!()
        };
    }
    closed.free();
}

/// Takes the table apart, with a seat that has all its parts and no work, and frees it. There is room for so many words and
/// slots.
pub(crate) fn close_table(
    table: FieldTable,
    place: Place,
    parts: &mut FieldParts,
    words: usize,
    slots: usize,
)
    requires on { On table.shared.table_id table.shared.key place }
    requires words { words ≡ table.shared.table_id.words }
    requires slots { slots ≡ table.shared.table_id.slots }
    requires few { (0 < table.shared.key.entries) × (table.shared.key.entries ≤ 16777216) }
    requires all { (place.me.0.known.words.parts ≡ 65537) × HasNoWork place.me.0.known }
    requires word_room { (parts.old.words.items ≡ []) × (words ≤ vec_capacity parts.old.words) }
    requires slot_room { (parts.old.slots.items ≡ []) × (slots ≤ vec_capacity parts.old.slots) }
    ensures apart { IsApart table.shared.key.code.value table.shared.key.fuel table.shared.key.entries
        parts.new.words.items parts.new.slots.items }
{
    let closed = table.close_with(place);
    move_words(&closed, &mut parts.words, words);
    move_jobs(closed, &mut parts.slots, slots);
}
