//! A field at its start: main's job stands in its slot, and no other entry has been used.

ghost use Rattle.std.specs.Prelude.{◌≡◌, ◌<◌, ◌≤◌, [], ◌∷◌, ◌++◌, length, IfOk, OnOk};
ghost use Rattle.oss_field.specs.Known.{first_known};
ghost use Rattle.oss_field.specs.Standing.{at_home, slots_at_start, words_at_start};
ghost use Rattle.oss_field.specs.Spent.{Rules};

use crate::key::FieldKey;
use crate::rule::FieldRule;
use crate::view::SeatView;
use crate::words::Place;
use atomic_table::Table;
use oss_jobs::Job;
use std::alloc::{AllocError, Global};

/// The table of a field.
pub(crate) type FieldTable = Table<Option<Box<Job>>, SeatView, FieldKey, FieldRule, Global>;

/// Adds the six words of an entry with this count and this body word.
fn add_entry(words: &mut Vec<u64>, count: u64, body: u64) -> Result<(), AllocError>
    ensures { OnOk result (words.new.items ≡ words.old.items ++ (0 ∷ 0 ∷ 0 ∷ 0 ∷ count ∷ body ∷ [])) }
{
    words.extend_from_slice(&[0, 0, 0, 0, count, body])
}

/// The words of a field of these cells and so many entries.
pub(crate) fn first_words(
    alloc: Global,
    cells: &[u64],
    entries: u32,
) -> Result<Vec<u64>, AllocError>
    requires some { 0 < entries }
    ensures { IfOk result (λ words. words.items ≡ words_at_start cells.now entries) }
{
    let mut words = Vec::new(alloc);
    words.push(1)?;
    words.extend_from_slice(cells)?;
    add_entry(&mut words, 0, 1)?;
    for _ in 1..entries {
        add_entry(&mut words, u64::MAX, 0)?;
    }
    Ok(words)
}

/// Its slots.
pub(crate) fn first_slots(
    alloc: Global,
    job: Box<Job>,
    entries: u32,
) -> Result<Vec<Option<Box<Job>>>, AllocError>
    requires some { 0 < entries }
    ensures { IfOk result (λ slots. slots.items ≡ slots_at_start job entries) }
{
    let mut slots = Vec::new(alloc);
    slots.push(Some(job))?;
    for _ in 1..entries {
        slots.push(None)?;
    }
    Ok(slots)
}

/// A table of such words and slots, and its first seat.
pub(crate) fn open_table(
    alloc: Global,
    words: &[u64],
    slots: Vec<Option<Box<Job>>>,
    key: &FieldKey,
) -> Result<(FieldTable, Place), AllocError>
    requires rule { Rules key.now.code.value key.now.fuel key.now.entries words.now (at_home slots.items)
        (record { known = first_known } ∷ []) }
    ensures table { IfOk result (λ r. (r.0.shared.table_id.words ≡ length words.now) ×
        (r.0.shared.table_id.slots ≡ length slots.items) × (r.0.shared.key ≡ key.now)) }
    ensures seat { IfOk result (λ r. (r.1.table_id ≡ r.0.shared.table_id) × (r.1.id ≡ 0) ×
        (r.1.me ≡ (record { known = first_known }, []))) }
{
    match Table::new(alloc, words, slots, key) {
        Ok(made) => Ok(made),
        Err(refused) => {
            drop(refused);
            Err(AllocError)
        }
    }
}
