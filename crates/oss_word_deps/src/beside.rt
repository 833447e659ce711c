//! The words beside the plain lists. If a net would need more entries than it may have, it is given up and the
//! lists go on alone.

ghost use Rattle.std.specs.Prelude.{◌≡◌, ◌<◌, ◌≤◌, ◌+◌, ◌-◌, ℕ, take, IfNone, IfOk, IfSome, IsOk, Ok, Some, length};
ghost use Rattle.oss_word_deps.specs.declared.words.Kept.TheVariants.{Yes};
ghost use Rattle.oss_deps.specs.declared.opened.Open.{Open};
ghost use Rattle.oss_deps.specs.Seen.{CanGive, Gives, Opens, Seen};
ghost use Rattle.oss_word_deps.specs.Booked.{IsBooked, cell_count};
ghost use Rattle.oss_word_deps.specs.Shelved.{HasPlace, HasPlaceIn, HasSameRows, IsAsLarge, IsNoSmaller, IsRoomier, MayOpenAs, Shelved};

use crate::words::{Kept, Words};
use oss_syntax::{Access, Range};
use std::alloc::AllocError;

/// How many cells accesses have; `None` where these are more than a net has entries.
fn cells_of(accesses: &[Access]) -> Option<u32>
    ensures some { IfSome result (λ n. (n ≡ cell_count accesses.now) × (n ≤ 16777216)) }
    ensures none { IfNone result (16777216 < cell_count accesses.now) }
{
    let mut count = 0;
    for access in accesses {
        count += access.range.hi - access.range.lo;
        if count > 16_777_216 {
            return None;
        }
    }
    Some(count)
}

/// Makes room for a task with these accesses, in a net of at most `most` entries. It is an error where memory
/// is wanted.
fn room_in(words: &mut Words, most: u32, accesses: &[Access]) -> Result<Kept, AllocError>
    requires most { (words.old.size ≤ most) × (most ≤ 16777216) }
    ensures ledger { words.new.ledger ≡ words.old.ledger }
    ensures most { words.new.size ≤ most }
    ensures more { IsNoSmaller words.old words.new }
    ensures room { result ≡ Ok Yes → HasPlace (cell_count accesses.now) words.new }
    ensures sure { HasPlace (cell_count accesses.now) words.old → result ≡ Ok Yes }
{
    match cells_of(accesses) {
        Some(count) => words.make_room(count, most),
        None => Ok(Kept::No),
    }
}

/// The same of words that may have been given up. They are given up where the net would need more entries than `most`.
pub(crate) fn make_room(
    words: &mut Option<Words>,
    most: u32,
    accesses: &[Access],
) -> Result<(), AllocError>
    requires most { ((w : Shelved) → words.old ≡ Some w → w.size ≤ most) × (most ≤ 16777216) }
    ensures roomier { IsRoomier most words.old words.new }
    ensures room { IfOk result (λ _. HasPlaceIn (cell_count accesses.now) words.new) }
    ensures sure { HasPlaceIn (cell_count accesses.now) words.old → IsOk result }
{
    let kept = match words {
        Some(words) => room_in(words, most, accesses)?,
        None => return Ok(()),
    };
    match kept {
        Kept::Yes => {}
        Kept::No => *words = None,
    }
    Ok(())
}

/// Opens a task.
pub(crate) fn open_in(words: &mut Option<Words>, task: u64, parent: u64, accesses: &[Access])
    requires may { (s : Seen) × (o : Open) × ((w : Shelved) → words.old ≡ Some w →
        MayOpenAs s o task parent accesses.now w.ledger) }
    requires room { HasPlaceIn (cell_count accesses.now) words.old }
    ensures booked { (s t : Seen) (o : Open) → ((w : Shelved) → words.old ≡ Some w →
        MayOpenAs s o task parent accesses.now w.ledger) → Opens o s t → (w : Shelved) → words.new ≡ Some w →
        IsBooked t w.ledger }
    ensures size { (w : Shelved) → words.new ≡ Some w → (v : Shelved) × (words.old ≡ Some v) × (w.size ≡ v.size) }
{
    match words {
        Some(words) => words.open(task, parent, accesses),
        None => {}
    }
}

/// Gives up the cells of a range for a task.
pub(crate) fn give_in(words: &mut Option<Words>, task: u64, range: Range)
    requires may { (s : Seen) × ((w : Shelved) → words.old ≡ Some w → IsBooked s w.ledger) × CanGive task range s }
    ensures booked { (s t : Seen) → ((w : Shelved) → words.old ≡ Some w → IsBooked s w.ledger) →
        CanGive task range s → Gives task range s t → (w : Shelved) → words.new ≡ Some w → IsBooked t w.ledger }
    ensures rows { (w : Shelved) → words.new ≡ Some w → (v : Shelved) × (words.old ≡ Some v) ×
        HasSameRows v.ledger w.ledger × IsAsLarge v w }
{
    match words {
        Some(words) => words.give(task, range),
        None => {}
    }
}
