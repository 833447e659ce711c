//! Messages that a step has sent are made ready for their delivery: the info word of each entry is read and kept
//! beside the message.

ghost use Rattle.std.specs.Prelude.{not, ◌&&◌, ◌≡◌, ◌<◌, ◌≤◌, ◌+◌, ◌*◌, ℕ, [], ◌∷◌, drop, length, vec_capacity};
ghost use Rattle.arrayvec.specs.ArrayVec.{array_vec_len};
ghost use Rattle.oss_words.specs.Bits.{info_at, state_at};
ghost use Rattle.oss_words.specs.Causes.{joins, posted, sent};
ghost use Rattle.oss_words.specs.Views.{Among};
ghost use Rattle.oss_words.specs.declared.message.Message.{Message};
ghost use Rattle.oss_field.specs.Known.{Known};
ghost use Rattle.oss_field.specs.Messages.{Bounded, Hangs, Informs, Learns, Ready};
ghost use Rattle.oss_field.specs.Standing.{On, Stays};

use crate::held::Held;
use crate::places::info_place;
use crate::words::{Place, Words, read_word};
use oss_words::{Message, Messages, send, state_of};
use std::marker::Brand;

/// Reads the info word of an entry that hangs, in a field of so many cells.
pub(crate) fn read_info(words: &Words, seat: &mut Place, cells: u32, entry: u32) -> u64
    requires on { On words.now.table_id words.now.key seat.old }
    requires cells { cells ≡ length words.now.key.code.value.first }
    requires inside { entry < words.now.key.entries }
    requires hangs { Hangs seat.old.me.0.known entry }
    ensures stays { Stays seat.old seat.new }
    ensures informs { Informs cells entry result seat.old.me.0.known seat.new.me.0.known }
{
    read_word::<Brand>(words, seat, info_place(cells, entry), cells, entry)
}

/// Makes one message ready, of those that are not yet, whose first it is.
fn hold_one(
    words: &Words,
    place: &mut Place,
    held: &mut Vec<Held>,
    cells: u32,
    messages: &[Message],
    at: usize,
)
    requires on { On words.now.table_id words.now.key place.old }
    requires cells { cells ≡ length words.now.key.code.value.first }
    requires bounded { Bounded words.now.key.entries place.old.me.0.known }
    requires inside { at < length messages.now }
    requires ready { Ready held.old.items (drop at messages.now) place.old.me.0.known }
    requires room { 1024 ≤ vec_capacity held.old }
    ensures stays { Stays place.old place.new }
    ensures learns { Learns place.old.me.0.known place.new.me.0.known }
    ensures ready { Ready held.new.items (drop (at + 1) messages.now) place.new.me.0.known }
    ensures room { 1024 ≤ vec_capacity held.new }
{
    let message = messages[at];
    let info = read_info(words, place, cells, message.entry);
    let one = Held {
        entry: message.entry,
        flag: message.flag,
        info,
    };
    let Ok(()) = held.push(one) else {
        unreachable!()
    };
}

/// Holds messages to other entries. Of each the info word of its entry is read.
fn hold(words: &Words, place: &mut Place, held: &mut Vec<Held>, cells: u32, sent: &Messages)
    requires on { On words.now.table_id words.now.key place.old }
    requires cells { cells ≡ length words.now.key.code.value.first }
    requires bounded { Bounded words.now.key.entries place.old.me.0.known }
    requires ready { Ready held.old.items sent.now.items place.old.me.0.known }
    requires room { 1024 ≤ vec_capacity held.old }
    ensures stays { Stays place.old place.new }
    ensures learns { Learns place.old.me.0.known place.new.me.0.known }
    ensures ready { Ready held.new.items [] place.new.me.0.known }
    ensures room { 1024 ≤ vec_capacity held.new }
{
    let messages = sent.as_slice();
    for at in 0..messages.len() {
        hold_one(words, place, held, cells, messages, at);
    }
}

/// Whether the step from the state word `old` to `new` completes the cause of the entry's own join.
fn completes_join(old: u64, new: u64) -> bool
    ensures { result ≡ (joins (state_at new) && not (joins (state_at old))) }
{
    let (before, now) = (state_of(old), state_of(new));
    now.folds && now.left && !(before.folds && before.left)
}

/// Holds the join of an entry, if a step has completed its cause. The seat was told of the entry.
pub(crate) fn hold_join(held: &mut Vec<Held>, entry: u32, info: u64, old: u64, new: u64)
    requires few { length held.old.items ≤ 390 }
    requires room { 1024 ≤ vec_capacity held.old }
    ensures ready { (k : Known) → Among (record { entry = entry; info = info_at info }) k.told →
        Ready held.old.items (sent entry (state_at old) (state_at new) (info_at info)) k →
        Ready held.new.items (posted (state_at old) (state_at new) (info_at info)) k }
    ensures room { 1024 ≤ vec_capacity held.new }
{
    if !completes_join(old, new) {
        return;
    }
    let one = Held {
        entry,
        flag: 0,
        info,
    };
    let Ok(()) = held.push(one) else {
        unreachable!()
    };
}

/// Holds all that a step has sent which took the state word of an entry from `old` to `new`. The seat was told that
/// this is the entry's info word.
pub(crate) fn hold_sent(
    words: &Words,
    place: &mut Place,
    held: &mut Vec<Held>,
    cells: u32,
    entry: u32,
    info: u64,
    old: u64,
    new: u64,
)
    requires on { On words.now.table_id words.now.key place.old }
    requires cells { cells ≡ length words.now.key.code.value.first }
    requires bounded { Bounded words.now.key.entries place.old.me.0.known }
    requires told { Among (record { entry = entry; info = info_at info }) place.old.me.0.known.told }
    requires ready { Ready held.old.items (sent entry (state_at old) (state_at new) (info_at info))
        place.old.me.0.known }
    requires room { 1024 ≤ vec_capacity held.old }
    ensures stays { Stays place.old place.new }
    ensures learns { Learns place.old.me.0.known place.new.me.0.known }
    ensures ready { Ready held.new.items [] place.new.me.0.known }
    ensures room { 1024 ≤ vec_capacity held.new }
{
    hold_join(held, entry, info, old, new);
    let sent = send(old, new, info);
    hold(words, place, held, cells, &sent);
}
