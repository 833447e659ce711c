//! A held message is delivered: one step sets its flag, and if a count waits for that, another lowers the count.

ghost use Rattle.std.specs.Prelude.{◌≡◌, ◌==◌, ◌<◌, ◌≤◌, ◌*◌, if◌then◌else◌, true, [], ◌∷◌, length, vec_capacity, Some, None};
ghost use Rattle.oss_roles.specs.Counting.{needed};
ghost use Rattle.oss_words.specs.Bits.{info_at, weight};
ghost use Rattle.oss_words.specs.Views.{Among};
ghost use Rattle.oss_field.specs.Messages.{Delivered, IsPaid, Lowers, MayDeliver, NoJoinFirst, Passes, Settled, is_due, owes_after};
ghost use Rattle.oss_field.specs.Standing.{On, Stays};

use crate::adding::{add_flag, lower_word};
use crate::held::{Held, first_of};
use crate::holding::hold_sent;
use crate::places::{count_place, state_place};
use crate::touched::Touched;
use crate::words::{Place, Words};
use oss_syntax::Mode;
use oss_words::{EntryInfo, Message, info_of};
use std::marker::Brand;

/// What the flag of this number, from 1 to 5, weighs in a state word.
fn weight_of(flag: u8) -> u64
    ensures { result ≡ weight flag }
{
    if flag == 1 {
        16
    } else if flag == 2 {
        2
    } else if flag == 3 {
        1
    } else if flag == 4 {
        4
    } else {
        32
    }
}

/// Whether an access of this mode needs this flag.
fn needs(mode: Mode, flag: u8) -> bool
    ensures { result ≡ needed mode flag }
{
    match mode {
        Mode::Read => flag == 3,
        Mode::Write => flag == 4,
        Mode::Fold(_) => false,
    }
}

/// Whether the count of the entry's task waits for this flag.
fn waits(info: &EntryInfo, flag: u8) -> bool
    ensures { result ≡ is_due info.now flag }
{
    info.strong && needs(info.mode, flag)
}

/// Sets the flag of a message that comes first, whose entry has this info word: the state word as it was.
fn set_flag(words: &Words, seat: &mut Place, cells: u32, message: Message, info: u64) -> u64
    requires on { On words.now.table_id words.now.key seat.old }
    requires cells { cells ≡ length words.now.key.code.value.first }
    requires may { MayDeliver words.now.key.entries seat.old.me.0.known message info }
    ensures stays { Stays seat.old seat.new }
    ensures passes { Passes words.now.key.entries cells message info result seat.old.me.0.known
        seat.new.me.0.known }
{
    add_flag::<Brand>(
        words,
        seat,
        state_place(cells, message.entry),
        weight_of(message.flag),
        cells,
        message,
        info,
    )
}

/// Lowers the count of a task, which the seat owes for a flag of this entry: the count as it was.
fn lower_count(
    words: &Words,
    seat: &mut Place,
    cells: u32,
    task: u32,
    _entry: u32,
    _info: u64,
) -> u64
    requires on { On words.now.table_id words.now.key seat.old }
    requires cells { cells ≡ length words.now.key.code.value.first }
    requires inside { task < words.now.key.entries }
    requires told { Among (record { entry = _entry; info = info_at _info }) seat.old.me.0.known.told }
    requires task { (info_at _info).task ≡ task }
    requires owes { seat.old.me.0.known.owes ≡ task ∷ [] }
    ensures stays { Stays seat.old seat.new }
    ensures lowers { Lowers cells task result seat.old.me.0.known seat.new.me.0.known }
{
    lower_word::<Brand>(words, seat, count_place(cells, task), cells, task)
}

/// The task whose count was this before it was lowered, if it is 0 then.
fn free(found: u64, task: u32) -> Option<u32>
    ensures { result ≡ (if found == 1 then Some task else None) }
{
    if found == 1 { Some(task) } else { None }
}

/// Lowers the count that waits for a flag of an entry with this info word, if one does: its task, if the count is 0
/// then.
fn pay(words: &Words, seat: &mut Place, cells: u32, entry: u32, flag: u8, info: u64) -> Option<u32>
    requires on { On words.now.table_id words.now.key seat.old }
    requires cells { cells ≡ length words.now.key.code.value.first }
    requires told { Among (record { entry = entry; info = info_at info }) seat.old.me.0.known.told }
    requires task { is_due (info_at info) flag ≡ true → (info_at info).task < words.now.key.entries }
    requires owes { seat.old.me.0.known.owes ≡ owes_after (info_at info) flag [] }
    ensures stays { Stays seat.old seat.new }
    ensures paid { IsPaid info flag seat.old.me.0.known seat.new.me.0.known result }
{
    let parts = info_of(info);
    if !waits(&parts, flag) {
        return None;
    }
    let found = lower_count(words, seat, cells, parts.task, entry, info);
    free(found, parts.task)
}

/// Delivers the message that comes first, which is no join: the task whose count became 0 by it, and what it touched.
pub(crate) fn deliver_first(
    words: &Words,
    place: &mut Place,
    held: &mut Vec<Held>,
    cells: u32,
) -> (Option<u32>, Touched)
    requires on { On words.now.table_id words.now.key place.old }
    requires cells { cells ≡ length words.now.key.code.value.first }
    requires settled { Settled held.old.items words.now.key.entries place.old.me.0.known }
    requires some { 0 < length held.old.items }
    requires join { NoJoinFirst place.old.me.0.known }
    requires room { 1024 ≤ vec_capacity held.old }
    ensures stays { Stays place.old place.new }
    ensures settled { Settled held.new.items words.now.key.entries place.new.me.0.known }
    ensures delivered { Delivered place.old.me.0.known place.new.me.0.known result.0 }
    ensures last { result.1 ≡ place.new.me.0.known.last }
    ensures room { 1024 ≤ vec_capacity held.new }
    ensures work { place.new.me.0.known.words.delivered ≤ 6 * words.now.key.entries }
{
    let first = held.swap_remove(first_of(held.as_slice()));
    let message = Message {
        entry: first.entry,
        flag: first.flag,
    };
    let found = set_flag(words, place, cells, message, first.info);
    let freed = pay(words, place, cells, first.entry, first.flag, first.info);
    let weight = weight_of(first.flag);
    let state = found + weight;
    hold_sent(
        words,
        place,
        held,
        cells,
        first.entry,
        first.info,
        found,
        state,
    );
    let last = Touched {
        entry: first.entry,
        state,
        info: first.info,
    };
    (freed, last)
}
