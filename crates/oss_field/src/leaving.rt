//! The value of a reduction of a job's task is left for its join: it is written beside the state word of the entry, and then
//! the flag that says so is set in the word.

ghost use Rattle.std.specs.Prelude.{◌≡◌, ◌<◌, ◌≤◌, ◌+◌, length, vec_capacity};
ghost use Rattle.oss_field.specs.Asks.{AreInside};
ghost use Rattle.oss_field.specs.Leaving.{HasLeft, IsWritten, MayLeaveHere, MayWrite, SetsLeft, StandsToLeave, WroteValue};
ghost use Rattle.oss_field.specs.Messages.{Settled};
ghost use Rattle.oss_field.specs.Standing.{On, Stays};

use crate::held::Held;
use crate::holding::{hold_join, read_info};
use crate::leaving_words::{add_left, write_beside};
use crate::places::{state_place, value_place};
use crate::words::{Place, Words};
use oss_jobs::Job;
use std::marker::Brand;

/// What is added to the state word of an entry whose value is left.
const LEFT: u64 = 256;

/// Writes the value of a reduction of a job's task beside the state word of its entry.
fn write_value(
    words: &Words,
    seat: &mut Place,
    cells: u32,
    job: &Job,
    cell: u32,
    entry: u32,
    value: u64,
)
    requires on { On words.now.table_id words.now.key seat.old }
    requires cells { cells ≡ length words.now.key.code.value.first }
    requires may { MayWrite words.now.key.code.value job.now words.now.key.entries seat.old.me.0.known cell value
        entry }
    ensures stays { Stays seat.old seat.new }
    ensures wrote { WroteValue words.now.key.code.value job.now cells cell value entry seat.old.me.0.known
        seat.new.me.0.known }
{
    let word = value_place(cells, entry);
    write_beside::<Brand>(words, seat, word, value, cells, job, cell, entry);
}

/// Sets the flag of an entry beside whose state word this value was written: the state word as it was.
fn set_left(words: &Words, seat: &mut Place, cells: u32, _cell: u32, entry: u32, _value: u64) -> u64
    requires on { On words.now.table_id words.now.key seat.old }
    requires cells { cells ≡ length words.now.key.code.value.first }
    requires inside { entry < words.now.key.entries }
    requires written { IsWritten words.now.key.code.value seat.old.me.0.known _cell _value entry }
    ensures stays { Stays seat.old seat.new }
    ensures left { SetsLeft words.now.key.entries cells entry result seat.old.me.0.known seat.new.me.0.known }
{
    add_left::<Brand>(words, seat, state_place(cells, entry), LEFT, cells, entry)
}

/// Leaves the value of a reduction of a job's task, whose entry on the cell is this one, for its join.
fn leave_there(
    words: &Words,
    place: &mut Place,
    held: &mut Vec<Held>,
    cells: u32,
    job: &Job,
    cell: u32,
    entry: u32,
    value: u64,
)
    requires on { On words.now.table_id words.now.key place.old }
    requires cells { cells ≡ length words.now.key.code.value.first }
    requires may { MayLeaveHere words.now.key.code.value job.now words.now.key.entries place.old.me.0.known cell value
        entry }
    requires settled { Settled held.old.items words.now.key.entries place.old.me.0.known }
    requires room { 1024 ≤ vec_capacity held.old }
    ensures stays { Stays place.old place.new }
    ensures settled { Settled held.new.items words.now.key.entries place.new.me.0.known }
    ensures left { HasLeft words.now.key.code.value job.now cell value place.old.me.0.known place.new.me.0.known }
    ensures room { 1024 ≤ vec_capacity held.new }
{
    let info = read_info(words, place, cells, entry);
    write_value(words, place, cells, job, cell, entry, value);
    let found = set_left(words, place, cells, cell, entry, value);
    let now = found + LEFT;
    hold_join(held, entry, info, found, now);
}

/// Leaves the value of a reduction of a job's task for its join.
pub(crate) fn leave_value(
    words: &Words,
    place: &mut Place,
    held: &mut Vec<Held>,
    cells: u32,
    job: &Job,
    cell: u32,
    value: u64,
)
    requires on { On words.now.table_id words.now.key place.old }
    requires cells { cells ≡ length words.now.key.code.value.first }
    requires may { StandsToLeave words.now.key.code.value job.now place.old.me.0.known cell value }
    requires inside { AreInside words.now.table_id place.old.me.0.known.bears }
    requires settled { Settled held.old.items words.now.key.entries place.old.me.0.known }
    requires room { 1024 ≤ vec_capacity held.old }
    ensures stays { Stays place.old place.new }
    ensures settled { Settled held.new.items words.now.key.entries place.new.me.0.known }
    ensures left { HasLeft words.now.key.code.value job.now cell value place.old.me.0.known place.new.me.0.known }
    ensures room { 1024 ≤ vec_capacity held.new }
{
    let entry = job.entry(cell);
    leave_there(words, place, held, cells, job, cell, entry, value);
}
