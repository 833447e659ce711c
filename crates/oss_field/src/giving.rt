//! A job gives up an entry of its task: in one step if the task has no child there, and else in two, since its last child
//! is to tell it when all are done.

ghost use Rattle.std.specs.Prelude.{◌≡◌, ◌<◌, ◌≤◌, ◌+◌, ◌*◌, ℕ, List, length, vec_capacity, Option as Maybe, Some, None};
ghost use Rattle.oss_code.specs.declared.code.CodeParts.{CodeParts};
ghost use Rattle.oss_jobs.specs.Jobs.{IsJob};
ghost use Rattle.oss_machine.specs.Frames.{CodeScript};
ghost use Rattle.oss_model.specs.Bodies.{Body};
ghost use Rattle.oss_model.specs.Context.{right_of};
ghost use Rattle.oss_roles.specs.Roles.{Site};
ghost use Rattle.oss_field.specs.Asks.{AreInside};
ghost use Rattle.oss_field.specs.Giving.{Gave, GivesRest, HasGivenHalf, HasGivenWhole, IsHalfGiven, MayGiveHalf, MayGiveHere, MayGiveWhole, StandsToGive};
ghost use Rattle.oss_field.specs.Messages.{Settled};
ghost use Rattle.oss_field.specs.Owning.{entry_told_at, site_of};
ghost use Rattle.oss_field.specs.Standing.{On, Stays};

use crate::adding::{add_given, add_link};
use crate::held::Held;
use crate::holding::{hold_sent, read_info};
use crate::places::state_place;
use crate::words::{Place, Words};
use oss_jobs::Job;
use std::marker::Brand;

/// What is added to the state word of an entry that is given up at once.
const GIVEN_DONE: u64 = 24;

/// What is added to that of one with children.
const GIVEN: u64 = 8;

/// The entry of a job's task on a cell, or its own, and the last child there.
pub(crate) fn entry_there(job: &Job, cell: Option<u32>) -> (u32, Option<u32>)
    ensures { (code : CodeParts) (before : List ℕ) (t : ℕ) (b : Body CodeScript) (last : Site → Maybe ℕ) →
        IsJob code before job.now t b last →
        (result.0 ≡ entry_told_at t (right_of b.start.context) cell) × (result.1 ≡ last (site_of cell)) }
{
    match cell {
        Some(cell) => (job.entry(cell), job.last(cell)),
        None => (job.task(), job.last_child()),
    }
}

/// Gives up an entry with no child: its state word as it was.
fn give_whole(
    words: &Words,
    seat: &mut Place,
    cells: u32,
    job: &Job,
    cell: Option<u32>,
    entry: u32,
    info: u64,
) -> u64
    requires on { On words.now.table_id words.now.key seat.old }
    requires cells { cells ≡ length words.now.key.code.value.first }
    requires may { MayGiveWhole words.now.key.code.value job.now words.now.key.entries seat.old.me.0.known cell entry
        info }
    ensures stays { Stays seat.old seat.new }
    ensures gave { HasGivenWhole words.now.key.code.value job.now words.now.key.entries cells cell entry info result
        seat.old.me.0.known seat.new.me.0.known }
{
    add_given::<Brand>(
        words,
        seat,
        state_place(cells, entry),
        GIVEN_DONE,
        cells,
        job,
        cell,
        entry,
        info,
    )
}

/// The first step of a give of an entry with children, of which this is the last.
fn give_half(
    words: &Words,
    seat: &mut Place,
    cells: u32,
    job: &Job,
    cell: Option<u32>,
    entry: u32,
    last: u32,
) -> u64
    requires on { On words.now.table_id words.now.key seat.old }
    requires cells { cells ≡ length words.now.key.code.value.first }
    requires may { MayGiveHalf words.now.key.code.value job.now words.now.key.entries seat.old.me.0.known cell entry
        last }
    ensures stays { Stays seat.old seat.new }
    ensures gave { HasGivenHalf words.now.key.code.value job.now cells cell entry last result seat.old.me.0.known
        seat.new.me.0.known }
{
    add_given::<Brand>(
        words,
        seat,
        state_place(cells, entry),
        GIVEN,
        cells,
        job,
        cell,
        entry,
        last as u64,
    )
}

/// The second: the last child, whose info word is this, leads to the entry. The child's state word as it was.
fn give_rest(
    words: &Words,
    seat: &mut Place,
    cells: u32,
    _cell: Option<u32>,
    entry: u32,
    last: u32,
    info: u64,
) -> u64
    requires on { On words.now.table_id words.now.key seat.old }
    requires cells { cells ≡ length words.now.key.code.value.first }
    requires few { words.now.key.entries ≤ 16777216 }
    requires half { IsHalfGiven seat.old.me.0.known _cell entry last info }
    requires inside { last < words.now.key.entries }
    ensures stays { Stays seat.old seat.new }
    ensures gave { GivesRest words.now.key.entries cells entry last info result seat.old.me.0.known
        seat.new.me.0.known }
{
    add_link::<Brand>(
        words,
        seat,
        state_place(cells, last),
        64 + 65_536 * entry as u64,
        cells,
        entry,
        last,
        info,
    )
}

/// Gives up an entry of a job's task, with no child there.
fn give_childless(
    words: &Words,
    place: &mut Place,
    held: &mut Vec<Held>,
    cells: u32,
    job: &Job,
    cell: Option<u32>,
    entry: u32,
)
    requires on { On words.now.table_id words.now.key place.old }
    requires cells { cells ≡ length words.now.key.code.value.first }
    requires may { MayGiveHere words.now.key.code.value job.now words.now.key.entries place.old.me.0.known cell entry
        None }
    requires settled { Settled held.old.items words.now.key.entries place.old.me.0.known }
    requires room { 1024 ≤ vec_capacity held.old }
    ensures stays { Stays place.old place.new }
    ensures settled { Settled held.new.items words.now.key.entries place.new.me.0.known }
    ensures gave { Gave words.now.key.code.value job.now cell place.old.me.0.known place.new.me.0.known }
    ensures room { 1024 ≤ vec_capacity held.new }
{
    let info = read_info(words, place, cells, entry);
    let found = give_whole(words, place, cells, job, cell, entry, info);
    let now = found + GIVEN_DONE;
    hold_sent(words, place, held, cells, entry, info, found, now);
}

/// Gives up an entry of a job's task, whose last child there is this one.
fn give_above(
    words: &Words,
    place: &mut Place,
    held: &mut Vec<Held>,
    cells: u32,
    job: &Job,
    cell: Option<u32>,
    entry: u32,
    last: u32,
)
    requires on { On words.now.table_id words.now.key place.old }
    requires cells { cells ≡ length words.now.key.code.value.first }
    requires few { words.now.key.entries ≤ 16777216 }
    requires may { MayGiveHere words.now.key.code.value job.now words.now.key.entries place.old.me.0.known cell entry
        (Some last) }
    requires inside { last < words.now.key.entries }
    requires settled { Settled held.old.items words.now.key.entries place.old.me.0.known }
    requires room { 1024 ≤ vec_capacity held.old }
    ensures stays { Stays place.old place.new }
    ensures settled { Settled held.new.items words.now.key.entries place.new.me.0.known }
    ensures gave { Gave words.now.key.code.value job.now cell place.old.me.0.known place.new.me.0.known }
    ensures room { 1024 ≤ vec_capacity held.new }
{
    let info = read_info(words, place, cells, last);
    give_half(words, place, cells, job, cell, entry, last);
    let found = give_rest(words, place, cells, cell, entry, last, info);
    let now = found + (64 + 65_536 * entry as u64);
    hold_sent(words, place, held, cells, last, info, found, now);
}

/// Gives up an entry of a job's task, whose last child there is this one.
fn give_there(
    words: &Words,
    place: &mut Place,
    held: &mut Vec<Held>,
    cells: u32,
    job: &Job,
    cell: Option<u32>,
    entry: u32,
    last: Option<u32>,
)
    requires on { On words.now.table_id words.now.key place.old }
    requires cells { cells ≡ length words.now.key.code.value.first }
    requires few { words.now.key.entries ≤ 16777216 }
    requires may { MayGiveHere words.now.key.code.value job.now words.now.key.entries place.old.me.0.known cell entry
        last }
    requires inside { (l : ℕ) → last ≡ Some l → l < words.now.key.entries }
    requires settled { Settled held.old.items words.now.key.entries place.old.me.0.known }
    requires room { 1024 ≤ vec_capacity held.old }
    ensures stays { Stays place.old place.new }
    ensures settled { Settled held.new.items words.now.key.entries place.new.me.0.known }
    ensures gave { Gave words.now.key.code.value job.now cell place.old.me.0.known place.new.me.0.known }
    ensures room { 1024 ≤ vec_capacity held.new }
{
    match last {
        None => give_childless(words, place, held, cells, job, cell, entry),
        Some(last) => give_above(words, place, held, cells, job, cell, entry, last),
    }
}

/// Gives up an entry of a job's task, on a cell or its own.
pub(crate) fn give_entry(
    words: &Words,
    place: &mut Place,
    held: &mut Vec<Held>,
    cells: u32,
    job: &Job,
    cell: Option<u32>,
)
    requires on { On words.now.table_id words.now.key place.old }
    requires cells { cells ≡ length words.now.key.code.value.first }
    requires few { words.now.key.entries ≤ 16777216 }
    requires may { StandsToGive words.now.key.code.value job.now place.old.me.0.known cell }
    requires inside { AreInside words.now.table_id place.old.me.0.known.bears }
    requires settled { Settled held.old.items words.now.key.entries place.old.me.0.known }
    requires room { 1024 ≤ vec_capacity held.old }
    ensures stays { Stays place.old place.new }
    ensures settled { Settled held.new.items words.now.key.entries place.new.me.0.known }
    ensures gave { Gave words.now.key.code.value job.now cell place.old.me.0.known place.new.me.0.known }
    ensures room { 1024 ≤ vec_capacity held.new }
{
    let there = entry_there(job, cell);
    give_there(words, place, held, cells, job, cell, there.0, there.1);
}
