//! The link of an entry of a new task: its words are written first, so who follows the link finds them.

ghost use Rattle.std.specs.Prelude.{◌≡◌, ◌<◌, ◌≤◌, length, vec_capacity};
ghost use Rattle.oss_words.specs.declared.entry.After.TheVariants.{FirstOf, FirstOfMain, Sibling};
ghost use Rattle.oss_words.specs.Bits.{FitsInfo, info_at};
ghost use Rattle.oss_field.specs.Asks.{AreInside};
ghost use Rattle.oss_field.specs.Hanging.{Linked, LinksAt, MayFollow, MayHead, StandsToLink};
ghost use Rattle.oss_field.specs.Masks.{child_mask, next_mask};
ghost use Rattle.oss_field.specs.Messages.{Settled};
ghost use Rattle.oss_field.specs.Standing.{On, Stays};

use crate::adding::add_link;
use crate::held::Held;
use crate::holding::{hold_sent, read_info};
use crate::linking::{fill_cell_of, fill_clear, fill_info, link_first_of};
use crate::masks::{mask_of_child, mask_of_next};
use crate::places::state_place;
use crate::words::{Place, Words};
use oss_jobs::Job;
use oss_words::{After, EntryInfo, info_of, word_of_info};
use std::marker::Brand;

/// Sets a new entry behind another, whose info word is this: the state word of that one as it was.
fn set_next(
    words: &Words,
    seat: &mut Place,
    cells: u32,
    entry: u32,
    _info: &EntryInfo,
    _cell: Option<u32>,
    last: u32,
    word: u64,
    by: u64,
) -> u64
    requires on { On words.now.table_id words.now.key seat.old }
    requires cells { cells ≡ length words.now.key.code.value.first }
    requires few { words.now.key.entries ≤ 16777216 }
    requires inside { last < words.now.key.entries }
    requires may { MayFollow words.now.key.code.value entry last word _info.now _cell seat.old.me.0.known }
    requires mask { by ≡ next_mask entry (info_at word).mode _info.now.mode }
    ensures stays { Stays seat.old seat.new }
    ensures linked { LinksAt words.now.key.entries cells entry last word by result seat.old.me.0.known
        seat.new.me.0.known }
{
    add_link::<Brand>(
        words,
        seat,
        state_place(cells, last),
        by,
        cells,
        entry,
        last,
        word,
    )
}

/// Makes a new entry the first child of its parent, whose info word is this: the state word of that one as it was.
fn set_child(
    words: &Words,
    seat: &mut Place,
    cells: u32,
    entry: u32,
    info: &EntryInfo,
    _cell: Option<u32>,
    word: u64,
    by: u64,
) -> u64
    requires on { On words.now.table_id words.now.key seat.old }
    requires cells { cells ≡ length words.now.key.code.value.first }
    requires few { words.now.key.entries ≤ 16777216 }
    requires inside { info.now.parent < words.now.key.entries }
    requires may { MayHead words.now.key.code.value entry word info.now _cell seat.old.me.0.known }
    requires mask { by ≡ child_mask entry (info_at word).mode info.now.mode }
    ensures stays { Stays seat.old seat.new }
    ensures linked { LinksAt words.now.key.entries cells entry info.now.parent word by result seat.old.me.0.known
        seat.new.me.0.known }
{
    add_link::<Brand>(
        words,
        seat,
        state_place(cells, info.parent),
        by,
        cells,
        entry,
        info.parent,
        word,
    )
}

/// Links an entry that begins a list of main. Nothing is completed by it.
fn link_top(
    words: &Words,
    place: &mut Place,
    held: &mut Vec<Held>,
    cells: u32,
    _job: &Job,
    entry: u32,
    info: &EntryInfo,
    cell: Option<u32>,
)
    requires on { On words.now.table_id words.now.key place.old }
    requires cells { cells ≡ length words.now.key.code.value.first }
    requires inside { entry < words.now.key.entries }
    requires fits { FitsInfo info.now }
    requires may { StandsToLink words.now.key.code.value _job.now entry info.now cell FirstOfMain
        place.old.me.0.known }
    requires settled { Settled held.old.items words.now.key.entries place.old.me.0.known }
    requires room { 1024 ≤ vec_capacity held.old }
    ensures stays { Stays place.old place.new }
    ensures settled { Settled held.new.items words.now.key.entries place.new.me.0.known }
    ensures linked { Linked entry info.now FirstOfMain place.old.me.0.known place.new.me.0.known }
    ensures room { 1024 ≤ vec_capacity held.new }
{
    link_first_of(words, place, cells, entry, info, cell);
}

/// Links an entry as the first child of its parent, and holds what that completes.
fn link_below(
    words: &Words,
    place: &mut Place,
    held: &mut Vec<Held>,
    cells: u32,
    _job: &Job,
    entry: u32,
    info: &EntryInfo,
    cell: Option<u32>,
)
    requires on { On words.now.table_id words.now.key place.old }
    requires cells { cells ≡ length words.now.key.code.value.first }
    requires few { words.now.key.entries ≤ 16777216 }
    requires inside { entry < words.now.key.entries }
    requires fits { FitsInfo info.now }
    requires may { StandsToLink words.now.key.code.value _job.now entry info.now cell (FirstOf info.now.parent)
        place.old.me.0.known }
    requires held { AreInside words.now.table_id place.old.me.0.known.bears }
    requires settled { Settled held.old.items words.now.key.entries place.old.me.0.known }
    requires room { 1024 ≤ vec_capacity held.old }
    ensures stays { Stays place.old place.new }
    ensures settled { Settled held.new.items words.now.key.entries place.new.me.0.known }
    ensures linked { Linked entry info.now (FirstOf info.now.parent) place.old.me.0.known place.new.me.0.known }
    ensures room { 1024 ≤ vec_capacity held.new }
{
    let word = read_info(words, place, cells, info.parent);
    fill_info(words, place, cells, entry, word_of_info(info), info.task);
    fill_cell_of(words, place, cells, entry, cell, info.task);
    fill_clear(words, place, cells, entry, info.task);
    let by = mask_of_child(entry, info_of(word).mode, info.mode);
    let found = set_child(words, place, cells, entry, info, cell, word, by);
    hold_sent(
        words,
        place,
        held,
        cells,
        info.parent,
        word,
        found,
        found + by,
    );
}

/// Links an entry behind its creator's last child there, and holds what that completes.
fn link_behind(
    words: &Words,
    place: &mut Place,
    held: &mut Vec<Held>,
    cells: u32,
    _job: &Job,
    entry: u32,
    info: &EntryInfo,
    cell: Option<u32>,
    last: u32,
)
    requires on { On words.now.table_id words.now.key place.old }
    requires cells { cells ≡ length words.now.key.code.value.first }
    requires few { words.now.key.entries ≤ 16777216 }
    requires inside { entry < words.now.key.entries }
    requires fits { FitsInfo info.now }
    requires may { StandsToLink words.now.key.code.value _job.now entry info.now cell (Sibling last)
        place.old.me.0.known }
    requires held { AreInside words.now.table_id place.old.me.0.known.bears }
    requires settled { Settled held.old.items words.now.key.entries place.old.me.0.known }
    requires room { 1024 ≤ vec_capacity held.old }
    ensures stays { Stays place.old place.new }
    ensures settled { Settled held.new.items words.now.key.entries place.new.me.0.known }
    ensures linked { Linked entry info.now (Sibling last) place.old.me.0.known place.new.me.0.known }
    ensures room { 1024 ≤ vec_capacity held.new }
{
    let word = read_info(words, place, cells, last);
    fill_info(words, place, cells, entry, word_of_info(info), info.task);
    fill_cell_of(words, place, cells, entry, cell, info.task);
    let by = mask_of_next(entry, info_of(word).mode, info.mode);
    let found = set_next(words, place, cells, entry, info, cell, last, word, by);
    hold_sent(words, place, held, cells, last, word, found, found + by);
}

/// Links an entry of a task that the job creates, and holds what that completes.
pub(crate) fn link_entry(
    words: &Words,
    place: &mut Place,
    held: &mut Vec<Held>,
    cells: u32,
    job: &Job,
    entry: u32,
    info: &EntryInfo,
    cell: Option<u32>,
    after: After,
)
    requires on { On words.now.table_id words.now.key place.old }
    requires cells { cells ≡ length words.now.key.code.value.first }
    requires few { words.now.key.entries ≤ 16777216 }
    requires inside { entry < words.now.key.entries }
    requires fits { FitsInfo info.now }
    requires may { StandsToLink words.now.key.code.value job.now entry info.now cell after place.old.me.0.known }
    requires held { AreInside words.now.table_id place.old.me.0.known.bears }
    requires settled { Settled held.old.items words.now.key.entries place.old.me.0.known }
    requires room { 1024 ≤ vec_capacity held.old }
    ensures stays { Stays place.old place.new }
    ensures settled { Settled held.new.items words.now.key.entries place.new.me.0.known }
    ensures linked { Linked entry info.now after place.old.me.0.known place.new.me.0.known }
    ensures room { 1024 ≤ vec_capacity held.new }
{
    match after {
        After::FirstOfMain => link_top(words, place, held, cells, job, entry, info, cell),
        After::FirstOf(_) => link_below(words, place, held, cells, job, entry, info, cell),
        After::Sibling(last) => {
            link_behind(words, place, held, cells, job, entry, info, cell, last);
        }
    }
}
