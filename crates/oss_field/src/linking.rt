//! The steps by which an entry of a new task is linked.

ghost use Rattle.std.specs.Prelude.{◌≡◌, ◌<◌, None, Option as Maybe, ℕ, length};
ghost use Rattle.oss_field.specs.Linking.{IsFresh, MayBeginList, MayLinkFirst, began_list, linked_first, told_cell, told_cell_of, told_clear, told_info};
ghost use Rattle.oss_field.specs.Standing.{On, Stays};
ghost use Rattle.oss_words.specs.Bits.{FitsInfo};
ghost use Rattle.oss_words.specs.declared.entry.EntryInfo.{EntryInfo as Info};

use crate::linking_words::write_entry;
use crate::places::{info_place, number_place, state_place};
use crate::words::{Place, Words};
use oss_words::{EntryInfo, word_of_info};
use std::marker::Brand;

/// The state word of an entry which begins a list of main.
const OPEN: u64 = 39;

/// That of an entry which has nothing before it and no other flag.
const CLEAR: u64 = 32;

/// Writes the info word of a new entry of a task.
pub(crate) fn fill_info(
    words: &Words,
    seat: &mut Place,
    cells: u32,
    entry: u32,
    info: u64,
    _task: u32,
)
    requires on { On words.now.table_id words.now.key seat.old }
    requires cells { cells ≡ length words.now.key.code.value.first }
    requires inside { entry < words.now.key.entries }
    requires fresh { IsFresh _task entry None None seat.old.me.0.known }
    ensures stays { Stays seat.old seat.new }
    ensures known { seat.new.me.0.known ≡ told_info cells entry info seat.old.me.0.known }
{
    write_entry::<Brand>(words, seat, info_place(cells, entry), info, cells, entry);
}

/// Writes the number of the cell of a new entry of a task.
pub(crate) fn fill_cell(
    words: &Words,
    seat: &mut Place,
    cells: u32,
    entry: u32,
    cell: u32,
    _task: u32,
)
    requires on { On words.now.table_id words.now.key seat.old }
    requires cells { cells ≡ length words.now.key.code.value.first }
    requires inside { entry < words.now.key.entries }
    requires fresh { (info : Maybe Info) × IsFresh _task entry info None seat.old.me.0.known }
    ensures stays { Stays seat.old seat.new }
    ensures known { seat.new.me.0.known ≡ told_cell cells entry cell seat.old.me.0.known }
{
    write_entry::<Brand>(
        words,
        seat,
        number_place(cells, entry),
        cell as u64,
        cells,
        entry,
    );
}

/// Writes the state word of a new entry, by which it begins a list of main.
pub(crate) fn open_list(words: &Words, seat: &mut Place, cells: u32, entry: u32, _info: &EntryInfo)
    requires on { On words.now.table_id words.now.key seat.old }
    requires cells { cells ≡ length words.now.key.code.value.first }
    requires inside { entry < words.now.key.entries }
    requires may { (cell : Maybe ℕ) × MayBeginList words.now.key.code.value entry _info.now cell seat.old.me.0.known }
    ensures stays { Stays seat.old seat.new }
    ensures known { seat.new.me.0.known ≡ began_list cells entry seat.old.me.0.known }
{
    write_entry::<Brand>(words, seat, state_place(cells, entry), OPEN, cells, entry);
}

/// Writes the state word of a new entry that is to be a first child: nothing is before it.
pub(crate) fn fill_clear(words: &Words, seat: &mut Place, cells: u32, entry: u32, _task: u32)
    requires on { On words.now.table_id words.now.key seat.old }
    requires cells { cells ≡ length words.now.key.code.value.first }
    requires inside { entry < words.now.key.entries }
    requires fresh { (info : Maybe Info) × (cell : Maybe ℕ) × IsFresh _task entry info cell seat.old.me.0.known }
    ensures stays { Stays seat.old seat.new }
    ensures known { seat.new.me.0.known ≡ told_clear cells entry seat.old.me.0.known }
{
    write_entry::<Brand>(words, seat, state_place(cells, entry), CLEAR, cells, entry);
}

/// Writes the number of the cell of a new entry, if it is that of a cell.
pub(crate) fn fill_cell_of(
    words: &Words,
    seat: &mut Place,
    cells: u32,
    entry: u32,
    cell: Option<u32>,
    task: u32,
)
    requires on { On words.now.table_id words.now.key seat.old }
    requires cells { cells ≡ length words.now.key.code.value.first }
    requires inside { entry < words.now.key.entries }
    requires fresh { (info : Maybe Info) × IsFresh task entry info None seat.old.me.0.known }
    ensures stays { Stays seat.old seat.new }
    ensures known { seat.new.me.0.known ≡ told_cell_of cells entry cell seat.old.me.0.known }
{
    match cell {
        Some(cell) => fill_cell(words, seat, cells, entry, cell, task),
        None => {}
    }
}

/// Links an entry of a new task as the first of a list of main: its words are written, and by the last of them it hangs.
pub(crate) fn link_first_of(
    words: &Words,
    seat: &mut Place,
    cells: u32,
    entry: u32,
    info: &EntryInfo,
    cell: Option<u32>,
)
    requires on { On words.now.table_id words.now.key seat.old }
    requires cells { cells ≡ length words.now.key.code.value.first }
    requires inside { entry < words.now.key.entries }
    requires fits { FitsInfo info.now }
    requires may { MayLinkFirst words.now.key.code.value entry info.now cell seat.old.me.0.known }
    ensures stays { Stays seat.old seat.new }
    ensures known { seat.new.me.0.known ≡ linked_first cells entry seat.old.me.0.known }
{
    fill_info(words, seat, cells, entry, word_of_info(info), info.task);
    fill_cell_of(words, seat, cells, entry, cell, info.task);
    open_list(words, seat, cells, entry, info);
}
