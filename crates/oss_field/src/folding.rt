//! A fold: the value that was left in an entry is joined into its cell, and the entry is given up.

ghost use Rattle.std.specs.Prelude.{◌≡◌, ◌<◌, ◌≤◌, ◌*◌, [], ◌∷◌, length, vec_capacity};
ghost use Rattle.oss_syntax.specs.declared.access.Mode.TheVariants.{Fold};
ghost use Rattle.oss_syntax.specs.declared.access.Op.{Op};
ghost use Rattle.oss_words.specs.Bits.{info_at};
ghost use Rattle.oss_words.specs.Members.{Has};
ghost use Rattle.oss_words.specs.Views.{Among};
ghost use Rattle.oss_field.specs.Folding.{FindsJoin, Folded, GivesJoin, HasJoined, IsCombined, JoinsHalf, JoinsWhole, MayCombine, Midway, Notes, ReadsBelow, ReadsChild, ReadsNumber, combined, join_to, read_value};
ghost use Rattle.oss_field.specs.Giving.{GivesRest};
ghost use Rattle.oss_field.specs.Marks.{has_child, has_last, has_none};
ghost use Rattle.oss_field.specs.Messages.{JoinFirst, Settled};
ghost use Rattle.oss_field.specs.Standing.{On, Stays};

use crate::adding::{add_flag, add_link};
use crate::combining::{fold_add, fold_and, fold_or, fold_xor, read_below_word};
use crate::held::Held;
use crate::holding::{hold_sent, read_info};
use crate::places::{cell_place, number_place, state_place, value_place};
use crate::touched::Touched;
use crate::words::{Place, Words, read_word};
use oss_syntax::{Mode, Op};
use oss_words::{Message, info_of, state_of};
use std::marker::Brand;

/// What is added to the state word of an entry that is given up at once.
const GIVEN_DONE: u64 = 24;

/// What is added to that of one with children.
const GIVEN: u64 = 8;

/// The number of the cell of an entry whose join the seat holds.
fn read_number(words: &Words, seat: &mut Place, cells: u32, entry: u32) -> u64
    requires on { On words.now.table_id words.now.key seat.old }
    requires cells { cells ≡ length words.now.key.code.value.first }
    requires inside { entry < words.now.key.entries }
    requires held { Has (join_to entry) seat.old.me.0.known.words.held }
    ensures stays { Stays seat.old seat.new }
    ensures reads { ReadsNumber cells entry result seat.old.me.0.known seat.new.me.0.known }
{
    read_word::<Brand>(words, seat, number_place(cells, entry), cells, entry)
}

/// The value that is left in it.
fn read_left(words: &Words, seat: &mut Place, cells: u32, entry: u32) -> u64
    requires on { On words.now.table_id words.now.key seat.old }
    requires cells { cells ≡ length words.now.key.code.value.first }
    requires inside { entry < words.now.key.entries }
    requires held { Has (join_to entry) seat.old.me.0.known.words.held }
    ensures stays { Stays seat.old seat.new }
    ensures reads { seat.new.me.0.known ≡ read_value cells entry result seat.old.me.0.known }
{
    read_word::<Brand>(words, seat, value_place(cells, entry), cells, entry)
}

/// Its state word, for its first child.
fn read_below(words: &Words, seat: &mut Place, cells: u32, entry: u32) -> u64
    requires on { On words.now.table_id words.now.key seat.old }
    requires cells { cells ≡ length words.now.key.code.value.first }
    requires inside { entry < words.now.key.entries }
    requires held { Has (join_to entry) seat.old.me.0.known.words.held }
    ensures stays { Stays seat.old seat.new }
    ensures reads { ReadsBelow words.now.key.entries cells entry result seat.old.me.0.known seat.new.me.0.known }
{
    read_word::<Brand>(words, seat, state_place(cells, entry), cells, entry)
}

/// The state word of one of its children.
fn read_child(words: &Words, seat: &mut Place, cells: u32, entry: u32, child: u32) -> u64
    requires on { On words.now.table_id words.now.key seat.old }
    requires cells { cells ≡ length words.now.key.code.value.first }
    requires inside { child < words.now.key.entries }
    requires held { Has (join_to entry) seat.old.me.0.known.words.held }
    requires child { Among (record { entry = entry; fact = has_child child }) seat.old.me.0.known.marks }
    ensures stays { Stays seat.old seat.new }
    ensures reads { ReadsChild words.now.key.entries cells entry child result seat.old.me.0.known
        seat.new.me.0.known }
{
    read_below_word::<Brand>(words, seat, state_place(cells, child), cells, entry, child)
}

/// Combines the value that is left in an entry with this info word into the cell: what the cell was.
fn combine_cell(
    words: &Words,
    seat: &mut Place,
    cells: u32,
    op: Op,
    cell: u32,
    value: u64,
    entry: u32,
    _info: u64,
) -> u64
    requires on { On words.now.table_id words.now.key seat.old }
    requires cells { cells ≡ length words.now.key.code.value.first }
    requires may { MayCombine cells seat.old.me.0.known entry _info op cell value }
    ensures stays { Stays seat.old seat.new }
    ensures combined { seat.new.me.0.known ≡ combined entry cell result seat.old.me.0.known }
{
    let word = cell_place(cell);
    match op {
        Op::Add => fold_add::<Brand>(words, seat, word, value, cell, entry),
        Op::And => fold_and::<Brand>(words, seat, word, value, cell, entry),
        Op::Or => fold_or::<Brand>(words, seat, word, value, cell, entry),
        Op::Xor => fold_xor::<Brand>(words, seat, word, value, cell, entry),
    }
}

/// The operator of a reduction.
fn op_of(mode: Mode) -> Op
    requires { (op : Op) × (mode ≡ Fold op) }
    ensures { mode ≡ Fold result }
{
    match mode {
        Mode::Fold(op) => op,
        Mode::Read => unreachable!(),
        Mode::Write => unreachable!(),
    }
}

/// The number of a cell, as it stands in its word.
fn cell_number(word: u64) -> u32
    requires { word < 4294967296 }
    ensures { result ≡ word }
{
    word as u32
}

/// Joins the value of an entry with this info word, whose join the seat holds: reads what the cell and the value are,
/// and combines.
fn join_value(words: &Words, place: &mut Place, cells: u32, entry: u32, info: u64)
    requires on { On words.now.table_id words.now.key place.old }
    requires cells { cells ≡ length words.now.key.code.value.first }
    requires inside { entry < words.now.key.entries }
    requires held { Has (join_to entry) place.old.me.0.known.words.held }
    requires told { Among (record { entry = entry; info = info_at info }) place.old.me.0.known.told }
    requires unjoined { place.old.me.0.known.joined ≡ [] }
    ensures stays { Stays place.old place.new }
    ensures joined { HasJoined entry info place.old.me.0.known place.new.me.0.known }
{
    let number = read_number(words, place, cells, entry);
    let value = read_left(words, place, cells, entry);
    let op = op_of(info_of(info).mode);
    let cell = cell_number(number);
    combine_cell(words, place, cells, op, cell, value, entry, info);
}

/// The last of the children of an entry whose join the seat holds, of which this one is a child.
fn last_below(words: &Words, place: &mut Place, cells: u32, entry: u32, first: u32) -> u32
    requires on { On words.now.table_id words.now.key place.old }
    requires cells { cells ≡ length words.now.key.code.value.first }
    requires inside { first < words.now.key.entries }
    requires held { Has (join_to entry) place.old.me.0.known.words.held }
    requires child { Among (record { entry = entry; fact = has_child first }) place.old.me.0.known.marks }
    ensures stays { Stays place.old place.new }
    ensures notes { Notes place.old.me.0.known place.new.me.0.known }
    ensures last { Among (record { entry = entry; fact = has_last result }) place.new.me.0.known.marks }
    ensures inside { result < words.now.key.entries }
{
    let mut last = first;
    let mut state = state_of(read_child(words, place, cells, entry, last));
    while state.linked {
        last = state.next;
        state = state_of(read_child(words, place, cells, entry, last));
    }
    last
}

/// Gives up an entry with no child, whose value was joined: its state word as it was.
fn join_whole(words: &Words, seat: &mut Place, cells: u32, entry: u32, info: u64) -> u64
    requires on { On words.now.table_id words.now.key seat.old }
    requires cells { cells ≡ length words.now.key.code.value.first }
    requires combined { IsCombined words.now.key.entries seat.old.me.0.known entry info }
    requires none { Among (record { entry = entry; fact = has_none }) seat.old.me.0.known.marks }
    ensures stays { Stays seat.old seat.new }
    ensures joins { JoinsWhole words.now.key.entries cells entry info result seat.old.me.0.known
        seat.new.me.0.known }
{
    let join = Message { entry, flag: 0 };
    add_flag::<Brand>(
        words,
        seat,
        state_place(cells, entry),
        GIVEN_DONE,
        cells,
        join,
        info,
    )
}

/// The first step for one with children, of which this is the last.
fn join_half(words: &Words, seat: &mut Place, cells: u32, entry: u32, info: u64, _last: u32) -> u64
    requires on { On words.now.table_id words.now.key seat.old }
    requires cells { cells ≡ length words.now.key.code.value.first }
    requires combined { IsCombined words.now.key.entries seat.old.me.0.known entry info }
    requires last { Among (record { entry = entry; fact = has_last _last }) seat.old.me.0.known.marks }
    ensures stays { Stays seat.old seat.new }
    ensures joins { JoinsHalf words.now.key.entries cells entry info result seat.old.me.0.known
        seat.new.me.0.known }
{
    let join = Message { entry, flag: 0 };
    add_flag::<Brand>(
        words,
        seat,
        state_place(cells, entry),
        GIVEN,
        cells,
        join,
        info,
    )
}

/// The second: the last child, whose info word is this, leads to the entry. The child's state word as it was.
fn join_rest(words: &Words, seat: &mut Place, cells: u32, entry: u32, last: u32, info: u64) -> u64
    requires on { On words.now.table_id words.now.key seat.old }
    requires cells { cells ≡ length words.now.key.code.value.first }
    requires few { words.now.key.entries ≤ 16777216 }
    requires half { seat.old.me.0.known.words.half ≡ entry ∷ [] }
    requires told { Among (record { entry = last; info = info_at info }) seat.old.me.0.known.told }
    requires unjoined { seat.old.me.0.known.joined ≡ [] }
    requires last { Among (record { entry = entry; fact = has_last last }) seat.old.me.0.known.marks }
    requires inside { last < words.now.key.entries }
    ensures stays { Stays seat.old seat.new }
    ensures gave { GivesRest words.now.key.entries cells entry last info result seat.old.me.0.known
        seat.new.me.0.known }
{
    add_link::<Brand>(
        words,
        seat,
        state_place(cells, last),
        64 + 65_536 * entry as u64,
        cells,
        entry,
        last,
        info,
    )
}

/// Gives up an entry with no child, whose value was joined, and holds what that completes: what was touched.
fn give_joined(
    words: &Words,
    place: &mut Place,
    held: &mut Vec<Held>,
    cells: u32,
    entry: u32,
    info: u64,
) -> Touched
    requires on { On words.now.table_id words.now.key place.old }
    requires cells { cells ≡ length words.now.key.code.value.first }
    requires midway { Midway held.old.items words.now.key.entries entry info (entry ∷ []) place.old.me.0.known }
    requires none { Among (record { entry = entry; fact = has_none }) place.old.me.0.known.marks }
    requires room { 1024 ≤ vec_capacity held.old }
    ensures stays { Stays place.old place.new }
    ensures settled { Settled held.new.items words.now.key.entries place.new.me.0.known }
    ensures gives { GivesJoin entry info place.old.me.0.known place.new.me.0.known }
    ensures last { result ≡ place.new.me.0.known.last }
    ensures room { 1024 ≤ vec_capacity held.new }
    ensures work { place.new.me.0.known.words.delivered ≤ 6 * words.now.key.entries }
{
    let found = join_whole(words, place, cells, entry, info);
    let state = found + GIVEN_DONE;
    hold_sent(words, place, held, cells, entry, info, found, state);
    Touched { entry, state, info }
}

/// Gives up an entry whose last child is this one, and whose value was joined.
fn give_joined_above(
    words: &Words,
    place: &mut Place,
    held: &mut Vec<Held>,
    cells: u32,
    entry: u32,
    info: u64,
    last: u32,
) -> Touched
    requires on { On words.now.table_id words.now.key place.old }
    requires cells { cells ≡ length words.now.key.code.value.first }
    requires few { words.now.key.entries ≤ 16777216 }
    requires midway { Midway held.old.items words.now.key.entries entry info (entry ∷ []) place.old.me.0.known }
    requires last { Among (record { entry = entry; fact = has_last last }) place.old.me.0.known.marks }
    requires inside { last < words.now.key.entries }
    requires room { 1024 ≤ vec_capacity held.old }
    ensures stays { Stays place.old place.new }
    ensures settled { Settled held.new.items words.now.key.entries place.new.me.0.known }
    ensures gives { GivesJoin entry info place.old.me.0.known place.new.me.0.known }
    ensures last { result ≡ place.new.me.0.known.last }
    ensures room { 1024 ≤ vec_capacity held.new }
    ensures work { place.new.me.0.known.words.delivered ≤ 6 * words.now.key.entries }
{
    let child = read_info(words, place, cells, last);
    let was = join_half(words, place, cells, entry, info, last);
    let found = join_rest(words, place, cells, entry, last, child);
    let now = found + (64 + 65_536 * entry as u64);
    hold_sent(words, place, held, cells, last, child, found, now);
    Touched {
        entry,
        state: was + GIVEN,
        info,
    }
}

/// Gives up an entry whose value was joined.
fn give_folded(
    words: &Words,
    place: &mut Place,
    held: &mut Vec<Held>,
    cells: u32,
    entry: u32,
    info: u64,
) -> Touched
    requires on { On words.now.table_id words.now.key place.old }
    requires cells { cells ≡ length words.now.key.code.value.first }
    requires few { words.now.key.entries ≤ 16777216 }
    requires midway { Midway held.old.items words.now.key.entries entry info (entry ∷ []) place.old.me.0.known }
    requires room { 1024 ≤ vec_capacity held.old }
    ensures stays { Stays place.old place.new }
    ensures settled { Settled held.new.items words.now.key.entries place.new.me.0.known }
    ensures gives { GivesJoin entry info place.old.me.0.known place.new.me.0.known }
    ensures last { result ≡ place.new.me.0.known.last }
    ensures room { 1024 ≤ vec_capacity held.new }
    ensures work { place.new.me.0.known.words.delivered ≤ 6 * words.now.key.entries }
{
    let state = state_of(read_below(words, place, cells, entry));
    if state.headed {
        let last = last_below(words, place, cells, entry, state.child);
        give_joined_above(words, place, held, cells, entry, info, last)
    } else {
        give_joined(words, place, held, cells, entry, info)
    }
}

/// The place of the join of this entry, if there is one.
fn join_place(held: &[Held], entry: u32) -> usize
    ensures found { FindsJoin held.now entry (length held.now) result }
{
    let mut place = 0;
    for at in 0..held.len() {
        let one = held[at];
        if one.entry == entry && one.flag == 0 {
            place = at;
        }
    }
    place
}

/// Joins the value of the entry whose join comes first: what was touched.
pub(crate) fn fold_first(
    words: &Words,
    place: &mut Place,
    held: &mut Vec<Held>,
    cells: u32,
    entry: u32,
) -> Touched
    requires on { On words.now.table_id words.now.key place.old }
    requires cells { cells ≡ length words.now.key.code.value.first }
    requires few { words.now.key.entries ≤ 16777216 }
    requires settled { Settled held.old.items words.now.key.entries place.old.me.0.known }
    requires first { JoinFirst place.old.me.0.known entry }
    requires room { 1024 ≤ vec_capacity held.old }
    ensures stays { Stays place.old place.new }
    ensures settled { Settled held.new.items words.now.key.entries place.new.me.0.known }
    ensures folded { Folded entry place.old.me.0.known place.new.me.0.known }
    ensures last { result ≡ place.new.me.0.known.last }
    ensures room { 1024 ≤ vec_capacity held.new }
    ensures work { place.new.me.0.known.words.delivered ≤ 6 * words.now.key.entries }
{
    let first = held.swap_remove(join_place(held.as_slice(), entry));
    join_value(words, place, cells, entry, first.info);
    give_folded(words, place, held, cells, entry, first.info)
}
