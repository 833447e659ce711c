//! A net of access words, which many threads share.

ghost use Rattle.std.specs.Prelude.{◌≡◌, ◌≢◌, ◌<◌, ◌≤◌, ◌+◌, ◌*◌, ℕ, [], length, IfOk, IfErr, IfSome, IfNone, MatchBool, slice_index};
ghost use Rattle.oss_words.specs.declared.entry.After.{After};
ghost use Rattle.oss_words.specs.declared.entry.EntryInfo.{EntryInfo};
ghost use Rattle.oss_words.specs.Bits.{state_at};
ghost use Rattle.oss_words.specs.Net.{Place};
ghost use Rattle.oss_words.specs.Views.{Among};
ghost use Rattle.oss_word_net.specs.Ended.{Ended};
ghost use Rattle.oss_word_net.specs.Calls.{MayHang, Hung, MayRelease, Released, Delivered};
ghost use Rattle.oss_word_net.specs.Known.{Known, OneInfo, Family, Rests, first_known};
ghost use Rattle.oss_word_net.specs.Moves.{drew, missed, looked, keeping, handed, joined};
ghost use Rattle.oss_word_net.specs.Standing.{Netted, Standing};

use crate::closing::{close_table, end_table};
use crate::delivering::deliver_first;
use crate::giving::give_up;
use crate::held::{ROOM, has_some};
use crate::holding::hold;
use crate::linking::hang;
use crate::rule::NetRule;
use crate::seat::WordSeat;
use crate::seats::{cut, merge, open_table};
use crate::sight::Sight;
use crate::steps::{add_draw, read_state};
use atomic_table::Table;
use oss_words::{After, EntryInfo};
use std::alloc::{AllocError, Global};
use std::marker::Model;

/// One state word and one info word for each entry, of a task's access to a cell. Any number of threads change
/// them, each with a seat of its own, by single atomic steps: none waits for another, and none takes memory.
#[derive(Drop)]
pub struct WordNet {
    /// The words: first the number of the next entry to draw, then two words for each entry.
    table: Table<u8, Sight, u32, NetRule, Global>,
    /// How many entries there are, main's among them.
    entries: u32,
    /// What seats take their room from.
    alloc: Global,
}

impl Model for WordNet {
    ghost Value = { Netted };

    ghost view = { λ w. record { table = w.table.shared.table_id; entries = w.entries } };

    ghost invariant = { λ w. (w.table.shared.key ≡ w.entries) ×
        (w.table.shared.table_id.words ≡ 1 + 2 * w.entries) × (w.table.shared.table_id.slots ≡ 0) ×
        (0 < w.entries) × (w.entries ≤ 16777216) };
}

/// A row of words, of which the first is 1 and each other is 0.
fn first_words(alloc: Global, count: usize) -> Result<Vec<u64>, AllocError>
    requires { 0 < count }
    ensures { IfOk result (λ v. (length v.items ≡ count) × (slice_index v.items 0 ≡ 1) ×
        ((k : ℕ) → 0 < k → slice_index v.items k ≡ 0)) }
{
    let mut words = Vec::from_elem(alloc, 0, count)?;
    words[0] = 1;
    Ok(words)
}

impl WordNet {
    /// A net of so many entries, from 1 to 16,777,216, and the seat with which it is made, which owns entry 0:
    /// that stands for main. It is an error where memory is wanted.
    pub fn new(alloc: Global, entries: u32) -> Result<(WordNet, WordSeat), AllocError>
        requires { (0 < entries) × (entries ≤ 16777216) }
        ensures net { IfOk result (λ r. r.0.entries ≡ entries) }
        ensures seat { IfOk result (λ r. (r.1.net ≡ r.0.table) × (r.1.id ≡ 0) × (r.1.known ≡ first_known entries)) }
    {
        let held = Vec::with_capacity(alloc, ROOM)?;
        let words = first_words(alloc, 1 + 2 * entries as usize)?;
        let (table, place) = open_table(alloc, words.as_slice(), entries)?;
        Ok((
            WordNet {
                table,
                entries,
                alloc,
            },
            WordSeat { place, held },
        ))
    }

    /// Whether the seat holds a message.
    pub fn holding(&self, seat: &WordSeat) -> bool
        ensures { MatchBool result (seat.now.known.view.held ≢ []) (seat.now.known.view.held ≡ []) }
    {
        has_some(&seat.held)
    }

    /// So many new entries, from 1 to 16,777,216: the first of them; they follow each other, and are above
    /// every entry that the seat owned or had linked. `None` where fewer were left at its step, and then none
    /// are left.
    pub fn draw(&self, seat: &mut WordSeat, count: u32) -> Option<u32>
        requires net { seat.old.net ≡ self.now.table }
        requires first { seat.old.known.view.failed ≡ 0 }
        requires most { (0 < count) × (count ≤ 16777216) }
        ensures same { (seat.new.net ≡ seat.old.net) × (seat.new.id ≡ seat.old.id) }
        ensures some { IfSome result (λ n. (n + count ≤ self.now.entries) ×
            (seat.new.known ≡ drew count n seat.old.known)) }
        ensures fresh { IfSome result (λ n. (e : ℕ) → Among e seat.old.known.view.owned → e < n) }
        ensures above { IfSome result (λ n. (0 < n) ×
            ((e : ℕ) (p : Place) → Among (record { entry = e; place = p }) seat.old.known.view.links → e < n)) }
        ensures none { IfNone result ((n : ℕ) × (self.now.entries < n + count) ×
            (seat.new.known ≡ missed n seat.old.known)) }
    {
        let found = add_draw(&self.table.shared, &mut seat.place, count);
        if found + count as u64 <= self.entries as u64 {
            Some(found as u32)
        } else {
            None
        }
    }

    /// Links an entry. It takes no memory and waits for nobody.
    pub fn link(&self, seat: &mut WordSeat, entry: u32, info: EntryInfo, after: After)
        requires net { seat.old.net ≡ self.now.table }
        requires may { MayHang seat.old.known entry info after }
        ensures same { (seat.new.net ≡ seat.old.net) × (seat.new.id ≡ seat.old.id) }
        ensures hung { Hung seat.old.known seat.new.known entry info after }
    {
        hang(
            &self.table.shared,
            &mut seat.place,
            &mut seat.held,
            entry,
            &info,
            after,
        );
    }

    /// Gives up an entry. It takes no memory and waits for nobody.
    pub fn give(&self, seat: &mut WordSeat, entry: u32)
        requires net { seat.old.net ≡ self.now.table }
        requires may { MayRelease seat.old.known entry }
        ensures same { (seat.new.net ≡ seat.old.net) × (seat.new.id ≡ seat.old.id) }
        ensures released { Released seat.old.known seat.new.known entry }
    {
        let words = &self.table.shared;
        let sent = give_up(words, &mut seat.place, entry);
        hold(words, &mut seat.place, &mut seat.held, &sent);
    }

    /// Delivers the held message that comes first. It takes no memory and waits for nobody. A seat delivers at
    /// most six messages for each entry of the net. What it was told of an entry is one info, so it is the info
    /// of the message's entry by which more is sent.
    pub fn deliver(&self, seat: &mut WordSeat)
        requires net { seat.old.net ≡ self.now.table }
        requires some { seat.old.known.view.held ≢ [] }
        ensures same { (seat.new.net ≡ seat.old.net) × (seat.new.id ≡ seat.old.id) }
        ensures delivered { Delivered seat.old.known seat.new.known }
        ensures bounded { seat.new.known.view.delivered ≤ 6 * self.now.entries }
        ensures one { OneInfo seat.old.known }
    {
        let words = &self.table.shared;
        let sent = deliver_first(words, &mut seat.place, &mut seat.held);
        hold(words, &mut seat.place, &mut seat.held, &sent);
    }

    /// The state word of an entry, as it was read in one step. It tells the seat of the links that it has made,
    /// and that what it was told of an entry is one info; and where the seat holds nothing and all parts of the
    /// net, so that each other seat was joined to it, each flag stands exactly where its condition holds.
    pub fn flags(&self, seat: &mut WordSeat, entry: u32) -> u64
        requires net { seat.old.net ≡ self.now.table }
        requires inside { entry < self.now.entries }
        ensures same { (seat.new.net ≡ seat.old.net) × (seat.new.id ≡ seat.old.id) }
        ensures known { seat.new.known ≡ looked entry result seat.old.known }
        ensures family { Family seat.old.known entry (state_at result) }
        ensures rests { seat.old.known.view.parts ≡ 65537 → seat.old.known.view.held ≡ [] →
            Rests seat.old.known entry (state_at result) }
        ensures one { OneInfo seat.old.known }
    {
        read_state(&self.table.shared, &mut seat.place, entry)
    }

    /// A new seat, which owns the entries of `hand` from now on, and the old one no longer. It knows the links
    /// and the gives of the old one, and holds nothing. The old seat is the one with which the net was made,
    /// owns these entries, and was split fewer than 65,536 times. It is an error where memory is wanted: the
    /// old seat is as it was then.
    pub fn split(&self, seat: &mut WordSeat, hand: &[u32]) -> Result<WordSeat, AllocError>
        requires net { seat.old.net ≡ self.now.table }
        requires first { (seat.old.id ≡ 0) × (1 < seat.old.known.view.parts) }
        requires few { seat.old.known.view.splits < 65536 }
        requires own { (e : ℕ) → Among e hand.now → Among e seat.old.known.view.owned }
        ensures same { (seat.new.net ≡ seat.old.net) × (seat.new.id ≡ seat.old.id) }
        ensures kept { IfErr result (λ _. seat.new ≡ seat.old) }
        ensures known { IfOk result (λ s. seat.new.known ≡ keeping hand.now seat.old.known) }
        ensures other { IfOk result (λ s. (s.net ≡ seat.old.net) × (s.known ≡ handed hand.now seat.old.known)) }
    {
        let held = Vec::with_capacity(self.alloc, ROOM)?;
        let place = cut(&self.table.shared, &mut seat.place, hand, &seat.held);
        Ok(WordSeat { place, held })
    }

    /// The seat owns what the other owned, and knows what it knew. The other holds nothing, and is not the seat
    /// with which the net was made: it was never split.
    pub fn join(&self, seat: &mut WordSeat, other: WordSeat)
        requires net { (seat.old.net ≡ self.now.table) × (other.net ≡ self.now.table) }
        requires later { other.known.view.splits ≡ 0 }
        requires empty { other.known.view.held ≡ [] }
        ensures same { (seat.new.net ≡ seat.old.net) × (seat.new.id ≡ seat.old.id) }
        ensures known { seat.new.known ≡ joined seat.old.known other.known }
    {
        let WordSeat { place, held } = other;
        drop(held);
        merge(&self.table.shared, &mut seat.place, place, &seat.held);
    }

    /// The end of the net: the state words, in order of the entries. The seat has all parts of the net, so that
    /// each other seat was joined to it, and holds nothing. It is an error where memory is wanted.
    pub fn close(self, seat: WordSeat) -> Result<Vec<u64>, AllocError>
        requires net { seat.net ≡ self.table }
        requires all { seat.known.view.parts ≡ 65537 }
        requires empty { seat.known.view.held ≡ [] }
        ensures size { IfOk result (λ v. length v.items ≡ self.entries) }
        ensures rests { IfOk result (λ v. (e : ℕ) → e < self.entries →
            Rests seat.known e (state_at (slice_index v.items e))) }
    {
        let mut states = Vec::with_capacity(self.alloc, self.entries as usize)?;
        let WordNet { table, entries, .. } = self;
        let WordSeat { place, held } = seat;
        drop(held);
        close_table(table, place, &mut states, entries);
        Ok(states)
    }

    /// The end of a net whose one seat was never split, and holds nothing: all words, the draw word first, and of each
    /// entry its state word and then its info word. It is an error where memory is wanted.
    pub fn end(self, seat: WordSeat) -> Result<Vec<u64>, AllocError>
        requires net { seat.net ≡ self.table }
        requires alone { (seat.id ≡ 0) × (seat.known.view.splits ≡ 0) }
        requires empty { seat.known.view.held ≡ [] }
        ensures { IfOk result (λ v. Ended self.entries v.items seat.known) }
    {
        let mut words = Vec::with_capacity(self.alloc, 1 + 2 * self.entries as usize)?;
        let WordNet { table, entries, .. } = self;
        let WordSeat { place, held } = seat;
        drop(held);
        end_table(table, place, &mut words, entries);
        Ok(words)
    }
}
