//! One function for each kind of atomic step on the words of a net. All calls are made of these, so each kind
//! is proved once.

ghost use Rattle.std.specs.Prelude.{◌≡◌, ◌≢◌, ◌<◌, ◌≤◌, ◌+◌, ◌*◌, ℕ, true, [], ◌∷◌};
ghost use Rattle.oss_word_net.specs.Asks.{On, Stays, Hangs, MayFill, MayStart, MayLink, MayFollow, MayHead, MayGive, Later};
ghost use Rattle.oss_word_net.specs.Known.{Kin, OneInfo, Family, Rests};
ghost use Rattle.oss_word_net.specs.Moves.{informed, looked, drew, missed, filled_info, filled_state, began, linked_at, gave_up, half_gave, rose, passed, without, clear_alone, next_mask, child_mask};
ghost use Rattle.oss_word_net.specs.Plays.{Bounded, Sums, Informs, Looks, Draws, FillsInfo, FillsState, Opens, Follows, Heads, Gives, Begins, Rises, Passes};
ghost use Rattle.oss_words.specs.Bits.{state_at, info_at, weight};
ghost use Rattle.oss_words.specs.declared.entry.EntryInfo.{EntryInfo};
ghost use Rattle.oss_words.specs.declared.message.Message.{Message};
ghost use Rattle.oss_words.specs.Members.{Has};
ghost use Rattle.oss_words.specs.Net.{Place as Spot, first, after};
ghost use Rattle.oss_words.specs.Steps.{no_flags};
ghost use Rattle.oss_words.specs.Views.{Among};

use crate::masks::{
    CLEAR, DONE, GIVEN, LINKED, NEXT, OPEN, mask_of_child, mask_of_next, weight_of,
};
use crate::rule::NetRule;
use crate::sight::Sight;
use atomic_table::{Play, Seat, Shared};
use oss_words::{EntryInfo, Message};

/// The words of a net, as threads share them.
pub(crate) type Words = Shared<u8, Sight, u32, NetRule>;

/// What a seat of the table is.
pub(crate) type Place = Seat<u8, Sight>;

/// The number of the state word of an entry.
fn state_place(entry: u32) -> usize
    ensures { result ≡ 1 + 2 * entry }
{
    1 + 2 * entry as usize
}

/// The number of its info word.
fn info_place(entry: u32) -> usize
    ensures { result ≡ 2 + 2 * entry }
{
    2 + 2 * entry as usize
}

/// A read of an info word. This type and its like below name a kind of step, by which the proof knows what a
/// seat knows after it.
struct Inform;

impl Play<u8, Sight> for Inform {
    ghost then = { Informs };
}

/// Reads the info word of a linked entry.
pub(crate) fn read_info(words: &Words, seat: &mut Place, entry: u32) -> u64
    requires on { On words.now.table_id words.now.key seat.old }
    requires inside { entry < words.now.key }
    requires hangs { Hangs seat.old.me.0.known entry }
    ensures stays { Stays seat.old seat.new }
    ensures known { seat.new.me.0.known ≡ informed entry result seat.old.me.0.known }
    ensures again { (j : EntryInfo) → Among (record { entry = entry; info = j }) seat.old.me.0.known.told →
        info_at result ≡ j }
{
    words.load::<Inform>(seat, info_place(entry))
}

/// A read of a state word.
struct Look;

impl Play<u8, Sight> for Look {
    ghost then = { Looks };
}

/// Reads the state word of an entry.
pub(crate) fn read_state(words: &Words, seat: &mut Place, entry: u32) -> u64
    requires on { On words.now.table_id words.now.key seat.old }
    requires inside { entry < words.now.key }
    requires live { (seat.old.me.0.known.view.parts ≢ 0) × (seat.old.me.0.known.entries ≡ words.now.key) }
    ensures stays { Stays seat.old seat.new }
    ensures known { seat.new.me.0.known ≡ looked entry result seat.old.me.0.known }
    ensures links { ((state_at result).linked ≡ true → (state_at result).next < words.now.key) ×
        ((state_at result).headed ≡ true → (state_at result).child < words.now.key) }
    ensures family { Family seat.old.me.0.known entry (state_at result) }
    ensures rests { seat.old.me.0.known.view.parts ≡ 65537 → seat.old.me.0.known.view.held ≡ [] →
        seat.old.me.0.known.view.half ≡ [] → Rests seat.old.me.0.known entry (state_at result) }
    ensures one { OneInfo seat.old.me.0.known }
{
    words.load::<Look>(seat, state_place(entry))
}

/// New entries are drawn, by an addition to the first word of the table.
struct Draw;

impl Play<u8, Sight> for Draw {
    ghost then = { Draws };
}

/// Draws entries: the word as it was.
pub(crate) fn add_draw(words: &Words, seat: &mut Place, count: u32) -> u64
    requires on { On words.now.table_id words.now.key seat.old }
    requires live { (seat.old.me.0.known.view.parts ≢ 0) × (seat.old.me.0.known.entries ≡ words.now.key) }
    requires first { seat.old.me.0.known.view.failed ≡ 0 }
    requires most { count ≤ 16777216 }
    ensures stays { Stays seat.old seat.new }
    ensures small { result < 2199023255552 }
    ensures fresh { (e : ℕ) → Among e seat.old.me.0.known.view.owned → e < result }
    ensures above { (0 < result) × ((e : ℕ) (p : Spot) →
        Among (record { entry = e; place = p }) seat.old.me.0.known.view.links → e < result) }
    ensures enough { result + count ≤ words.now.key → seat.new.me.0.known ≡ drew count result seat.old.me.0.known }
    ensures short { words.now.key < result + count → seat.new.me.0.known ≡ missed result seat.old.me.0.known }
{
    words.fetch_add::<Draw>(seat, 0, count as u64)
}

/// An info word is written, before its entry is linked.
struct FillInfo;

impl Play<u8, Sight> for FillInfo {
    ghost then = { FillsInfo };
}

/// Writes the info word of a new entry.
pub(crate) fn fill_info(words: &Words, seat: &mut Place, entry: u32, info: u64)
    requires on { On words.now.table_id words.now.key seat.old }
    requires may { MayFill seat.old.me.0.known entry }
    requires inside { entry < words.now.key }
    ensures stays { Stays seat.old seat.new }
    ensures known { seat.new.me.0.known ≡ filled_info entry info seat.old.me.0.known }
{
    words.store::<FillInfo>(seat, info_place(entry), info);
}

/// The state word of a first child is written, before the child is linked.
struct FillState;

impl Play<u8, Sight> for FillState {
    ghost then = { FillsState };
}

/// Writes the state word of a new entry that begins the list of a parent's children.
pub(crate) fn fill_state(words: &Words, seat: &mut Place, entry: u32, _info: &EntryInfo)
    requires on { On words.now.table_id words.now.key seat.old }
    requires may { MayStart seat.old.me.0.known entry _info.now }
    requires inside { entry < words.now.key }
    ensures stays { Stays seat.old seat.new }
    ensures known { seat.new.me.0.known ≡ filled_state entry 32 _info.now seat.old.me.0.known }
{
    words.store::<FillState>(seat, state_place(entry), CLEAR);
}

/// An entry begins a list of main. No word of another entry changes.
struct Open;

impl Play<u8, Sight> for Open {
    ghost then = { Opens };
}

/// Writes the state word of a new entry, by which it begins a list of main.
pub(crate) fn open_list(words: &Words, seat: &mut Place, entry: u32, _info: &EntryInfo)
    requires on { On words.now.table_id words.now.key seat.old }
    requires may { MayStart seat.old.me.0.known entry _info.now }
    requires main { (_info.now.parent ≡ 0) × (_info.now.depth ≡ 1) × (0 < entry) }
    requires own { Among 0 seat.old.me.0.known.view.owned × (Among 0 seat.old.me.0.known.view.gives → ⊥) }
    requires inside { entry < words.now.key }
    ensures stays { Stays seat.old seat.new }
    ensures known { seat.new.me.0.known ≡ began entry 39 _info.now seat.old.me.0.known }
{
    words.store::<Open>(seat, state_place(entry), OPEN);
}

/// An entry is linked behind a sibling.
struct Follow;

impl Play<u8, Sight> for Follow {
    ghost then = { Follows };
}

/// Links a new entry behind a sibling: the state word of the sibling as it was.
pub(crate) fn link_behind(
    words: &Words,
    seat: &mut Place,
    entry: u32,
    info: &EntryInfo,
    sibling: u32,
    before: &EntryInfo,
) -> u64
    requires on { On words.now.table_id words.now.key seat.old }
    requires may { MayLink words.now.key seat.old.me.0.known entry no_flags info.now }
    requires how { MayFollow seat.old.me.0.known entry info.now sibling before.now }
    requires inside { (entry < words.now.key) × (words.now.key ≤ 16777216) }
    ensures stays { Stays seat.old seat.new }
    ensures known { seat.new.me.0.known ≡ linked_at entry info.now (after sibling) sibling before.now
        (next_mask entry before.now.mode info.now.mode) result seat.old.me.0.known }
    ensures bounded { Bounded seat.new.me.0.known }
    ensures sums { Sums result (next_mask entry before.now.mode info.now.mode) }
{
    words.fetch_add::<Follow>(
        seat,
        state_place(sibling),
        mask_of_next(entry, before.mode, info.mode),
    )
}

/// An entry is linked as the first child of its parent.
struct Head;

impl Play<u8, Sight> for Head {
    ghost then = { Heads };
}

/// Links a new entry as the first child of its parent: the state word of the parent as it was.
pub(crate) fn link_below(
    words: &Words,
    seat: &mut Place,
    entry: u32,
    info: &EntryInfo,
    above: &EntryInfo,
) -> u64
    requires on { On words.now.table_id words.now.key seat.old }
    requires may { MayLink words.now.key seat.old.me.0.known entry clear_alone info.now }
    requires how { MayHead seat.old.me.0.known info.now above.now }
    requires inside { (entry < words.now.key) × (words.now.key ≤ 16777216) }
    ensures stays { Stays seat.old seat.new }
    ensures known { seat.new.me.0.known ≡ linked_at entry info.now (first info.now.parent) info.now.parent
        above.now (child_mask entry above.now.mode info.now.mode) result seat.old.me.0.known }
    ensures bounded { Bounded seat.new.me.0.known }
    ensures sums { Sums result (child_mask entry above.now.mode info.now.mode) }
{
    words.fetch_add::<Head>(
        seat,
        state_place(info.parent),
        mask_of_child(entry, above.mode, info.mode),
    )
}

/// An entry with no child is given up, and is done with that.
struct Give;

impl Play<u8, Sight> for Give {
    ghost then = { Gives };
}

/// Gives up an entry with no child: its state word as it was.
pub(crate) fn give_whole(words: &Words, seat: &mut Place, entry: u32, _info: &EntryInfo) -> u64
    requires on { On words.now.table_id words.now.key seat.old }
    requires may { MayGive words.now.key seat.old.me.0.known entry }
    requires told { Among (record { entry = entry; info = _info.now }) seat.old.me.0.known.told }
    requires childless { (j : ℕ) → Among (record { entry = j; place = first entry })
        seat.old.me.0.known.view.links → ⊥ }
    requires inside { entry < words.now.key }
    ensures stays { Stays seat.old seat.new }
    ensures known { seat.new.me.0.known ≡ gave_up entry _info.now result seat.old.me.0.known }
    ensures bounded { Bounded seat.new.me.0.known }
    ensures sums { Sums result (24) }
{
    words.fetch_add::<Give>(seat, state_place(entry), GIVEN + DONE)
}

/// An entry with children is given up. It is not done yet.
struct Begin;

impl Play<u8, Sight> for Begin {
    ghost then = { Begins };
}

/// The first step of a give of an entry with children, of which one is the first: its state word as it was.
pub(crate) fn begin_give(words: &Words, seat: &mut Place, entry: u32, _child: u32) -> u64
    requires on { On words.now.table_id words.now.key seat.old }
    requires may { MayGive words.now.key seat.old.me.0.known entry }
    requires child { Among (record { entry = _child; place = first entry }) seat.old.me.0.known.view.links }
    requires inside { entry < words.now.key }
    ensures stays { Stays seat.old seat.new }
    ensures known { seat.new.me.0.known ≡ half_gave entry result seat.old.me.0.known }
{
    words.fetch_add::<Begin>(seat, state_place(entry), GIVEN)
}

/// The last child of an entry that is given up is linked to it.
struct Rise;

impl Play<u8, Sight> for Rise {
    ghost then = { Rises };
}

/// The second step: the last child is linked to the entry. The state word of the child as it was.
pub(crate) fn link_last(
    words: &Words,
    seat: &mut Place,
    entry: u32,
    last: u32,
    _info: &EntryInfo,
) -> u64
    requires on { On words.now.table_id words.now.key seat.old }
    requires full { seat.old.me.0.known.view.half ≡ entry ∷ [] }
    requires own { Among entry seat.old.me.0.known.view.owned }
    requires kin { Kin seat.old.me.0.known.view.links entry last }
    requires youngest { (j : ℕ) → Among (record { entry = j; place = after last }) seat.old.me.0.known.view.links → ⊥ }
    requires told { Among (record { entry = last; info = _info.now }) seat.old.me.0.known.told }
    requires live { (seat.old.me.0.known.view.parts ≢ 0) × (seat.old.me.0.known.entries ≡ words.now.key) }
    requires inside { (last < words.now.key) × (entry < 16777216) }
    ensures stays { Stays seat.old seat.new }
    ensures known { seat.new.me.0.known ≡ rose entry last _info.now result seat.old.me.0.known }
    ensures bounded { Bounded seat.new.me.0.known }
    ensures sums { Sums result (64 + 65536 * entry) }
{
    words.fetch_add::<Rise>(seat, state_place(last), LINKED + NEXT * entry as u64)
}

/// The flag of a message is set.
struct Pass;

impl Play<u8, Sight> for Pass {
    ghost then = { Passes };
}

/// Delivers a held message: the state word of its entry as it was.
pub(crate) fn set_flag(words: &Words, seat: &mut Place, message: Message, _info: &EntryInfo) -> u64
    requires on { On words.now.table_id words.now.key seat.old }
    requires held { Has message seat.old.me.0.known.view.held × (1 ≤ message.flag) × (message.flag ≤ 5) }
    requires told { Among (record { entry = message.entry; info = _info.now }) seat.old.me.0.known.told }
    requires last { (b : Message) → Has b (without message seat.old.me.0.known.view.held) →
        Later seat.old.me.0.known message _info.now b }
    requires whole { seat.old.me.0.known.view.half ≡ [] }
    requires live { (seat.old.me.0.known.view.parts ≢ 0) × (seat.old.me.0.known.entries ≡ words.now.key) }
    requires inside { message.entry < words.now.key }
    ensures stays { Stays seat.old seat.new }
    ensures known { seat.new.me.0.known ≡ passed message _info.now (weight message.flag) result seat.old.me.0.known }
    ensures bounded { Bounded seat.new.me.0.known }
    ensures sums { Sums result (weight message.flag) }
    ensures work { seat.new.me.0.known.view.delivered ≤ 6 * words.now.key }
    ensures one { OneInfo seat.old.me.0.known }
{
    words.fetch_add::<Pass>(seat, state_place(message.entry), weight_of(message.flag))
}
