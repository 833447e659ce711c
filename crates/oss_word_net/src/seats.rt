//! Seats that come and go, and a table at its start. A split gives entries to a new seat, and a join brings
//! back what it owns and knows.

ghost use Rattle.std.specs.Prelude.{◌≡◌, ◌≢◌, ◌<◌, ◌≤◌, ◌+◌, ◌*◌, ℕ, List, [], length, IfOk, slice_index};
ghost use Rattle.oss_words.specs.Views.{Among};
ghost use Rattle.oss_word_net.specs.Asks.{On, Stays};
ghost use Rattle.oss_word_net.specs.Known.{first_known};
ghost use Rattle.oss_word_net.specs.Standing.{Idle, Settled};
ghost use Rattle.oss_word_net.specs.Moves.{keeping, handed, joined, spent};

use crate::held::Held;
use crate::rule::NetRule;
use crate::sight::Sight;
use crate::steps::{Place, Words};
use atomic_table::{Join, Split, Table};
use std::alloc::{AllocError, Global};
use std::marker::{Brand, PhantomData};

/// A table whose words are 0, but for the first, which is 1; and its first seat.
pub(crate) fn open_table(
    alloc: Global,
    words: &[u64],
    entries: u32,
) -> Result<(Table<u8, Sight, u32, NetRule, Global>, Place), AllocError>
    requires some { (0 < entries) × (entries ≤ 16777216) }
    requires size { length words.now ≡ 1 + 2 * entries }
    requires zeros { (slice_index words.now 0 ≡ 1) × ((k : ℕ) → 0 < k → slice_index words.now k ≡ 0) }
    ensures table { IfOk result (λ r. (r.0.shared.table_id.words ≡ 1 + 2 * entries) ×
        (r.0.shared.table_id.slots ≡ 0) × (r.0.shared.key ≡ entries)) }
    ensures seat { IfOk result (λ r. (r.1.table_id ≡ r.0.shared.table_id) × (r.1.id ≡ 0) ×
        (r.1.me.0.known ≡ first_known entries) × (r.1.me.1 ≡ [])) }
{
    Table::of_words(alloc, words, &entries)
}

/// The entries that a split hands over, which a call of `split_by` picks.
pub(crate) trait Handing {
    ghost hand: { List ℕ };
}

impl Handing for Brand {
    ghost hand = { [] };
}

/// The kind of split by which a new seat gets a hand. It is a type, so the hand may be one that only the proof knows.
struct Parting<H: Handing> {
    /// No value of the type is made.
    of: PhantomData<H>,
}

impl<H: Handing> Split<Sight> for Parting<H> {
    ghost left = { λ s. record { known = keeping H.hand s.known } };

    ghost right = { λ s. record { known = handed H.hand s.known } };
}

/// Splits the first seat by a hand that the proof names.
fn split_by<H: Handing>(words: &Words, seat: &mut Place, _hand: &[u32]) -> Place
    requires hand { H.hand ≡ _hand.now }
    requires on { On words.now.table_id words.now.key seat.old }
    requires first { seat.old.id ≡ 0 }
    requires few { seat.old.me.0.known.view.splits < 65536 }
    requires idle { (seat.old.me.0.known.filling ≡ []) × (seat.old.me.0.known.view.parts ≢ 0) }
    requires own { (e : ℕ) → Among e _hand.now → Among e seat.old.me.0.known.view.owned }
    ensures stays { Stays seat.old seat.new }
    ensures known { seat.new.me.0.known ≡ keeping _hand.now seat.old.me.0.known }
    ensures other { (result.table_id ≡ seat.old.table_id) ×
        (result.me.0.known ≡ handed _hand.now seat.old.me.0.known) × (result.me.1 ≡ []) }
{
    words.split_seat::<Parting<H>>(seat)
}

/// Splits the first seat, which has these messages ready: the new one owns the entries of the hand, and has none.
pub(crate) fn cut(words: &Words, seat: &mut Place, hand: &[u32], _held: &Vec<Held>) -> Place
    requires on { On words.now.table_id words.now.key seat.old }
    requires first { seat.old.id ≡ 0 }
    requires few { seat.old.me.0.known.view.splits < 65536 }
    requires settled { Settled _held.now.items seat.old.me.0.known × (1 < seat.old.me.0.known.view.parts) }
    requires own { (e : ℕ) → Among e hand.now → Among e seat.old.me.0.known.view.owned }
    ensures stays { Stays seat.old seat.new }
    ensures known { seat.new.me.0.known ≡ keeping hand.now seat.old.me.0.known }
    ensures other { (result.table_id ≡ seat.old.table_id) ×
        (result.me.0.known ≡ handed hand.now seat.old.me.0.known) × (result.me.1 ≡ []) }
    ensures settled { Settled _held.now.items seat.new.me.0.known ×
        (seat.new.me.0.known.entries ≡ seat.old.me.0.known.entries) }
    ensures ready { Settled [] result.me.0.known × (result.me.0.known.entries ≡ seat.old.me.0.known.entries) }
{
    split_by::<Brand>(words, seat, hand)
}

/// The kind of join by which a seat gets what another one owns and knows.
struct Joining;

impl Join<Sight> for Joining {
    ghost both = { λ s t. record { known = joined s.known t.known } };

    ghost spent = { record { known = spent } };
}

/// Joins a seat that holds nothing to another, which has these messages ready.
pub(crate) fn merge(words: &Words, seat: &mut Place, other: Place, _held: &Vec<Held>)
    requires on { On words.now.table_id words.now.key seat.old × On words.now.table_id words.now.key other }
    requires other { other.me.0.known.view.splits ≡ 0 }
    requires settled { Settled _held.now.items seat.old.me.0.known × (seat.old.me.0.known.entries ≡ words.now.key) }
    requires idle { Idle words.now.key other.me.0.known }
    requires empty { other.me.0.known.view.held ≡ [] }
    ensures stays { Stays seat.old seat.new }
    ensures known { seat.new.me.0.known ≡ joined seat.old.me.0.known other.me.0.known }
    ensures settled { Settled _held.now.items seat.new.me.0.known ×
        (seat.new.me.0.known.entries ≡ seat.old.me.0.known.entries) }
{
    words.join_seat::<Joining>(seat, other);
}
