//! The messages that a seat holds, each with the info word of its entry, by which the next one to deliver is picked.

ghost use Rattle.std.specs.Prelude.{not, ◌==◌, vec_len, ◌≡◌, ◌<◌, ◌≤◌, ◌+◌, ◌-◌, ◌*◌, ◌++◌, ℕ, [], ◌∷◌, length, slice_index_or};
ghost use Rattle.oss_words.specs.Bits.{info_at};
ghost use Rattle.oss_words.specs.declared.message.Message.{Message};
ghost use Rattle.oss_word_net.specs.Standing.{rank, NoneBefore};

use oss_words::info_of;

/// How many messages a seat has room for.
pub(crate) const ROOM: usize = 1_024;

/// A message that waits for its delivery.
#[derive(Clone, Copy, Drop)]
pub(crate) struct Held {
    /// The entry on which the flag is set.
    pub(crate) entry: u32,
    /// The flag's place in the order of delivery, 1 to 5.
    pub(crate) flag: u8,
    /// The info word of the entry.
    pub(crate) info: u64,
}

/// What comes first has the highest rank: the deepest entry, and of one depth the least flag.
fn rank_of(held: Held) -> u64
    requires { held.flag ≤ 5 }
    ensures { result ≡ rank held }
{
    8 * info_of(held.info).depth as u64 + (7 - held.flag as u64)
}

/// The place of a message that comes before all others.
pub(crate) fn first_of(held: &[Held]) -> usize
    requires some { 0 < length held.now }
    requires flags { (k : ℕ) (d : Held) → k < length held.now → (slice_index_or held.now k d).flag ≤ 5 }
    ensures inside { result < length held.now }
    ensures first { NoneBefore held.now (length held.now) result }
{
    let mut best = 0;
    for at in 1..held.len() {
        if rank_of(held[best]) < rank_of(held[at]) {
            best = at;
        }
    }
    best
}

/// Whether there is a message.
pub(crate) fn has_some(held: &Vec<Held>) -> bool
    ensures { result ≡ not (vec_len held.now == 0) }
{
    !held.is_empty()
}
