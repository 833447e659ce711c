//! The messages that a seat holds, each with the info word of its entry, by which the next one to deliver is picked.

ghost use Rattle.std.specs.Prelude.{not, ◌==◌, vec_len, vec_capacity, ◌≡◌, ◌≢◌, ◌⊎◌, ◌<◌, ◌≤◌, ℕ, [], length, slice_index_or, IfNone, IfOk, IfSome};
ghost use Rattle.oss_field.specs.Messages.{rank, NoneBefore};

use oss_words::info_of;
use std::alloc::{AllocError, Global};

/// How many messages a seat has room for.
const ROOM: usize = 1_024;

/// A message that waits for its delivery.
#[derive(Clone, Copy, Drop)]
pub(crate) struct Held {
    /// The entry on which the flag is set.
    pub(crate) entry: u32,
    /// The flag's place in the order of delivery, 0 to 5.
    pub(crate) flag: u8,
    /// The info word of the entry.
    pub(crate) info: u64,
}

/// Room for all messages that a seat may hold at a time.
pub(crate) fn room(alloc: Global) -> Result<Vec<Held>, AllocError>
    ensures { IfOk result (λ held. (held.items ≡ []) × (1024 ≤ vec_capacity held)) }
{
    Vec::with_capacity(alloc, ROOM)
}

/// What comes first has the highest rank: the deepest entry, and of one depth the least flag.
fn rank_of(held: Held) -> u64
    requires { held.flag ≤ 5 }
    ensures { result ≡ rank held }
{
    8 * info_of(held.info).depth as u64 + (7 - held.flag as u64)
}

/// The place of a message that comes before all others.
pub(crate) fn first_of(held: &[Held]) -> usize
    requires some { 0 < length held.now }
    requires flags { (k : ℕ) (d : Held) → k < length held.now → (slice_index_or held.now k d).flag ≤ 5 }
    ensures inside { result < length held.now }
    ensures first { NoneBefore held.now (length held.now) result }
{
    let mut best = 0;
    for at in 1..held.len() {
        if rank_of(held[best]) < rank_of(held[at]) {
            best = at;
        }
    }
    best
}

/// Whether there is a message.
pub(crate) fn has_some(held: &Vec<Held>) -> bool
    ensures { result ≡ not (vec_len held.now == 0) }
{
    !held.is_empty()
}

/// The entry of the message that comes first, if that is a join.
pub(crate) fn join_of(held: &Vec<Held>) -> Option<u32>
    requires flags { (k : ℕ) (d : Held) → k < length held.now.items → (slice_index_or held.now.items k d).flag ≤ 5 }
    ensures some { IfSome result (λ e. (at : ℕ) × (x : Held) × (at < length held.now.items) ×
        (x ≡ slice_index_or held.now.items at x) × NoneBefore held.now.items (length held.now.items) at ×
        (x.flag ≡ 0) × (x.entry ≡ e)) }
    ensures none { IfNone result ((length held.now.items ≡ 0) ⊎ ((at : ℕ) × (x : Held) × (at < length held.now.items) ×
        (x ≡ slice_index_or held.now.items at x) × NoneBefore held.now.items (length held.now.items) at ×
        (x.flag ≢ 0))) }
{
    if held.is_empty() {
        return None;
    }
    let first = held[first_of(held.as_slice())];
    if first.flag == 0 {
        Some(first.entry)
    } else {
        None
    }
}
