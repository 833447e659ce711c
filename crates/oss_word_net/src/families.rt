//! The children of an entry, by the links that its owner has made. A gift needs the last of them, which is to
//! link back to the entry.

ghost use Rattle.std.specs.Prelude.{◌≡◌, ◌≢◌, ◌<◌, ◌≤◌, ◌+◌, ℕ, true, false};
ghost use Rattle.oss_words.specs.Net.{first, after};
ghost use Rattle.oss_words.specs.Views.{Among};
ghost use Rattle.oss_word_net.specs.Asks.{On, Stays};
ghost use Rattle.oss_word_net.specs.Known.{Kin};
ghost use Rattle.oss_word_net.specs.Standing.{Watches};

use crate::steps::{Place, Words, read_state};
use oss_words::state_of;

/// The last of the children of an entry, of which this one is the first.
pub(crate) fn last_child(words: &Words, place: &mut Place, _entry: u32, first: u32) -> u32
    requires on { On words.now.table_id words.now.key place.old }
    requires live { (place.old.me.0.known.view.parts ≢ 0) × (place.old.me.0.known.entries ≡ words.now.key) }
    requires own { Among _entry place.old.me.0.known.view.owned × (Among _entry place.old.me.0.known.view.gives → ⊥) }
    requires child { Kin place.old.me.0.known.view.links _entry first × (first < words.now.key) }
    ensures stays { Stays place.old place.new }
    ensures watches { Watches place.old.me.0.known place.new.me.0.known }
    ensures child { Kin place.old.me.0.known.view.links _entry result × (result < words.now.key) }
    ensures last { (j : ℕ) → Among (record { entry = j; place = after result }) place.old.me.0.known.view.links → ⊥ }
{
    let mut last = first;
    let mut state = state_of(read_state(words, place, last));
    while state.linked {
        last = state.next;
        state = state_of(read_state(words, place, last));
    }
    last
}
