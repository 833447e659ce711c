//! An entry is given up: in one step if it has no children, and else in two, since its last child is to tell it
//! when all are done.

ghost use Rattle.std.specs.Prelude.{◌≡◌, ◌<◌, ◌+◌, ◌*◌, ℕ, [], ◌∷◌};
ghost use Rattle.oss_words.specs.Net.{first};
ghost use Rattle.oss_words.specs.Views.{Among};
ghost use Rattle.oss_word_net.specs.Asks.{On, Stays};
ghost use Rattle.oss_word_net.specs.Calls.{MayRelease, Released};
ghost use Rattle.oss_word_net.specs.Standing.{Idle};

use crate::families::last_child;
use crate::masks::{DONE, GIVEN, LINKED, NEXT};
use crate::steps::{Place, Words, begin_give, give_whole, link_last, read_info, read_state};
use oss_words::{Messages, info_of, send, state_of};

/// Gives up an entry of which this one is the first child: what that completes.
fn give_above(words: &Words, place: &mut Place, entry: u32, child: u32) -> Messages
    requires on { On words.now.table_id words.now.key place.old }
    requires idle { Idle words.now.key place.old.me.0.known }
    requires may { MayRelease place.old.me.0.known entry }
    requires child { Among (record { entry = child; place = first entry }) place.old.me.0.known.view.links ×
        (child < words.now.key) }
    ensures stays { Stays place.old place.new }
    ensures idle { Idle words.now.key place.new.me.0.known }
    ensures released { Released place.old.me.0.known place.new.me.0.known entry }
    ensures sent { result.items ≡ place.new.me.0.known.view.held }
{
    let last = last_child(words, place, entry, child);
    let word = read_info(words, place, last);
    let info = info_of(word);
    begin_give(words, place, entry, child);
    let found = link_last(words, place, entry, last, &info);
    send(found, found + (LINKED + NEXT * entry as u64), word)
}

/// Gives up an entry: what that completes.
pub(crate) fn give_up(words: &Words, place: &mut Place, entry: u32) -> Messages
    requires on { On words.now.table_id words.now.key place.old }
    requires idle { Idle words.now.key place.old.me.0.known }
    requires may { MayRelease place.old.me.0.known entry }
    ensures stays { Stays place.old place.new }
    ensures idle { Idle words.now.key place.new.me.0.known }
    ensures released { Released place.old.me.0.known place.new.me.0.known entry }
    ensures sent { result.items ≡ place.new.me.0.known.view.held }
{
    let state = state_of(read_state(words, place, entry));
    if state.headed {
        return give_above(words, place, entry, state.child);
    }
    let word = read_info(words, place, entry);
    let info = info_of(word);
    let found = give_whole(words, place, entry, &info);
    send(found, found + (GIVEN + DONE), word)
}
