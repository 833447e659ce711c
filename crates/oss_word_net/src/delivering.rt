//! A held message is delivered: one step sets its flag, and what that completes is sent on.

ghost use Rattle.std.specs.Prelude.{◌≡◌, ◌<◌, ◌≤◌, ◌+◌, ◌*◌, [], length, vec_capacity};
ghost use Rattle.oss_word_net.specs.Asks.{On, Stays};
ghost use Rattle.oss_word_net.specs.Calls.{Delivered};
ghost use Rattle.oss_word_net.specs.Known.{OneInfo};
ghost use Rattle.oss_word_net.specs.Standing.{Idle, Ready};

use crate::held::{Held, first_of};
use crate::masks::weight_of;
use crate::steps::{Place, Words, set_flag};
use oss_words::{Message, Messages, info_of, send};

/// Delivers the message that comes first: what that completes, which is not ready yet.
pub(crate) fn deliver_first(words: &Words, place: &mut Place, held: &mut Vec<Held>) -> Messages
    requires on { On words.now.table_id words.now.key place.old }
    requires idle { Idle words.now.key place.old.me.0.known }
    requires ready { Ready held.old.items [] place.old.me.0.known }
    requires some { 0 < length held.old.items }
    requires room { 1024 ≤ vec_capacity held.old }
    ensures stays { Stays place.old place.new }
    ensures idle { Idle words.now.key place.new.me.0.known }
    ensures ready { Ready held.new.items result.items place.new.me.0.known }
    ensures delivered { Delivered place.old.me.0.known place.new.me.0.known }
    ensures room { 1024 ≤ vec_capacity held.new }
    ensures work { place.new.me.0.known.view.delivered ≤ 6 * words.now.key }
    ensures one { OneInfo place.old.me.0.known }
{
    let first = held.swap_remove(first_of(held.as_slice()));
    let message = Message {
        entry: first.entry,
        flag: first.flag,
    };
    let info = info_of(first.info);
    let found = set_flag(words, place, message, &info);
    send(found, found + weight_of(first.flag), first.info)
}
