//! Messages that a step has sent are made ready for their delivery: the info word of each entry is read and
//! kept beside the message.

ghost use Rattle.std.specs.Prelude.{◌≡◌, ◌≢◌, ◌<◌, ◌≤◌, ◌+◌, ◌*◌, ◌++◌, ℕ, [], ◌∷◌, drop, length, vec_capacity, vec_len};
ghost use Rattle.arrayvec.specs.ArrayVec.{array_vec_len};
ghost use Rattle.oss_words.specs.Sums.{total};
ghost use Rattle.oss_words.specs.declared.message.Message.{Message};
ghost use Rattle.oss_word_net.specs.Asks.{On, Stays};
ghost use Rattle.oss_word_net.specs.Plays.{Bounded};
ghost use Rattle.oss_word_net.specs.Standing.{Learns, Ready, message_of};

use crate::held::Held;
use crate::steps::{Place, Words, read_info};
use oss_words::{Message, Messages};

/// Makes one message ready, of those that are not yet, whose first it is.
fn hold_one(words: &Words, place: &mut Place, held: &mut Vec<Held>, messages: &[Message], at: usize)
    requires on { On words.now.table_id words.now.key place.old }
    requires bounded { Bounded place.old.me.0.known × (place.old.me.0.known.entries ≡ words.now.key) }
    requires inside { at < length messages.now }
    requires ready { Ready held.old.items (drop at messages.now) place.old.me.0.known }
    requires room { 1024 ≤ vec_capacity held.old }
    ensures stays { Stays place.old place.new }
    ensures learns { Learns place.old.me.0.known place.new.me.0.known }
    ensures ready { Ready held.new.items (drop (at + 1) messages.now) place.new.me.0.known }
    ensures room { 1024 ≤ vec_capacity held.new }
{
    let message = messages[at];
    let info = read_info(words, place, message.entry);
    let one = Held {
        entry: message.entry,
        flag: message.flag,
        info,
    };
    let Ok(()) = held.push(one) else {
        unreachable!()
    };
}

/// Holds what a step has sent. Of each message the info word of its entry is read.
pub(crate) fn hold(words: &Words, place: &mut Place, held: &mut Vec<Held>, sent: &Messages)
    requires on { On words.now.table_id words.now.key place.old }
    requires bounded { Bounded place.old.me.0.known × (place.old.me.0.known.entries ≡ words.now.key) }
    requires ready { Ready held.old.items sent.now.items place.old.me.0.known }
    requires room { 1024 ≤ vec_capacity held.old }
    ensures stays { Stays place.old place.new }
    ensures learns { Learns place.old.me.0.known place.new.me.0.known }
    ensures ready { Ready held.new.items [] place.new.me.0.known }
    ensures room { 1024 ≤ vec_capacity held.new }
{
    let messages = sent.as_slice();
    for at in 0..messages.len() {
        hold_one(words, place, held, messages, at);
    }
}
