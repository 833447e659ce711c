//! The three ways in which a new entry is linked. Its own words are written first, so who follows the link finds them.

ghost use Rattle.std.specs.Prelude.{◌≡◌, ◌≢◌, ◌<◌, ◌≤◌, ◌+◌, ◌*◌, ℕ, [], vec_capacity};
ghost use Rattle.oss_words.specs.declared.entry.After.TheVariants.{FirstOf, FirstOfMain, Sibling};
ghost use Rattle.oss_words.specs.Views.{Among};
ghost use Rattle.oss_word_net.specs.Asks.{On, Stays};
ghost use Rattle.oss_word_net.specs.Calls.{MayHang, Hung};
ghost use Rattle.oss_word_net.specs.Plays.{Bounded};
ghost use Rattle.oss_word_net.specs.Standing.{Idle, Ready};
ghost use Rattle.oss_words.specs.declared.entry.After.{After};

use crate::held::Held;
use crate::holding::hold;
use crate::masks::{mask_of_child, mask_of_next};
use crate::steps::{
    Place, Words, fill_info, fill_state, link_behind, link_below, open_list, read_info,
};
use oss_words::{After, EntryInfo, Messages, info_of, send, word_of_info};

/// Links an entry that begins a list of main.
pub(crate) fn begin_list(words: &Words, place: &mut Place, entry: u32, info: &EntryInfo)
    requires on { On words.now.table_id words.now.key place.old }
    requires idle { Idle words.now.key place.old.me.0.known }
    requires may { MayHang place.old.me.0.known entry info.now FirstOfMain }
    ensures stays { Stays place.old place.new }
    ensures idle { Idle words.now.key place.new.me.0.known }
    ensures hung { Hung place.old.me.0.known place.new.me.0.known entry info.now FirstOfMain }
{
    fill_info(words, place, entry, word_of_info(info));
    open_list(words, place, entry, info);
}

/// Links an entry as the first child of its parent: what that completes.
pub(crate) fn begin_children(
    words: &Words,
    place: &mut Place,
    entry: u32,
    info: &EntryInfo,
) -> Messages
    requires on { On words.now.table_id words.now.key place.old }
    requires idle { Idle words.now.key place.old.me.0.known }
    requires may { MayHang place.old.me.0.known entry info.now (FirstOf info.now.parent) }
    ensures stays { Stays place.old place.new }
    ensures idle { Idle words.now.key place.new.me.0.known }
    ensures hung { Hung place.old.me.0.known place.new.me.0.known entry info.now (FirstOf info.now.parent) }
    ensures sent { result.items ≡ place.new.me.0.known.view.held }
{
    let word = read_info(words, place, info.parent);
    let above = info_of(word);
    fill_info(words, place, entry, word_of_info(info));
    fill_state(words, place, entry, info);
    let found = link_below(words, place, entry, info, &above);
    send(
        found,
        found + mask_of_child(entry, above.mode, info.mode),
        word,
    )
}

/// Links an entry behind a sibling: what that completes.
pub(crate) fn extend_list(
    words: &Words,
    place: &mut Place,
    entry: u32,
    info: &EntryInfo,
    sibling: u32,
) -> Messages
    requires on { On words.now.table_id words.now.key place.old }
    requires idle { Idle words.now.key place.old.me.0.known }
    requires may { MayHang place.old.me.0.known entry info.now (Sibling sibling) }
    ensures stays { Stays place.old place.new }
    ensures idle { Idle words.now.key place.new.me.0.known }
    ensures hung { Hung place.old.me.0.known place.new.me.0.known entry info.now (Sibling sibling) }
    ensures sent { result.items ≡ place.new.me.0.known.view.held }
{
    let word = read_info(words, place, sibling);
    let before = info_of(word);
    fill_info(words, place, entry, word_of_info(info));
    let found = link_behind(words, place, entry, info, sibling, &before);
    send(
        found,
        found + mask_of_next(entry, before.mode, info.mode),
        word,
    )
}

/// Links an entry as the first child of its parent, and holds what that completes.
fn hang_first(words: &Words, place: &mut Place, held: &mut Vec<Held>, entry: u32, info: &EntryInfo)
    requires on { On words.now.table_id words.now.key place.old }
    requires idle { Idle words.now.key place.old.me.0.known }
    requires ready { Ready held.old.items [] place.old.me.0.known }
    requires room { 1024 ≤ vec_capacity held.old }
    requires may { MayHang place.old.me.0.known entry info.now (FirstOf info.now.parent) }
    ensures stays { Stays place.old place.new }
    ensures idle { Idle words.now.key place.new.me.0.known }
    ensures hung { Hung place.old.me.0.known place.new.me.0.known entry info.now (FirstOf info.now.parent) }
    ensures ready { Ready held.new.items [] place.new.me.0.known }
    ensures room { 1024 ≤ vec_capacity held.new }
{
    let sent = begin_children(words, place, entry, info);
    hold(words, place, held, &sent);
}

/// Links an entry behind a sibling, and holds what that completes.
fn hang_behind(
    words: &Words,
    place: &mut Place,
    held: &mut Vec<Held>,
    entry: u32,
    info: &EntryInfo,
    sibling: u32,
)
    requires on { On words.now.table_id words.now.key place.old }
    requires idle { Idle words.now.key place.old.me.0.known }
    requires ready { Ready held.old.items [] place.old.me.0.known }
    requires room { 1024 ≤ vec_capacity held.old }
    requires may { MayHang place.old.me.0.known entry info.now (Sibling sibling) }
    ensures stays { Stays place.old place.new }
    ensures idle { Idle words.now.key place.new.me.0.known }
    ensures hung { Hung place.old.me.0.known place.new.me.0.known entry info.now (Sibling sibling) }
    ensures ready { Ready held.new.items [] place.new.me.0.known }
    ensures room { 1024 ≤ vec_capacity held.new }
{
    let sent = extend_list(words, place, entry, info, sibling);
    hold(words, place, held, &sent);
}

/// Links an entry that begins a list of main: that completes nothing.
fn hang_top(words: &Words, place: &mut Place, held: &mut Vec<Held>, entry: u32, info: &EntryInfo)
    requires on { On words.now.table_id words.now.key place.old }
    requires idle { Idle words.now.key place.old.me.0.known }
    requires ready { Ready held.old.items [] place.old.me.0.known }
    requires room { 1024 ≤ vec_capacity held.old }
    requires may { MayHang place.old.me.0.known entry info.now FirstOfMain }
    ensures stays { Stays place.old place.new }
    ensures idle { Idle words.now.key place.new.me.0.known }
    ensures hung { Hung place.old.me.0.known place.new.me.0.known entry info.now FirstOfMain }
    ensures ready { Ready held.new.items [] place.new.me.0.known }
    ensures room { 1024 ≤ vec_capacity held.new }
{
    begin_list(words, place, entry, info);
}

/// Links an entry, and holds what that completes.
pub(crate) fn hang(
    words: &Words,
    place: &mut Place,
    held: &mut Vec<Held>,
    entry: u32,
    info: &EntryInfo,
    after: After,
)
    requires on { On words.now.table_id words.now.key place.old }
    requires idle { Idle words.now.key place.old.me.0.known }
    requires ready { Ready held.old.items [] place.old.me.0.known }
    requires room { 1024 ≤ vec_capacity held.old }
    requires may { MayHang place.old.me.0.known entry info.now after }
    ensures stays { Stays place.old place.new }
    ensures idle { Idle words.now.key place.new.me.0.known }
    ensures hung { Hung place.old.me.0.known place.new.me.0.known entry info.now after }
    ensures ready { Ready held.new.items [] place.new.me.0.known }
    ensures room { 1024 ≤ vec_capacity held.new }
{
    match after {
        After::FirstOfMain => hang_top(words, place, held, entry, info),
        After::FirstOf(_) => hang_first(words, place, held, entry, info),
        After::Sibling(sibling) => hang_behind(words, place, held, entry, info, sibling),
    }
}
