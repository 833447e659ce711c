//! Which messages a step sends: those whose causes it completes. Two words and an info tell them, so no other
//! entry is read.

ghost use Rattle.std.specs.Prelude.{◌≡◌, ◌<◌, ◌≤◌, ◌+◌, ◌++◌, ◌&&◌, not};
ghost use Rattle.arrayvec.specs.ArrayVec.{array_vec_len};
ghost use Rattle.oss_words.specs.Bits.{state_at, info_at};
ghost use Rattle.oss_words.specs.Causes.{only_reads, has_sibling, is_last, part, posted, SentIsPosted};
ghost use Rattle.oss_words.specs.Causes.{tells_reads, tells_writes, tells_folds, tells_clear, tells_done, heads_reads, heads_writes, heads_folds};

use crate::words::{info_of, state_of};
use crate::{EntryInfo, EntryState, Message};
use arrayvec::ArrayVec;
use oss_syntax::Mode;

/// The messages that one step sends: at most 8.
pub type Messages = ArrayVec<Message, 8>;

/// Whether the mode is Read.
fn is_read(mode: Mode) -> bool
    ensures { result ≡ only_reads mode }
{
    match mode {
        Mode::Read => true,
        Mode::Write => false,
        Mode::Fold(_) => false,
    }
}

/// Whether the next link is set and names a sibling.
fn leads_on(state: &EntryState, info: &EntryInfo) -> bool
    ensures { result ≡ has_sibling state.now info.now }
{
    state.linked && state.next != info.parent
}

/// Whether the next link is set and names the parent.
fn leads_up(state: &EntryState, info: &EntryInfo) -> bool
    ensures { result ≡ is_last state.now info.now }
{
    state.linked && state.next == info.parent
}

/// Whether the next sibling may read.
fn next_reads(state: &EntryState, info: &EntryInfo) -> bool
    ensures { result ≡ tells_reads state.now info.now }
{
    leads_on(state, info) && (state.reads && (is_read(info.mode) || (state.given && state.done)))
}

/// Whether the next sibling may write.
fn next_writes(state: &EntryState, info: &EntryInfo) -> bool
    ensures { result ≡ tells_writes state.now info.now }
{
    leads_on(state, info) && (state.writes && (state.given && state.done))
}

/// Whether the next sibling, a reduction, may be joined.
fn next_folds(state: &EntryState, info: &EntryInfo) -> bool
    ensures { result ≡ tells_folds state.now info.now }
{
    leads_on(state, info)
        && (state.next_folds
            && if state.next_same {
                state.folds
            } else {
                state.writes && (state.given && state.done)
            })
}

/// Whether all before the next sibling is done.
fn next_clear(state: &EntryState, info: &EntryInfo) -> bool
    ensures { result ≡ tells_clear state.now info.now }
{
    leads_on(state, info) && (state.clear && (state.given && state.done))
}

/// Whether the parent is done.
fn parent_done(state: &EntryState, info: &EntryInfo) -> bool
    ensures { result ≡ tells_done state.now info.now }
{
    leads_up(state, info) && (state.clear && (state.given && state.done))
}

/// Whether the first child may read.
fn child_reads(state: &EntryState) -> bool
    ensures { result ≡ heads_reads state.now }
{
    state.headed && state.reads
}

/// Whether the first child may write.
fn child_writes(state: &EntryState) -> bool
    ensures { result ≡ heads_writes state.now }
{
    state.headed && state.writes
}

/// Whether the first child, a reduction, may be joined.
fn child_folds(state: &EntryState) -> bool
    ensures { result ≡ heads_folds state.now }
{
    state.headed
        && (state.child_folds
            && if state.child_same {
                state.folds
            } else {
                state.writes
            })
}

/// Adds the message where its cause stands now and did not stand before.
fn post(messages: &mut Messages, now: bool, before: bool, entry: u32, flag: u8)
    requires { array_vec_len messages.old < 8 }
    ensures items { messages.new.items ≡ messages.old.items ++ part (now && not before) entry flag }
    ensures room { array_vec_len messages.new ≤ array_vec_len messages.old + 1 }
{
    if now && !before {
        messages.push(Message { entry, flag });
    }
}

/// The messages whose causes the step from the state word `old` to `new` completes, of an entry with this info
/// word. The join of the entry itself is not among them, since the entry's own number stands in no word.
pub fn send(old: u64, new: u64, info: u64) -> Messages
    ensures { result.items ≡ posted (state_at old) (state_at new) (info_at info) }
{
    let (before, now, info) = (state_of(old), state_of(new), info_of(info));
    let mut messages = ArrayVec::new();
    post(
        &mut messages,
        next_reads(&now, &info),
        next_reads(&before, &info),
        now.next,
        3,
    );
    post(
        &mut messages,
        next_writes(&now, &info),
        next_writes(&before, &info),
        now.next,
        4,
    );
    post(
        &mut messages,
        next_folds(&now, &info),
        next_folds(&before, &info),
        now.next,
        2,
    );
    post(
        &mut messages,
        next_clear(&now, &info),
        next_clear(&before, &info),
        now.next,
        5,
    );
    post(
        &mut messages,
        parent_done(&now, &info),
        parent_done(&before, &info),
        info.parent,
        1,
    );
    post(
        &mut messages,
        child_reads(&now),
        child_reads(&before),
        now.child,
        3,
    );
    post(
        &mut messages,
        child_writes(&now),
        child_writes(&before),
        now.child,
        4,
    );
    post(
        &mut messages,
        child_folds(&now),
        child_folds(&before),
        now.child,
        2,
    );
    messages
}

/// What a step sends is what `send` gives, and behind it the join of the entry itself, if its cause was completed.
pub fn sent_is_posted()
    ensures { SentIsPosted }
{}
