//! A net with its one seat.

ghost use Rattle.std.specs.Prelude.{◌≡◌, ◌≢◌, ◌<◌, ◌≤◌, ◌+◌, ◌-◌, ◌*◌, ℕ, [], ◌∷◌, IfOk, IfSome};
ghost use Rattle.oss_words.specs.Bits.{state_at};
ghost use Rattle.oss_words.specs.Views.{Among};
ghost use Rattle.oss_word_net.specs.Calls.{MayHang, MayRelease, place_of};
ghost use Rattle.oss_word_net.specs.Known.{Rests};
ghost use Rattle.oss_word_deps.specs.Known.{Adds, Frees, IsAlone, IsBare, Looks, Settles};

use crate::entry::Entry;
use oss_word_net::{WordNet, WordSeat};
use std::alloc::{AllocError, Global};
use std::marker::Model;

/// A net of access words, and the one seat at it, which holds no message between two calls.
pub(crate) struct OwnNet {
    net: WordNet,
    seat: WordSeat,
    /// How many entries the net has, main's among them.
    size: u32,
}

// By hand, so that who lets one go calls this, and does not take it apart at each exit.
impl Drop for OwnNet {
    fn drop(self) {
        let OwnNet { net, seat, size: _ } = self;
        drop(net);
        drop(seat);
    }
}

impl Model for OwnNet {
    ghost use Rattle.std.specs.Prelude.{◌≡◌, ◌≤◌, []};
    ghost use Rattle.oss_word_deps.specs.Known.{IsAlone, Owned};

    ghost Value = { Owned };

    ghost view = { λ w. record { known = w.seat.known; size = w.size } };

    ghost invariant = { λ w. (w.seat.net ≡ w.net.table) × (w.net.entries ≡ w.size) ×
        IsAlone w.seat.known w.size × (w.seat.known.view.held ≡ []) × (w.size ≤ 16777216) };
}

/// Delivers until no message is held.
fn settle(net: &WordNet, seat: &mut WordSeat)
    requires { seat.old.net ≡ net.now.table }
    ensures same { seat.new.net ≡ seat.old.net }
    ensures settles { Settles seat.old.known seat.new.known }
{
    while net.holding(seat) {
        net.deliver(seat);
    }
}

impl OwnNet {
    /// A net of so many entries, from 2 to 16,777,216, of which the seat owns each. `None` where the entries
    /// could not be drawn in order, which a net of its own never shows.
    pub(crate) fn new(alloc: Global, size: u32) -> Result<Option<OwnNet>, AllocError>
        requires { (2 ≤ size) × (size ≤ 16777216) }
        ensures { IfOk result (λ made. IfSome made (λ own. (own.size ≡ size) × IsBare own.known ×
            IsAlone own.known size × (own.known.view.held ≡ []))) }
    {
        let (net, mut seat) = WordNet::new(alloc, size)?;
        match net.draw(&mut seat, size - 1) {
            Some(1) => Ok(Some(OwnNet { net, seat, size })),
            _ => Ok(None),
        }
    }

    /// How many entries it has.
    pub(crate) fn size(&self) -> u32
        ensures { result ≡ self.now.size }
    {
        self.size
    }

    /// Links an entry.
    pub(crate) fn link(&mut self, number: u32, entry: Entry)
        requires { MayHang self.old.known number entry.info entry.after }
        ensures size { self.new.size ≡ self.old.size }
        ensures adds { Adds number entry self.old.known self.new.known }
    {
        self.net
            .link(&mut self.seat, number, entry.info, entry.after);
        settle(&self.net, &mut self.seat);
    }

    /// Gives up an entry.
    pub(crate) fn give(&mut self, number: u32)
        requires { MayRelease self.old.known number }
        ensures size { self.new.size ≡ self.old.size }
        ensures frees { Frees number self.old.known self.new.known }
    {
        self.net.give(&mut self.seat, number);
        settle(&self.net, &mut self.seat);
    }

    /// The state word of an entry.
    pub(crate) fn flags(&mut self, number: u32) -> u64
        requires { number < self.old.size }
        ensures size { self.new.size ≡ self.old.size }
        ensures looks { Looks self.old.known self.new.known }
        ensures rests { Rests self.old.known number (state_at result) }
    {
        self.net.flags(&mut self.seat, number)
    }
}
