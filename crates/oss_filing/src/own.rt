//! A net with its one seat.

ghost use Rattle.std.specs.Prelude.{◌≡◌, ◌≢◌, ◌<◌, ◌≤◌, ◌+◌, ◌-◌, ◌*◌, ℕ, [], ◌∷◌, IfOk, IfSome};
ghost use Rattle.oss_words.specs.declared.entry.After.{After as Spot};
ghost use Rattle.oss_words.specs.declared.entry.EntryInfo.{EntryInfo as Info};
ghost use Rattle.oss_words.specs.Views.{Among};
ghost use Rattle.oss_word_net.specs.Calls.{MayHang, MayRelease, place_of};
ghost use Rattle.oss_word_net.specs.Ended.{Ended};
ghost use Rattle.oss_filing.specs.Owned.{Adds, Frees, IsAlone, IsBare, Settles};

use crate::row::Row;
use oss_word_net::{WordNet, WordSeat};
use std::alloc::{AllocError, Global};
use std::marker::Model;

/// A net of access words, and the one seat at it, which holds no message between two calls.
pub(crate) struct OwnNet {
    net: WordNet,
    seat: WordSeat,
    /// How many entries the net has, main's among them.
    size: u32,
}

// By hand, so that who lets one go calls this, and does not take it apart at each exit.
impl Drop for OwnNet {
    fn drop(self) {
        let OwnNet { net, seat, size: _ } = self;
        drop(net);
        drop(seat);
    }
}

impl Model for OwnNet {
    ghost use Rattle.std.specs.Prelude.{◌≡◌, ◌≤◌, []};
    ghost use Rattle.oss_filing.specs.Owned.{IsAlone, Owned};

    ghost Value = { Owned };

    ghost view = { λ w. record { known = w.seat.known; size = w.size } };

    ghost invariant = { λ w. (w.seat.net ≡ w.net.table) × (w.net.entries ≡ w.size) ×
        IsAlone w.seat.known w.size × (w.seat.known.view.held ≡ []) × (w.size ≤ 16777216) ×
        (w.seat.id ≡ 0) };
}

/// Delivers until no message is held.
fn settle(net: &WordNet, seat: &mut WordSeat)
    requires { seat.old.net ≡ net.now.table }
    ensures same { (seat.new.net ≡ seat.old.net) × (seat.new.id ≡ seat.old.id) }
    ensures settles { Settles seat.old.known seat.new.known }
{
    while net.holding(seat) {
        net.deliver(seat);
    }
}

impl OwnNet {
    /// A net of so many entries, from 2 to 16,777,216, of which the seat owns each. `None` where the entries
    /// could not be drawn, which a net of its own never shows.
    pub(crate) fn new(alloc: Global, size: u32) -> Result<Option<OwnNet>, AllocError>
        requires { (2 ≤ size) × (size ≤ 16777216) }
        ensures { IfOk result (λ made. IfSome made (λ own. (own.size ≡ size) × IsBare own.known ×
            IsAlone own.known size × (own.known.view.held ≡ []))) }
    {
        let (net, mut seat) = WordNet::new(alloc, size)?;
        match net.draw(&mut seat, size - 1) {
            Some(1) => Ok(Some(OwnNet { net, seat, size })),
            _ => Ok(None),
        }
    }

    /// Links an entry.
    pub(crate) fn link(&mut self, number: u32, row: Row)
        requires { MayHang self.old.known number row.info row.after }
        ensures size { self.new.size ≡ self.old.size }
        ensures adds { Adds number row self.old.known self.new.known }
    {
        self.net.link(&mut self.seat, number, row.info, row.after);
        settle(&self.net, &mut self.seat);
    }

    /// Gives up an entry.
    pub(crate) fn give(&mut self, number: u32)
        requires { MayRelease self.old.known number }
        ensures size { self.new.size ≡ self.old.size }
        ensures frees { Frees number self.old.known self.new.known }
    {
        self.net.give(&mut self.seat, number);
        settle(&self.net, &mut self.seat);
    }

    /// All words of the net. Want of memory is the one error.
    pub(crate) fn end(self) -> Result<Vec<u64>, AllocError>
        ensures { IfOk result (λ v. Ended self.size v.items self.known) }
    {
        let OwnNet { net, seat, size: _ } = self;
        net.end(seat)
    }
}
