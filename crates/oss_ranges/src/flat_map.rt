//! A map as a list: its pieces stand in one block in rising order, and a search looks at one after the other. So it
//! is for maps of few pieces.

ghost use Rattle.std.specs.Prelude.{◌≡◌, ◌≤◌, ◌<◌, ◌+◌, [], true, false, is_some, IfOk, IsOk, OnOk, length, vec_capacity};
ghost use Rattle.std.specs.List.{insert};
ghost use Rattle.oss_ranges.specs.Cells.{Begins, Rises, cut_at, inserted, next_of, outside, removed};
ghost use Rattle.oss_ranges.specs.Places.{place};

use crate::piece::{Piece, begins_before};
use std::alloc::{AllocError, Global};
use std::marker::Model;

/// A list has no more pieces than these where room is made; a map of more is a tree.
const MOST: usize = 64;

/// The pieces of a map in one block, and how much of the room behind them is held for changes to come.
pub(crate) struct FlatMap<T: Copy> {
    /// The pieces in rising order.
    pieces: Vec<Piece<T>>,
    /// For so many more pieces there is room, and a change may count on it.
    spares: usize,
}

// By hand, so that who lets one go calls this, and does not take it apart at each exit.
impl<T: Copy> Drop for FlatMap<T> {
    fn drop(self) {
        let FlatMap { pieces, spares: _ } = self;
        drop(pieces);
    }
}

impl<T: Copy> Model for FlatMap<T> {
    ghost use Rattle.std.specs.Prelude.{◌≤◌, ◌+◌, length, vec_capacity};
    ghost use Rattle.oss_ranges.specs.Cells.{Kept, Rises};

    ghost Value = { Kept T };

    ghost view = { λ m. record { pieces = m.pieces.items; spares = m.spares } };

    ghost invariant = { λ m. Rises 0 m.pieces.items 1048576 ×
        (length m.pieces.items + m.spares ≤ vec_capacity m.pieces) };
}

impl<T: Copy> FlatMap<T> {
    /// A map without pieces. It takes no memory.
    pub(crate) fn new(alloc: Global) -> FlatMap<T>
        ensures { result.pieces ≡ [] }
    {
        FlatMap {
            pieces: Vec::new(alloc),
            spares: 0,
        }
    }

    /// The first piece that ends behind a cell.
    pub(crate) fn next(&self, cell: u32) -> Option<Piece<T>>
        ensures found { result ≡ next_of cell self.now.pieces }
        ensures rising { Rises 0 self.now.pieces 1048576 }
    {
        next_in(self.pieces.as_slice(), cell)
    }

    /// Whether there is room for so many more pieces, or the list stays short with them.
    pub(crate) fn fits(&self, more: usize) -> bool
        ensures { result ≡ false → self.now.spares < more }
    {
        more <= self.spares || self.pieces.len().saturating_add(more) <= MOST
    }

    /// Makes room for so many more pieces.
    pub(crate) fn prepare(&mut self, more: usize) -> Result<(), AllocError>
        ensures same { self.new.pieces ≡ self.old.pieces }
        ensures ready { OnOk result (more ≤ self.new.spares) }
        ensures room { more ≤ self.old.spares → IsOk result }
        ensures spares { self.old.spares ≤ self.new.spares }
        ensures rising { Rises 0 self.new.pieces 1048576 }
    {
        if self.spares < more {
            self.pieces.reserve(more)?;
            self.spares = more;
        }
        Ok(())
    }

    /// Puts a piece where no other is.
    pub(crate) fn insert(&mut self, piece: Piece<T>)
        requires room { 0 < self.old.spares }
        requires rising { Rises 0 (inserted piece self.old.pieces) 1048576 }
        ensures pieces { self.new.pieces ≡ inserted piece self.old.pieces }
        ensures spares { self.old.spares ≡ self.new.spares + 1 }
    {
        put_in(&mut self.pieces, piece);
        self.spares -= 1;
    }

    /// Cuts the piece that has this cell and the one before it.
    pub(crate) fn cut(&mut self, cell: u32)
        requires { 0 < self.old.spares }
        ensures pieces { self.new.pieces ≡ cut_at cell self.old.pieces }
        ensures spares { self.old.spares ≤ self.new.spares + 1 }
        ensures rising { Rises 0 self.new.pieces 1048576 }
    {
        part(&mut self.pieces, cell);
        self.spares -= 1;
    }

    /// Removes the pieces that have a cell from `lo` up to `hi`.
    pub(crate) fn remove(&mut self, lo: u32, hi: u32)
        ensures pieces { self.new.pieces ≡ outside lo hi self.old.pieces }
        ensures spares { self.new.spares ≡ self.old.spares }
        ensures rising { Rises 0 self.new.pieces 1048576 }
    {
        clear_out(&mut self.pieces, lo, hi);
    }

    /// Puts a piece in place of the one that begins where it does.
    pub(crate) fn replace(&mut self, piece: Piece<T>)
        requires found { Begins piece.lo (next_of piece.lo self.old.pieces) }
        requires rising { Rises 0 (inserted piece (removed piece.lo self.old.pieces)) 1048576 }
        ensures pieces { self.new.pieces ≡ inserted piece (removed piece.lo self.old.pieces) }
        ensures spares { self.new.spares ≡ self.old.spares }
    {
        put_over(&mut self.pieces, piece);
    }

    /// Puts a piece in place of the two of which it is made.
    pub(crate) fn unite(&mut self, whole: Piece<T>)
        requires rising { Rises 0 (inserted whole (removed whole.lo (removed whole.lo self.old.pieces))) 1048576 }
        requires found { is_some (next_of whole.lo self.old.pieces) ≡ true }
        ensures pieces { self.new.pieces ≡ inserted whole (removed whole.lo (removed whole.lo self.old.pieces)) }
        ensures spares { self.new.spares ≡ self.old.spares }
    {
        take_out(&mut self.pieces, whole.lo);
        take_out(&mut self.pieces, whole.lo);
        put_in(&mut self.pieces, whole);
    }

    /// A copy of the map. It takes memory for its pieces.
    pub(crate) fn copy(&self, alloc: Global) -> Result<FlatMap<T>, AllocError>
        ensures { IfOk result (λ copy. copy.pieces ≡ self.now.pieces) }
    {
        let pieces = Vec::from_slice(alloc, self.pieces.as_slice())?;
        Ok(FlatMap { pieces, spares: 0 })
    }
}

/// The place of the first piece that ends behind a cell, or the end.
fn place_of<T: Copy>(pieces: &[Piece<T>], cell: u32) -> usize
    ensures { result ≡ place cell pieces.now }
{
    for at in 0..pieces.len() {
        if cell < pieces[at].hi {
            return at;
        }
    }
    pieces.len()
}

/// The first piece that ends behind a cell.
fn next_in<T: Copy>(pieces: &[Piece<T>], cell: u32) -> Option<Piece<T>>
    ensures { result ≡ next_of cell pieces.now }
{
    let at = place_of(pieces, cell);
    if at < pieces.len() {
        Some(pieces[at])
    } else {
        None
    }
}

/// Puts a piece at a place, where there is room for one more.
fn put_at<T: Copy>(pieces: &mut Vec<Piece<T>>, at: usize, piece: Piece<T>)
    requires within { at ≤ length pieces.old.items }
    requires room { length pieces.old.items < vec_capacity pieces.old }
    ensures items { pieces.new.items ≡ insert pieces.old.items at piece }
    ensures count { length pieces.new.items ≡ length pieces.old.items + 1 }
    ensures room { vec_capacity pieces.old ≤ vec_capacity pieces.new }
{
    match pieces.insert(at, piece) {
        Ok(()) => {}
        Err(_) => unreachable!(),
    }
}

/// Puts a piece where no other is.
fn put_in<T: Copy>(pieces: &mut Vec<Piece<T>>, piece: Piece<T>)
    requires room { length pieces.old.items < vec_capacity pieces.old }
    requires rising { Rises 0 (inserted piece pieces.old.items) 1048576 }
    ensures items { pieces.new.items ≡ inserted piece pieces.old.items }
    ensures count { length pieces.new.items ≡ length pieces.old.items + 1 }
    ensures room { vec_capacity pieces.old ≤ vec_capacity pieces.new }
{
    let at = place_of(pieces.as_slice(), piece.lo);
    put_at(pieces, at, piece);
}

/// Takes the first piece out that ends behind a cell, if there is one.
fn take_out<T: Copy>(pieces: &mut Vec<Piece<T>>, cell: u32)
    ensures items { pieces.new.items ≡ removed cell pieces.old.items }
    ensures count { length pieces.new.items ≤ length pieces.old.items }
    ensures fewer { is_some (next_of cell pieces.old.items) ≡ true →
        length pieces.new.items + 1 ≡ length pieces.old.items }
    ensures room { vec_capacity pieces.old ≤ vec_capacity pieces.new }
{
    let at = place_of(pieces.as_slice(), cell);
    if at < pieces.len() {
        let _gone = pieces.remove(at);
    }
}

/// Puts a piece in place of the first that ends behind its first cell.
fn put_over<T: Copy>(pieces: &mut Vec<Piece<T>>, piece: Piece<T>)
    requires found { is_some (next_of piece.lo pieces.old.items) ≡ true }
    requires rising { Rises 0 pieces.old.items 1048576 }
    ensures items { pieces.new.items ≡ inserted piece (removed piece.lo pieces.old.items) }
    ensures count { length pieces.new.items ≡ length pieces.old.items }
    ensures room { vec_capacity pieces.new ≡ vec_capacity pieces.old }
{
    let at = place_of(pieces.as_slice(), piece.lo);
    pieces[at] = piece;
}

/// Cuts the piece that has this cell and the one before it.
fn part<T: Copy>(pieces: &mut Vec<Piece<T>>, cell: u32)
    requires { length pieces.old.items < vec_capacity pieces.old }
    ensures items { pieces.new.items ≡ cut_at cell pieces.old.items }
    ensures count { length pieces.new.items ≤ length pieces.old.items + 1 }
    ensures room { vec_capacity pieces.old ≤ vec_capacity pieces.new }
{
    let at = place_of(pieces.as_slice(), cell);
    if pieces.len() <= at {
        return;
    }
    let piece = pieces[at];
    if cell <= piece.lo {
        return;
    }
    pieces[at] = Piece {
        lo: piece.lo,
        hi: cell,
        value: piece.value,
    };
    put_at(
        pieces,
        at + 1,
        Piece {
            lo: cell,
            hi: piece.hi,
            value: piece.value,
        },
    );
}

/// Takes the pieces out that have a cell from `lo` up to `hi`.
fn clear_out<T: Copy>(pieces: &mut Vec<Piece<T>>, lo: u32, hi: u32)
    requires { Rises 0 pieces.old.items 1048576 }
    ensures items { pieces.new.items ≡ outside lo hi pieces.old.items }
    ensures count { length pieces.new.items ≤ length pieces.old.items }
    ensures room { vec_capacity pieces.old ≤ vec_capacity pieces.new }
{
    while begins_before(next_in(pieces.as_slice(), lo), hi) {
        take_out(pieces, lo);
    }
}
