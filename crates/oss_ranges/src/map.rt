//! The range map: pieces in a list or a tree, and room that is taken before a change, so that it is made as a whole
//! or not at all.

ghost use Rattle.std.specs.Prelude.{◌≡◌, ◌≤◌, ◌<◌, ◌+◌, ◌*◌, ◌^◌, ◌⊎◌, [], ◌∷◌, ℕ, true, Some, None, is_some, IfOk, IsOk, OnOk, OnErr};
ghost use Rattle.oss_ranges.specs.Cells.{Assigns, Begins, Cuts, CutsAround, EdgesFrom, IsEdge, IsExactly, IsMerged, Restricts, Rises, SameMap, cut_at, emptied, front_of, inserted, is_before, joined_at, next_of, outside, removed, union_of, value_at};
ghost use Rattle.oss_ranges.specs.Stores.{kept_of};

use crate::flat_map::FlatMap;
use crate::piece::{Piece, begins_before};
use crate::pieces::Pieces;
use crate::store::Store;
use oss_syntax::Range;
use std::alloc::{AllocError, Global};
use std::marker::Model;

/// For how many more pieces one call may need room that changes the map: two for the cuts at the ends of a range,
/// and one for a new piece.
const MORE: usize = 3;

/// A program has no cell from here on.
const CELLS: u32 = 1_048_576;

/// A finite map from cells to values. Cells that stand side by side and have one value are kept as one piece,
/// so that a call costs what its pieces cost, however many cells they have.
pub struct RangeMap<T: Copy + Eq> {
    alloc: Global,
    /// The pieces, none of which is empty.
    store: Store<T>,
}

// By hand, so that who lets one go calls this, and does not take it apart at each exit.
impl<T: Copy + Eq> Drop for RangeMap<T> {
    fn drop(self) {
        let RangeMap { alloc: _, store } = self;
        drop(store);
    }
}

impl<T: Copy + Eq> Model for RangeMap<T> {
    ghost use Rattle.oss_ranges.specs.Cells.{Kept, Rises};
    ghost use Rattle.oss_ranges.specs.Stores.{kept_of};

    ghost Value = { Kept T };

    ghost view = { λ m. kept_of m.store };

    ghost invariant = { λ m. Rises 0 (kept_of m.store).pieces 1048576 };
}

impl<T: Copy + Eq> RangeMap<T> {
    /// The map that gives no cell a value. It takes no memory.
    pub fn new(alloc: Global) -> RangeMap<T>
        ensures { result.pieces ≡ [] }
    {
        RangeMap {
            alloc,
            store: Store::Flat(FlatMap::new(alloc)),
        }
    }

    /// The value of a cell. It takes no memory.
    pub fn get(&self, cell: u32) -> Option<T>
        ensures { result ≡ value_at self.now.pieces cell }
    {
        match self.next(cell) {
            Some(piece) => piece.value_at_or_behind(cell),
            None => None,
        }
    }

    /// The value of the cell `from`, if it has one, and the cell up to which all cells are alike: `to` at most.
    /// No cell from 1,048,576 on has a value. It takes no memory.
    pub fn run_from(&self, from: u32, to: u32) -> (Option<T>, u32)
        requires { from < to }
        ensures alike { (cell : ℕ) → from ≤ cell → cell < result.1 → value_at self.now.pieces cell ≡ result.0 }
        ensures some { from < result.1 }
        ensures within { result.1 ≤ to }
        ensures whole { (result.1 ≡ to) ⊎ IsEdge result.1 self.now.pieces }
        ensures past { (cell : ℕ) → 1048576 ≤ cell → value_at self.now.pieces cell ≡ None }
    {
        match self.next(from) {
            Some(piece) => {
                if piece.lo <= from {
                    (Some(piece.value), piece.hi.min(to))
                } else {
                    (None, piece.lo.min(to))
                }
            }
            None => (None, to),
        }
    }

    /// The map on a range: its pieces in rising order, cut at the ends of the range. It takes no memory.
    pub fn over(&self, range: Range) -> Pieces<'_, T>
        ensures map { Restricts range.lo range.hi self.now.pieces result }
        ensures rising { Rises range.lo result range.hi }
    {
        Pieces::of(&self.store, range)
    }

    /// Gives all cells of a range this value. After want of memory the map is as it was.
    pub fn assign(&mut self, range: Range, value: T) -> Result<(), AllocError>
        ensures map { OnOk result (Assigns range.lo range.hi (Some value) self.old.pieces self.new.pieces) }
        ensures cuts { OnOk result (CutsAround range.lo range.hi self.old.pieces self.new.pieces) }
        ensures edges { OnOk result (EdgesFrom range.lo range.hi self.old.pieces self.new.pieces) }
        ensures refused { OnErr result (self.new.pieces ≡ self.old.pieces) }
        ensures room { 3 ≤ self.old.spares → IsOk result }
        ensures spares { self.old.spares ≤ self.new.spares + 3 }
    {
        self.put(
            range,
            Piece {
                lo: range.lo,
                hi: range.hi,
                value,
            },
        )?;
        Ok(())
    }

    /// Takes the values of all cells of a range away. After want of memory the map is as it was. Where no cell
    /// of the range has a value it takes no memory.
    pub fn clear(&mut self, range: Range) -> Result<(), AllocError>
        ensures map { OnOk result (Assigns range.lo range.hi None self.old.pieces self.new.pieces) }
        ensures cuts { OnOk result (CutsAround range.lo range.hi self.old.pieces self.new.pieces) }
        ensures edges { OnOk result (EdgesFrom range.lo range.hi self.old.pieces self.new.pieces) }
        ensures refused { OnErr result (self.new.pieces ≡ self.old.pieces) }
        ensures room { 3 ≤ self.old.spares → IsOk result }
        ensures spares { self.old.spares ≤ self.new.spares + 3 }
    {
        if self.has_within(range) {
            self.prepare(MORE)?;
            self.empty(range);
        }
        Ok(())
    }

    /// Takes the values of the cells from this one on away. After want of memory the map is as it was. Where
    /// none of them has a value it takes no memory.
    pub fn truncate(&mut self, cells: u32) -> Result<(), AllocError>
        ensures here { OnOk result ((cell : ℕ) → cell < cells →
            value_at self.new.pieces cell ≡ value_at self.old.pieces cell) }
        ensures past { OnOk result ((cell : ℕ) → cells ≤ cell → value_at self.new.pieces cell ≡ None) }
        ensures edges { OnOk result (EdgesFrom cells 1048576 self.old.pieces self.new.pieces) }
        ensures refused { OnErr result (self.new.pieces ≡ self.old.pieces) }
        ensures room { 3 ≤ self.old.spares → IsOk result }
        ensures spares { self.old.spares ≤ self.new.spares + 3 }
    {
        // the invariant is known where a field is read
        let _ = &self.alloc;
        if cells < CELLS {
            self.clear(Range {
                lo: cells,
                hi: CELLS,
            })?;
        }
        Ok(())
    }

    /// Cuts the piece that has this cell and the one before it in two, so that no piece has both. No cell
    /// changes its value. After want of memory the map is as it was.
    pub fn split_at(&mut self, cell: u32) -> Result<(), AllocError>
        ensures map { SameMap self.old.pieces self.new.pieces }
        ensures cuts { OnOk result (Cuts cell self.old.pieces self.new.pieces) }
        ensures edges { OnOk result (EdgesFrom cell cell self.old.pieces self.new.pieces) }
        ensures refused { OnErr result (self.new.pieces ≡ self.old.pieces) }
        ensures room { 3 ≤ self.old.spares → IsOk result }
        ensures spares { self.old.spares ≤ self.new.spares + 3 }
    {
        self.prepare(MORE)?;
        self.cut(cell);
        Ok(())
    }

    /// Makes room: as many calls of `assign`, `clear`, `truncate` and `split_at` succeed from here on. The map
    /// stays as it was.
    pub fn reserve(&mut self, calls: u32) -> Result<(), AllocError>
        ensures same { self.new.pieces ≡ self.old.pieces }
        ensures room { OnOk result (3 * calls ≤ self.new.spares) }
        ensures enough { 3 * calls ≤ self.old.spares → IsOk result }
        ensures spares { self.old.spares ≤ self.new.spares }
    {
        self.prepare(MORE * calls as usize)
    }

    /// The same for any number of calls. So many that their room is no number of 64 bits want memory.
    pub fn reserve_all(&mut self, calls: usize) -> Result<(), AllocError>
        ensures same { self.new.pieces ≡ self.old.pieces }
        ensures room { OnOk result (3 * calls ≤ self.new.spares) }
        ensures enough { 3 * calls < 2 ^ 64 → 3 * calls ≤ self.old.spares → IsOk result }
        ensures spares { self.old.spares ≤ self.new.spares }
    {
        let more = room_of(calls)?;
        self.prepare(more)
    }

    /// Joins the pieces that end and begin at this cell, where they have one value, so that they are one piece.
    /// No cell changes its value, where equal values are identical. It takes no memory.
    pub fn join_at(&mut self, cell: u32)
        requires { (a b : T) → T.eq a b ≡ true → a ≡ b }
        ensures map { SameMap self.old.pieces self.new.pieces }
        ensures pieces { self.new.pieces ≡ joined_at T.eq cell self.old.pieces }
        ensures spares { self.new.spares ≡ self.old.spares }
    {
        join(&mut self.store, cell);
    }

    /// Joins all pieces that touch and have one value. No cell changes its value, where equal values are
    /// identical. It takes no memory.
    pub fn merge_same(&mut self)
        requires { (a b : T) → T.eq a b ≡ true → a ≡ b }
        ensures map { SameMap self.old.pieces self.new.pieces }
        ensures merged { IsMerged T.eq self.new.pieces }
        ensures spares { self.new.spares ≡ self.old.spares }
    {
        merge(&mut self.store);
    }

    /// A copy of the map. It takes memory for its pieces.
    pub fn copy(&self) -> Result<RangeMap<T>, AllocError>
        ensures { IfOk result (λ copy. copy.pieces ≡ self.now.pieces) }
    {
        let store = self.store.copy(self.alloc)?;
        Ok(RangeMap {
            alloc: self.alloc,
            store,
        })
    }

    /// The first piece that ends behind a cell. It takes no memory.
    fn next(&self, cell: u32) -> Option<Piece<T>>
        ensures found { result ≡ next_of cell self.now.pieces }
        ensures rising { Rises 0 self.now.pieces 1048576 }
    {
        self.store.next(cell)
    }

    /// Puts a piece with the cells of a range in place of what is there. It asks for room for one more where no cell
    /// of the range has a value or one piece ends with it, and no memory where one piece has the cells of the range
    /// and no others.
    fn put(&mut self, range: Range, piece: Piece<T>) -> Result<(), AllocError>
        requires begins { piece.lo ≡ range.lo }
        requires ends { piece.hi ≡ range.hi }
        ensures pieces { OnOk result (self.new.pieces ≡ inserted piece (emptied range.lo range.hi self.old.pieces)) }
        ensures refused { OnErr result (self.new.pieces ≡ self.old.pieces) }
        ensures room { 3 ≤ self.old.spares → IsOk result }
        ensures spares { self.old.spares ≤ self.new.spares + 3 }
        ensures rising { Rises 0 self.old.pieces 1048576 }
    {
        let next = self.next(range.lo);
        if is_exactly(next, range) {
            self.replace(piece);
            return Ok(());
        }
        match front(next, range) {
            Some(front) => self.put_behind(range, front, piece),
            None => self.put_between(range, next, piece),
        }
    }

    /// The same where a piece begins before the range and ends with it: that one keeps its front.
    fn put_behind(
        &mut self,
        range: Range,
        front: Piece<T>,
        piece: Piece<T>,
    ) -> Result<(), AllocError>
        requires begins { piece.lo ≡ range.lo }
        requires ends { piece.hi ≡ range.hi }
        requires front { front_of range.lo range.hi (next_of range.lo self.old.pieces) ≡ Some front }
        ensures pieces { OnOk result (self.new.pieces ≡ inserted piece (emptied range.lo range.hi self.old.pieces)) }
        ensures refused { OnErr result (self.new.pieces ≡ self.old.pieces) }
        ensures room { 3 ≤ self.old.spares → IsOk result }
        ensures spares { self.old.spares ≤ self.new.spares + 3 }
    {
        self.prepare(1)?;
        self.replace(front);
        self.insert(piece);
        Ok(())
    }

    /// The same where none does, and this is the first piece that ends behind the first cell of the range.
    fn put_between(
        &mut self,
        range: Range,
        next: Option<Piece<T>>,
        piece: Piece<T>,
    ) -> Result<(), AllocError>
        requires begins { piece.lo ≡ range.lo }
        requires ends { piece.hi ≡ range.hi }
        requires next { next ≡ next_of range.lo self.old.pieces }
        requires rising { Rises 0 self.old.pieces 1048576 }
        ensures pieces { OnOk result (self.new.pieces ≡ inserted piece (emptied range.lo range.hi self.old.pieces)) }
        ensures refused { OnErr result (self.new.pieces ≡ self.old.pieces) }
        ensures room { 3 ≤ self.old.spares → IsOk result }
        ensures spares { self.old.spares ≤ self.new.spares + 3 }
    {
        if begins_before(next, range.hi) {
            self.prepare(MORE)?;
            self.empty(range);
            self.insert(piece);
        } else {
            self.prepare(1)?;
            self.insert(piece);
        }
        Ok(())
    }

    /// Puts a piece in place of the one that begins where it does. It takes no memory.
    fn replace(&mut self, piece: Piece<T>)
        requires found { Begins piece.lo (next_of piece.lo self.old.pieces) }
        requires rising { Rises 0 (inserted piece (removed piece.lo self.old.pieces)) 1048576 }
        ensures pieces { self.new.pieces ≡ inserted piece (removed piece.lo self.old.pieces) }
        ensures spares { self.new.spares ≡ self.old.spares }
    {
        self.store.replace(piece);
    }

    /// Whether a cell of a range has a value. It takes no memory.
    fn has_within(&self, range: Range) -> bool
        ensures within { result ≡ is_before (next_of range.lo self.now.pieces) range.hi }
        ensures rising { Rises 0 self.now.pieces 1048576 }
    {
        begins_before(self.next(range.lo), range.hi)
    }

    /// Makes room for so many more pieces.
    fn prepare(&mut self, more: usize) -> Result<(), AllocError>
        ensures same { self.new.pieces ≡ self.old.pieces }
        ensures ready { OnOk result (more ≤ self.new.spares) }
        ensures room { more ≤ self.old.spares → IsOk result }
        ensures spares { self.old.spares ≤ self.new.spares }
        ensures rising { Rises 0 self.new.pieces 1048576 }
    {
        self.store.prepare(self.alloc, more)
    }

    /// Puts a piece where no other is.
    fn insert(&mut self, piece: Piece<T>)
        requires room { 0 < self.old.spares }
        requires rising { Rises 0 (inserted piece self.old.pieces) 1048576 }
        ensures pieces { self.new.pieces ≡ inserted piece self.old.pieces }
        ensures spares { self.old.spares ≡ self.new.spares + 1 }
    {
        self.store.insert(piece);
    }

    /// Cuts the piece that has this cell and the one before it.
    fn cut(&mut self, cell: u32)
        requires { 0 < self.old.spares }
        ensures pieces { self.new.pieces ≡ cut_at cell self.old.pieces }
        ensures spares { self.old.spares ≤ self.new.spares + 1 }
    {
        self.store.cut(cell);
    }

    /// Takes the values of the cells of a range away.
    fn empty(&mut self, range: Range)
        requires { 2 ≤ self.old.spares }
        ensures pieces { self.new.pieces ≡ emptied range.lo range.hi self.old.pieces }
        ensures spares { self.old.spares ≤ self.new.spares + 2 }
    {
        self.cut(range.lo);
        self.cut(range.hi);
        self.remove(range);
    }

    /// Removes the pieces that have a cell of a range.
    fn remove(&mut self, range: Range)
        ensures pieces { self.new.pieces ≡ outside range.lo range.hi self.old.pieces }
        ensures spares { self.new.spares ≡ self.old.spares }
    {
        self.store.remove(range.lo, range.hi);
    }
}

/// Whether a piece has the cells of a range and no others.
fn is_exactly<T: Copy>(piece: Option<Piece<T>>, range: Range) -> bool
    ensures { result ≡ true → IsExactly range.lo range.hi piece }
{
    match piece {
        Some(piece) => piece.lo == range.lo && piece.hi == range.hi,
        None => false,
    }
}

/// The part of a piece before a range that the piece begins before and ends with, if it does.
fn front<T: Copy>(piece: Option<Piece<T>>, range: Range) -> Option<Piece<T>>
    ensures { result ≡ front_of range.lo range.hi piece }
{
    let piece = piece?;
    if piece.lo < range.lo && piece.hi == range.hi {
        Some(Piece {
            lo: piece.lo,
            hi: range.lo,
            value: piece.value,
        })
    } else {
        None
    }
}

/// Joins the pieces that end and begin at a cell, where they have one value.
fn join<T: Copy + Eq>(store: &mut Store<T>, cell: u32)
    ensures pieces { (kept_of store.new).pieces ≡ joined_at T.eq cell (kept_of store.old).pieces }
    ensures spares { (kept_of store.new).spares ≡ (kept_of store.old).spares }
    ensures rising { Rises 0 (kept_of store.new).pieces 1048576 }
{
    let front = store.next(cell.saturating_sub(1));
    match union(front, store.next(cell), cell) {
        Some(whole) => store.unite(whole),
        None => {}
    }
}

/// Joins all pieces that touch and have one value.
fn merge<T: Copy + Eq>(store: &mut Store<T>)
    requires rising { Rises 0 (kept_of store.old).pieces 1048576 }
    requires same { (a b : T) → T.eq a b ≡ true → a ≡ b }
    ensures map { SameMap (kept_of store.old).pieces (kept_of store.new).pieces }
    ensures merged { IsMerged T.eq (kept_of store.new).pieces }
    ensures spares { (kept_of store.new).spares ≡ (kept_of store.old).spares }
    ensures rising { Rises 0 (kept_of store.new).pieces 1048576 }
{
    let mut from = 0;
    'pieces: while let Some(piece) = store.next(from) {
        from = piece.hi;
        join(store, from);
    }
}

/// Two pieces as one, where they touch at a cell and have one value.
fn union<T: Copy + Eq>(
    front: Option<Piece<T>>,
    back: Option<Piece<T>>,
    cell: u32,
) -> Option<Piece<T>>
    ensures { result ≡ union_of T.eq cell front back }
{
    match (front, back) {
        (Some(front), Some(back)) => {
            if front.hi == cell && back.lo == cell && front.value == back.value {
                Some(Piece {
                    lo: front.lo,
                    hi: back.hi,
                    value: front.value,
                })
            } else {
                None
            }
        }
        _ => None,
    }
}

/// How many more pieces so many calls may need room for, where that is a number of 64 bits. It takes no memory, and any other
/// number is told as want of it.
fn room_of(calls: usize) -> Result<usize, AllocError>
    ensures room { IfOk result (λ room. room ≡ 3 * calls) }
    ensures fits { 3 * calls < 2 ^ 64 → IsOk result }
{
    match calls.checked_mul(MORE) {
        Some(room) => Ok(room),
        None => Err(AllocError),
    }
}
