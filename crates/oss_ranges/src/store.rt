//! Where a map keeps its pieces: in one block while they are few, and from then on in a balanced tree.

ghost use Rattle.std.specs.Prelude.{◌≡◌, ◌≤◌, ◌<◌, ◌+◌, true, is_some, IfOk, IsOk, OnOk};
ghost use Rattle.oss_ranges.specs.Cells.{Begins, Rises, cut_at, inserted, next_of, outside, removed};
ghost use Rattle.oss_ranges.specs.Stores.{kept_of};

use crate::flat_map::FlatMap;
use crate::piece::Piece;
use crate::tree_map::TreeMap;
use std::alloc::{AllocError, Global};

/// The pieces of a map, and the room that is held for changes to come. What a change asks for is there in both
/// forms, so a map goes over to a tree where room is made, and nowhere else.
#[derive(Drop)]
pub(crate) enum Store<T: Copy> {
    /// A list, for few pieces: a map of one takes one piece of memory.
    Flat(FlatMap<T>),
    /// A balanced tree. It stays one if pieces go away. It stands in a box, so that a map of few pieces is no larger
    /// than its list.
    Tree(Box<TreeMap<T>>),
}

impl<T: Copy> Store<T> {
    /// The first piece that ends behind a cell. It takes no memory.
    pub(crate) fn next(&self, cell: u32) -> Option<Piece<T>>
        ensures found { result ≡ next_of cell (kept_of self.now).pieces }
        ensures rising { Rises 0 (kept_of self.now).pieces 1048576 }
    {
        match self {
            Store::Flat(flat) => flat.next(cell),
            Store::Tree(tree) => tree.next(cell),
        }
    }

    /// Whether room for so many more pieces is to be made in a tree, and there is none.
    fn outgrows(&self, more: usize) -> bool
        ensures { result ≡ true → (kept_of self.now).spares < more }
    {
        match self {
            Store::Flat(flat) => !flat.fits(more),
            Store::Tree(_) => false,
        }
    }

    /// Makes room for so many more pieces.
    pub(crate) fn prepare(&mut self, alloc: Global, more: usize) -> Result<(), AllocError>
        requires { Rises 0 (kept_of self.old).pieces 1048576 }
        ensures same { (kept_of self.new).pieces ≡ (kept_of self.old).pieces }
        ensures ready { OnOk result (more ≤ (kept_of self.new).spares) }
        ensures room { more ≤ (kept_of self.old).spares → IsOk result }
        ensures spares { (kept_of self.old).spares ≤ (kept_of self.new).spares }
        ensures rising { Rises 0 (kept_of self.new).pieces 1048576 }
    {
        if self.outgrows(more) {
            self.grow(alloc, more)
        } else {
            self.stock(alloc, more)
        }
    }

    /// Goes over to a tree with room for so many more pieces.
    fn grow(&mut self, alloc: Global, more: usize) -> Result<(), AllocError>
        requires rising { Rises 0 (kept_of self.old).pieces 1048576 }
        requires less { (kept_of self.old).spares < more }
        ensures same { (kept_of self.new).pieces ≡ (kept_of self.old).pieces }
        ensures ready { OnOk result (more ≤ (kept_of self.new).spares) }
        ensures spares { (kept_of self.old).spares ≤ (kept_of self.new).spares }
        ensures rising { Rises 0 (kept_of self.new).pieces 1048576 }
    {
        let tree = as_tree(alloc, self, more)?;
        *self = Store::Tree(tree);
        Ok(())
    }

    /// Makes room for so many more pieces where they are kept now.
    fn stock(&mut self, alloc: Global, more: usize) -> Result<(), AllocError>
        ensures same { (kept_of self.new).pieces ≡ (kept_of self.old).pieces }
        ensures ready { OnOk result (more ≤ (kept_of self.new).spares) }
        ensures room { more ≤ (kept_of self.old).spares → IsOk result }
        ensures spares { (kept_of self.old).spares ≤ (kept_of self.new).spares }
        ensures rising { Rises 0 (kept_of self.new).pieces 1048576 }
    {
        match self {
            Store::Flat(flat) => flat.prepare(more),
            Store::Tree(tree) => tree.prepare(alloc, more),
        }
    }

    /// Puts a piece where no other is.
    pub(crate) fn insert(&mut self, piece: Piece<T>)
        requires room { 0 < (kept_of self.old).spares }
        requires rising { Rises 0 (inserted piece (kept_of self.old).pieces) 1048576 }
        ensures pieces { (kept_of self.new).pieces ≡ inserted piece (kept_of self.old).pieces }
        ensures spares { (kept_of self.old).spares ≡ (kept_of self.new).spares + 1 }
    {
        match self {
            Store::Flat(flat) => flat.insert(piece),
            Store::Tree(tree) => tree.insert(piece),
        }
    }

    /// Cuts the piece that has this cell and the one before it.
    pub(crate) fn cut(&mut self, cell: u32)
        requires { 0 < (kept_of self.old).spares }
        ensures pieces { (kept_of self.new).pieces ≡ cut_at cell (kept_of self.old).pieces }
        ensures spares { (kept_of self.old).spares ≤ (kept_of self.new).spares + 1 }
        ensures rising { Rises 0 (kept_of self.new).pieces 1048576 }
    {
        match self {
            Store::Flat(flat) => flat.cut(cell),
            Store::Tree(tree) => tree.cut(cell),
        }
    }

    /// Removes the pieces that have a cell from `lo` up to `hi`.
    pub(crate) fn remove(&mut self, lo: u32, hi: u32)
        ensures pieces { (kept_of self.new).pieces ≡ outside lo hi (kept_of self.old).pieces }
        ensures spares { (kept_of self.new).spares ≡ (kept_of self.old).spares }
        ensures rising { Rises 0 (kept_of self.new).pieces 1048576 }
    {
        match self {
            Store::Flat(flat) => flat.remove(lo, hi),
            Store::Tree(tree) => tree.remove(lo, hi),
        }
    }

    /// Puts a piece in place of the one that begins where it does. It takes no memory.
    pub(crate) fn replace(&mut self, piece: Piece<T>)
        requires found { Begins piece.lo (next_of piece.lo (kept_of self.old).pieces) }
        requires rising { Rises 0 (inserted piece (removed piece.lo (kept_of self.old).pieces)) 1048576 }
        ensures pieces { (kept_of self.new).pieces ≡ inserted piece (removed piece.lo (kept_of self.old).pieces) }
        ensures spares { (kept_of self.new).spares ≡ (kept_of self.old).spares }
    {
        match self {
            Store::Flat(flat) => flat.replace(piece),
            Store::Tree(tree) => tree.replace(piece),
        }
    }

    /// Puts a piece in place of the two of which it is made. It takes no memory.
    pub(crate) fn unite(&mut self, whole: Piece<T>)
        requires rising { Rises 0 (inserted whole (removed whole.lo (removed whole.lo (kept_of self.old).pieces)))
            1048576 }
        requires found { is_some (next_of whole.lo (kept_of self.old).pieces) ≡ true }
        ensures pieces { (kept_of self.new).pieces ≡
            inserted whole (removed whole.lo (removed whole.lo (kept_of self.old).pieces)) }
        ensures spares { (kept_of self.new).spares ≡ (kept_of self.old).spares }
    {
        match self {
            Store::Flat(flat) => flat.unite(whole),
            Store::Tree(tree) => tree.unite(whole),
        }
    }

    /// A copy of the pieces, in the same form. It takes memory for them.
    pub(crate) fn copy(&self, alloc: Global) -> Result<Store<T>, AllocError>
        requires { Rises 0 (kept_of self.now).pieces 1048576 }
        ensures { IfOk result (λ copy. (kept_of copy).pieces ≡ (kept_of self.now).pieces) }
    {
        match self {
            Store::Flat(flat) => {
                let copy = flat.copy(alloc)?;
                Ok(Store::Flat(copy))
            }
            Store::Tree(_) => {
                let copy = as_tree(alloc, self, 0)?;
                Ok(Store::Tree(copy))
            }
        }
    }
}

/// A tree with the pieces of a map, and room for so many more.
fn as_tree<T: Copy>(
    alloc: Global,
    store: &Store<T>,
    more: usize,
) -> Result<Box<TreeMap<T>>, AllocError>
    requires { Rises 0 (kept_of store.now).pieces 1048576 }
    ensures { IfOk result (λ tree. (tree.value.pieces ≡ (kept_of store.now).pieces) × (more ≤ tree.value.spares)) }
{
    let mut tree = TreeMap::new(alloc);
    let mut from = 0;
    'pieces: while let Some(piece) = store.next(from) {
        tree.prepare(alloc, 1)?;
        tree.insert(piece);
        from = piece.hi;
    }
    tree.prepare(alloc, more)?;
    let tree = Box::new(alloc, tree)?;
    Ok(tree)
}
