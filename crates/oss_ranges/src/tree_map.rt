//! A map as a balanced tree, and spare nodes that are taken before a change, so that it is made as a whole or not at
//! all.

ghost use Rattle.std.specs.Prelude.{◌≡◌, ◌≤◌, ◌<◌, ◌+◌, [], Some, true, is_some, IsOk, OnOk, length};
ghost use Rattle.oss_ranges.specs.Cells.{Begins, Rises, cut_at, inserted, next_of, outside, removed};

use crate::piece::{Piece, begins_before};
use crate::tree::{Node, Tree};
use std::alloc::{AllocError, Global};
use std::marker::Model;
use std::mem;

/// The pieces of a map in a balanced tree.
pub(crate) struct TreeMap<T: Copy> {
    /// The pieces, none of which is empty.
    tree: Tree<T>,
    /// Nodes for changes to come. Nodes of pieces that go away are freed, and not put here.
    spares: Vec<Box<Node<T>>>,
}

// By hand, so that who lets one go calls this, and does not take it apart at each exit.
impl<T: Copy> Drop for TreeMap<T> {
    fn drop(self) {
        let TreeMap { tree, spares } = self;
        drop(tree);
        drop(spares);
    }
}

impl<T: Copy> Model for TreeMap<T> {
    ghost use Rattle.std.specs.Prelude.{length};
    ghost use Rattle.oss_ranges.specs.Cells.{Kept, Rises};

    ghost Value = { Kept T };

    ghost view = { λ m. record { pieces = m.tree; spares = length m.spares.items } };

    ghost invariant = { λ m. Rises 0 m.tree 1048576 };
}

impl<T: Copy> TreeMap<T> {
    /// A map without pieces. It takes no memory.
    pub(crate) fn new(alloc: Global) -> TreeMap<T>
        ensures { result.pieces ≡ [] }
    {
        TreeMap {
            tree: Tree::new(),
            spares: Vec::new(alloc),
        }
    }

    /// The first piece that ends behind a cell.
    pub(crate) fn next(&self, cell: u32) -> Option<Piece<T>>
        ensures found { result ≡ next_of cell self.now.pieces }
        ensures rising { Rises 0 self.now.pieces 1048576 }
    {
        self.tree.next(cell)
    }

    /// Takes nodes into reserve until there are so many.
    pub(crate) fn prepare(&mut self, alloc: Global, nodes: usize) -> Result<(), AllocError>
        ensures same { self.new.pieces ≡ self.old.pieces }
        ensures ready { OnOk result (nodes ≤ self.new.spares) }
        ensures room { nodes ≤ self.old.spares → IsOk result }
        ensures spares { self.old.spares ≤ self.new.spares }
        ensures rising { Rises 0 self.new.pieces 1048576 }
    {
        stock(alloc, nodes, &mut self.spares)
    }

    /// Puts a piece where no other is.
    pub(crate) fn insert(&mut self, piece: Piece<T>)
        requires room { 0 < self.old.spares }
        requires rising { Rises 0 (inserted piece self.old.pieces) 1048576 }
        ensures pieces { self.new.pieces ≡ inserted piece self.old.pieces }
        ensures spares { self.old.spares ≡ self.new.spares + 1 }
    {
        match self.spares.pop() {
            Some(node) => {
                self.tree = mem::replace(&mut self.tree, Tree::new()).with(piece, node);
            }
            None => unreachable!(),
        }
    }

    /// Cuts the piece that has this cell and the one before it.
    pub(crate) fn cut(&mut self, cell: u32)
        requires { 0 < self.old.spares }
        ensures pieces { self.new.pieces ≡ cut_at cell self.old.pieces }
        ensures spares { self.old.spares ≤ self.new.spares + 1 }
        ensures rising { Rises 0 self.new.pieces 1048576 }
    {
        match self.spares.pop() {
            Some(node) => {
                self.tree = parted(mem::replace(&mut self.tree, Tree::new()), cell, node);
            }
            None => unreachable!(),
        }
    }

    /// Removes the pieces that have a cell from `lo` up to `hi`.
    pub(crate) fn remove(&mut self, lo: u32, hi: u32)
        ensures pieces { self.new.pieces ≡ outside lo hi self.old.pieces }
        ensures spares { self.new.spares ≡ self.old.spares }
        ensures rising { Rises 0 self.new.pieces 1048576 }
    {
        self.tree = without_range(mem::replace(&mut self.tree, Tree::new()), lo, hi);
    }

    /// Puts a piece in place of the one that begins where it does, in the node of that one.
    pub(crate) fn replace(&mut self, piece: Piece<T>)
        requires found { Begins piece.lo (next_of piece.lo self.old.pieces) }
        requires rising { Rises 0 (inserted piece (removed piece.lo self.old.pieces)) 1048576 }
        ensures pieces { self.new.pieces ≡ inserted piece (removed piece.lo self.old.pieces) }
        ensures spares { self.new.spares ≡ self.old.spares }
    {
        self.tree = mem::replace(&mut self.tree, Tree::new()).replaced(piece);
    }

    /// Puts a piece in place of the two of which it is made, in the node of the first.
    pub(crate) fn unite(&mut self, whole: Piece<T>)
        requires rising { Rises 0 (inserted whole (removed whole.lo (removed whole.lo self.old.pieces))) 1048576 }
        requires found { is_some (next_of whole.lo self.old.pieces) ≡ true }
        ensures pieces { self.new.pieces ≡ inserted whole (removed whole.lo (removed whole.lo self.old.pieces)) }
        ensures spares { self.new.spares ≡ self.old.spares }
    {
        self.tree = as_one(mem::replace(&mut self.tree, Tree::new()), whole);
    }
}

/// Takes nodes into reserve until there are so many.
fn stock<T: Copy>(
    alloc: Global,
    nodes: usize,
    spares: &mut Vec<Box<Node<T>>>,
) -> Result<(), AllocError>
    ensures ready { OnOk result (nodes ≤ length spares.new.items) }
    ensures room { nodes ≤ length spares.old.items → IsOk result }
    ensures kept { length spares.old.items ≤ length spares.new.items }
{
    for count in spares.len()..nodes {
        let node = Box::new(alloc, Node::spare())?;
        match spares.push(node) {
            Ok(()) => {}
            Err(full) => return Err(AllocError::from(full)),
        }
    }
    Ok(())
}

/// The tree with the piece cut that has this cell and the one before it.
fn parted<T: Copy>(tree: Tree<T>, cell: u32, spare: Box<Node<T>>) -> Tree<T>
    requires { Rises 0 tree 1048576 }
    ensures { result ≡ cut_at cell tree }
{
    match tree.next(cell) {
        Some(piece) => {
            if piece.lo < cell {
                in_two(tree, piece, cell, spare)
            } else {
                tree
            }
        }
        None => tree,
    }
}

/// The tree with two parts of a piece in place of it.
fn in_two<T: Copy>(tree: Tree<T>, piece: Piece<T>, cell: u32, spare: Box<Node<T>>) -> Tree<T>
    requires rising { Rises 0 tree 1048576 }
    requires piece { next_of cell tree ≡ Some piece }
    requires inside { piece.lo < cell }
    ensures { result ≡ cut_at cell tree }
{
    let (node, rest) = tree.without(cell);
    let front = Piece {
        lo: piece.lo,
        hi: cell,
        value: piece.value,
    };
    let back = Piece {
        lo: cell,
        hi: piece.hi,
        value: piece.value,
    };
    match node {
        Some(node) => rest.with(front, node).with(back, spare),
        None => unreachable!(),
    }
}

/// The tree without the pieces that have a cell from `lo` up to `hi`.
fn without_range<T: Copy>(tree: Tree<T>, lo: u32, hi: u32) -> Tree<T>
    requires { Rises 0 tree 1048576 }
    ensures { result ≡ outside lo hi tree }
{
    let mut left = tree;
    while begins_before(left.next(lo), hi) {
        let (_, rest) = left.without(lo);
        left = rest;
    }
    left
}

/// The tree with this piece in place of the two of which it is made.
fn as_one<T: Copy>(tree: Tree<T>, whole: Piece<T>) -> Tree<T>
    requires rising { Rises 0 (inserted whole (removed whole.lo (removed whole.lo tree))) 1048576 }
    requires found { is_some (next_of whole.lo tree) ≡ true }
    ensures { result ≡ inserted whole (removed whole.lo (removed whole.lo tree)) }
{
    let (node, rest) = tree.without(whole.lo);
    let (_, rest) = rest.without(whole.lo);
    match node {
        Some(node) => rest.with(whole, node),
        None => unreachable!(),
    }
}
