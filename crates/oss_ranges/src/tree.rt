//! A balanced tree of pieces: the heights of two sides differ by one at most. Nodes come from the caller, so no
//! change takes memory.

ghost use Rattle.std.specs.Prelude.{◌≡◌, ◌≤◌, ◌<◌, [], ◌∷◌, ◌++◌, Some, None, is_some};
ghost use Rattle.oss_ranges.specs.Cells.{Begins, next_of, inserted, removed, Rises};
ghost use Rattle.oss_ranges.specs.Trees.{HasPiece, IsBetween, IsParted, IsTree, own, pieces_of};

use crate::piece::Piece;
use std::marker::Model;
use std::mem;

/// A balanced tree of pieces that lie one behind the other: contracts see them in their order.
#[cycle(tree)]
#[derive(Drop)]
pub(crate) struct Tree<T: Copy> {
    root: Root<T>,
}

/// The top of a tree, if it has any piece.
#[cycle(tree)]
#[derive(Drop)]
enum Root<T: Copy> {
    /// There is no piece.
    Leaf,
    /// This node is at the top.
    Fork(Box<Node<T>>),
}

/// A node of a tree. One that is in no tree has no piece and no sides.
#[cycle(tree)]
#[derive(Drop)]
pub(crate) struct Node<T: Copy> {
    /// The pieces before its own.
    left: Tree<T>,
    piece: Option<Piece<T>>,
    /// The height of the tree of which it is the top, noted so that balancing need not count.
    height: u32,
    /// The pieces behind its own.
    right: Tree<T>,
}

impl<T: Copy> Model for Tree<T> {
    ghost use Rattle.std.specs.Prelude.{List, length};
    ghost use Rattle.oss_ranges.specs.declared.piece.Piece.{Piece};

    ghost Value = { List (Piece T) };

    ghost use Rattle.oss_ranges.specs.Trees.{pieces_of, IsTree};

    ghost view = { λ t. pieces_of t.root };

    ghost invariant = { λ t. IsTree t.root };

    ghost size = { length };

    ghost use Rattle.oss_ranges.specs.TreeFalls.{falls};

    ghost size_decreases = { λ t h. falls t.root h };
}

impl<T: Copy> Tree<T> {
    /// A tree without pieces.
    pub(crate) fn new() -> Tree<T>
        ensures { result ≡ [] }
    {
        Tree { root: Root::Leaf }
    }

    /// How many nodes stand over one another, as it was noted; no contract speaks of it.
    fn height(&self) -> u32 {
        match &self.root {
            Root::Leaf => 0,
            Root::Fork(node) => node.height,
        }
    }

    /// The top of the tree.
    fn into_root(self) -> Root<T>
        ensures pieces { pieces_of result ≡ self }
        ensures whole { IsTree result }
    {
        self.root
    }

    /// The first piece that ends behind a cell.
    pub(crate) fn next(&self, cell: u32) -> Option<Piece<T>>
        ensures { result ≡ next_of cell self.now }
    {
        let mut tree = self;
        let mut found = None;
        'nodes: loop {
            match &tree.root {
                Root::Leaf => return found,
                Root::Fork(node) => {
                    let own = piece_of(node);
                    if cell < own.hi {
                        found = Some(own);
                        tree = &node.left;
                    } else {
                        tree = &node.right;
                    }
                }
            }
        }
    }
}

impl<T: Copy> Node<T> {
    /// A node that is in no tree.
    pub(crate) fn spare() -> Node<T>
        ensures { result.piece ≡ None }
    {
        Node {
            left: Tree::new(),
            piece: None,
            height: 1,
            right: Tree::new(),
        }
    }
}

/// The piece of a node that is in a tree.
fn piece_of<T: Copy>(node: &Node<T>) -> Piece<T>
    requires { HasPiece node.now.piece }
    ensures { node.now.piece ≡ Some result }
{
    match node.piece {
        Some(piece) => piece,
        None => unreachable!(),
    }
}

/// Takes both sides of a node.
fn sides<T: Copy>(node: &mut Node<T>) -> (Tree<T>, Tree<T>)
    ensures left { result.0 ≡ node.old.left }
    ensures right { result.1 ≡ node.old.right }
    ensures piece { node.new.piece ≡ node.old.piece }
{
    let left = mem::replace(&mut node.left, Tree::new());
    let right = mem::replace(&mut node.right, Tree::new());
    (left, right)
}

/// The tree of two sides with the piece of a node between them, which becomes its top.
fn over<T: Copy>(left: Tree<T>, mut top: Box<Node<T>>, right: Tree<T>) -> Tree<T>
    requires { IsBetween left top.value.piece right }
    ensures { result ≡ left ++ (own top.value.piece ++ right) }
{
    top.height = left.height().max(right.height()).saturating_add(1);
    top.left = left;
    top.right = right;
    Tree {
        root: Root::Fork(top),
    }
}

/// The same of sides whose heights may differ by two.
fn balanced<T: Copy>(left: Tree<T>, top: Box<Node<T>>, right: Tree<T>) -> Tree<T>
    requires { IsBetween left top.value.piece right }
    ensures { result ≡ left ++ (own top.value.piece ++ right) }
{
    if right.height().saturating_add(1) < left.height() {
        turned_right(left, top, right)
    } else if left.height().saturating_add(1) < right.height() {
        turned_left(left, top, right)
    } else {
        over(left, top, right)
    }
}

/// The same where the left side is too high.
fn turned_right<T: Copy>(left: Tree<T>, top: Box<Node<T>>, right: Tree<T>) -> Tree<T>
    requires { IsBetween left top.value.piece right }
    ensures { result ≡ left ++ (own top.value.piece ++ right) }
{
    match left.into_root() {
        Root::Leaf => over(Tree::new(), top, right),
        Root::Fork(mut high) => {
            let (outer, inner) = sides(&mut high);
            if outer.height() < inner.height() {
                raised_from_left(outer, high, inner, top, right)
            } else {
                over(outer, high, over(inner, top, right))
            }
        }
    }
}

/// The same where the higher part of the left side is its inner one.
fn raised_from_left<T: Copy>(
    outer: Tree<T>,
    high: Box<Node<T>>,
    inner: Tree<T>,
    top: Box<Node<T>>,
    right: Tree<T>,
) -> Tree<T>
    requires left { IsBetween outer high.value.piece inner }
    requires whole { IsBetween (outer ++ (own high.value.piece ++ inner)) top.value.piece right }
    ensures { result ≡ (outer ++ (own high.value.piece ++ inner)) ++ (own top.value.piece ++ right) }
{
    match inner.into_root() {
        Root::Leaf => over(outer, high, over(Tree::new(), top, right)),
        Root::Fork(mut middle) => {
            let (before, behind) = sides(&mut middle);
            over(over(outer, high, before), middle, over(behind, top, right))
        }
    }
}

/// The same where the right side is too high.
fn turned_left<T: Copy>(left: Tree<T>, top: Box<Node<T>>, right: Tree<T>) -> Tree<T>
    requires { IsBetween left top.value.piece right }
    ensures { result ≡ left ++ (own top.value.piece ++ right) }
{
    match right.into_root() {
        Root::Leaf => over(left, top, Tree::new()),
        Root::Fork(mut high) => {
            let (inner, outer) = sides(&mut high);
            if outer.height() < inner.height() {
                raised_from_right(left, top, inner, high, outer)
            } else {
                over(over(left, top, inner), high, outer)
            }
        }
    }
}

/// The same where the higher part of the right side is its inner one.
fn raised_from_right<T: Copy>(
    left: Tree<T>,
    top: Box<Node<T>>,
    inner: Tree<T>,
    high: Box<Node<T>>,
    outer: Tree<T>,
) -> Tree<T>
    requires right { IsBetween inner high.value.piece outer }
    requires whole { IsBetween left top.value.piece (inner ++ (own high.value.piece ++ outer)) }
    ensures { result ≡ left ++ (own top.value.piece ++ (inner ++ (own high.value.piece ++ outer))) }
{
    match inner.into_root() {
        Root::Leaf => over(over(left, top, Tree::new()), high, outer),
        Root::Fork(mut middle) => {
            let (before, behind) = sides(&mut middle);
            over(over(left, top, before), middle, over(behind, high, outer))
        }
    }
}

/// The tree of one piece, in this node.
fn single<T: Copy>(piece: Piece<T>, mut node: Box<Node<T>>) -> Tree<T>
    requires { Rises 0 (piece ∷ []) 1048576 }
    ensures { result ≡ piece ∷ [] }
{
    node.piece = Some(piece);
    over(Tree::new(), node, Tree::new())
}

/// The tree of two sides.
fn joined<T: Copy>(left: Tree<T>, right: Tree<T>) -> Tree<T>
    requires { Rises 0 (left ++ right) 1048576 }
    ensures { result ≡ left ++ right }
{
    let (first, rest) = right.without_first();
    match first {
        Some(top) => balanced(left, top, rest),
        None => left,
    }
}

impl<T: Copy> Tree<T> {
    /// The tree with one more piece, in this node.
    pub(crate) fn with(self, piece: Piece<T>, node: Box<Node<T>>) -> Tree<T>
        requires { Rises 0 (inserted piece self) 1048576 }
        ensures { result ≡ inserted piece self }
    {
        match self.into_root() {
            Root::Leaf => single(piece, node),
            Root::Fork(mut top) => {
                let own = piece_of(&top);
                let (left, right) = sides(&mut top);
                if piece.lo < own.lo {
                    balanced(left.with(piece, node), top, right)
                } else {
                    balanced(left, top, right.with(piece, node))
                }
            }
        }
    }

    /// The tree with this piece in place of the one that begins where it does. No side gets higher or lower.
    pub(crate) fn replaced(self, piece: Piece<T>) -> Tree<T>
        requires found { Begins piece.lo (next_of piece.lo self) }
        requires rising { Rises 0 (inserted piece (removed piece.lo self)) 1048576 }
        ensures { result ≡ inserted piece (removed piece.lo self) }
    {
        match self.into_root() {
            Root::Leaf => unreachable!(),
            Root::Fork(mut top) => {
                let own = piece_of(&top);
                let (left, right) = sides(&mut top);
                if piece.lo < own.lo {
                    over(left.replaced(piece), top, right)
                } else if own.lo < piece.lo {
                    over(left, top, right.replaced(piece))
                } else {
                    top.piece = Some(piece);
                    over(left, top, right)
                }
            }
        }
    }

    /// The first piece, in its node, and the tree of the others.
    fn without_first(self) -> (Option<Box<Node<T>>>, Tree<T>)
        ensures { IsParted self result.0 result.1 }
    {
        match self.into_root() {
            Root::Leaf => (None, Tree::new()),
            Root::Fork(mut top) => {
                let (left, right) = sides(&mut top);
                let (first, rest) = left.without_first();
                match first {
                    Some(first) => (Some(first), balanced(rest, top, right)),
                    None => (Some(top), right),
                }
            }
        }
    }

    /// The tree without the first piece that ends behind a cell, and the node that this piece had.
    pub(crate) fn without(self, cell: u32) -> (Option<Box<Node<T>>>, Tree<T>)
        ensures pieces { result.1 ≡ removed cell self }
        ensures node { is_some result.0 ≡ is_some (next_of cell self) }
    {
        match self.into_root() {
            Root::Leaf => (None, Tree::new()),
            Root::Fork(mut top) => {
                let own = piece_of(&top);
                let (left, right) = sides(&mut top);
                if cell < own.hi {
                    let (node, left) = left.without(cell);
                    match node {
                        Some(node) => (Some(node), balanced(left, top, right)),
                        None => (Some(top), joined(left, right)),
                    }
                } else {
                    let (node, right) = right.without(cell);
                    (node, balanced(left, top, right))
                }
            }
        }
    }
}
