//! The parts of which longest chains are put together.

use crate::best::Best;

/// What a task does to a cell that it gives up.
#[derive(Clone, Copy)]
pub(crate) enum Verb {
    /// It gives the cell up.
    Let,
    /// It joins its slot to the cell, which it reduces itself.
    Join,
}

/// A part of a chain: acts of a task, or a cell that it gives up. Tasks are told by their numbers, in the order
/// of their creations.
#[derive(Clone, Copy)]
pub(crate) enum Node {
    /// So many acts that follow each other, up to the one before `end`, behind the chain that ends here.
    Acts {
        task: usize,
        end: u64,
        count: u64,
        before: Best,
    },
    /// A cell, behind the chain that ends at this node. Where the node is that of a cell too, it is this one,
    /// or the same cell.
    Gives {
        task: usize,
        verb: Verb,
        before: Option<usize>,
        cell: Option<u32>,
    },
}
