//! What one line of a schedule tells, and which moves name cells.

use crate::moves::TextMove;

/// What a line tells.
#[derive(Drop)]
pub enum Told {
    /// Nothing: it is empty or a comment.
    Nothing,
    /// A move.
    Move(TextMove),
    /// It is wrong.
    Wrong,
}

/// The moves that name cells.
#[derive(Clone, Copy)]
pub(crate) enum CellVerb {
    /// Giving cells up.
    Let,
    /// Joining slots to cells.
    Join,
}
