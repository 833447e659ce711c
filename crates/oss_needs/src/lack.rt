//! What clauses lack.

use crate::clause::Clause;

/// What a task's clauses lack for what it asks of a cell.
#[derive(Clone, Copy, PartialEq, Eq)]
pub enum Lack {
    /// They will do.
    Nothing,
    /// This clause beside them.
    Adds(Clause),
    /// This clause in place of them.
    Replaces(Clause),
}
