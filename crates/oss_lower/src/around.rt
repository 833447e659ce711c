//! What stands around a statement.
use oss_syntax::Kind;

/// What stands around a statement.
#[derive(Clone, Copy)]
pub(crate) struct Around {
    /// The type of what the function gives.
    pub(crate) result: Kind,
    /// The place of the piece to which `break` leads.
    pub(crate) stop: usize,
    /// The place of the piece to which `continue` leads.
    pub(crate) again: usize,
}
