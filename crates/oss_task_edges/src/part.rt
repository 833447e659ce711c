//! Parts of edges.

use oss_syntax::Range;

/// That a new child stands on an earlier one for the cells of a range; and whether both have them by strong accesses.
#[derive(Clone, Copy)]
pub(crate) struct Part {
    pub(crate) from: u16,
    pub(crate) range: Range,
    pub(crate) strong: bool,
}
