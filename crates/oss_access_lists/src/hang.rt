//! The links of an access. They are numbers and no pointers, so a line is copied table by table.

use oss_syntax::Mode;

/// How an access to a cell hangs among the others, by their numbers. A number is 0 where there is no such
/// access; the one above is 0 also where main is the creator.
#[derive(Clone, Copy)]
pub struct Hang {
    /// It hangs in a list: so does each access but main's.
    pub hung: bool,
    /// The access of the creator.
    pub above: usize,
    /// The sibling before it.
    pub before: usize,
    /// The sibling behind it.
    pub next: usize,
    /// The first child's access.
    pub child: usize,
    /// The last child's access.
    pub last: usize,
    /// Whether it reads, writes or reduces.
    pub mode: Mode,
    /// The task has given up the cell.
    pub gave: bool,
}
