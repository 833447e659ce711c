//! One access in a stretch, in two parts: its place among the others, and how far it has come. A gift changes
//! the second part alone.

ghost use Rattle.std.specs.Prelude.{◌≡◌};
ghost use Rattle.oss_deps.specs.Places.{is_closed};

use oss_syntax::Mode;

/// What stands fast of an access to a stretch of cells, and its links in the list of such accesses: where that
/// of the creator stands, the newest one of a child, and the next one of a sibling.
#[derive(Clone, Copy)]
pub(crate) struct Frame {
    /// The number of tasks that were opened up to this one.
    pub(crate) number: usize,
    /// The number of the task in the run.
    pub(crate) task: u64,
    /// The place of the creator's access.
    pub(crate) up: usize,
    pub(crate) mode: Mode,
    /// The place of the newest access of a child.
    pub(crate) last: Option<usize>,
    /// The place of the access of the next sibling.
    pub(crate) next: Option<usize>,
}

/// How far an access has come: whether its task has given up the cells, and the first one of a child that is not done.
#[derive(Clone, Copy)]
pub(crate) struct Mark {
    /// The task has given up the cells.
    pub(crate) given: bool,
    /// The place of the first access of a child that is not done.
    pub(crate) first: Option<usize>,
}

impl Mark {
    /// Whether the access is done: its cells are given up, and no child has one that is not done.
    pub(crate) fn is_closed(self) -> bool
        ensures { result ≡ is_closed self }
    {
        self.given && self.first.is_none()
    }
}
