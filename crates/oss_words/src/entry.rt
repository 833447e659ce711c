//! The two words of an entry, taken apart, and the places at which an entry may be linked.

use oss_syntax::Mode;

/// The state word of an entry, taken apart: its flags, and its two links with what they say of the entries that
/// they lead to.
#[derive(Clone, Copy)]
pub struct EntryState {
    /// Nothing earlier stands in the way of a read.
    pub reads: bool,
    /// Nothing earlier stands in the way of the join of the reduction that it is.
    pub folds: bool,
    /// Nothing earlier stands in the way of a write.
    pub writes: bool,
    /// The task has given up the cell.
    pub given: bool,
    /// The task has given up the cell, and each access of its children to it is done.
    pub done: bool,
    /// The access of every earlier sibling is done.
    pub clear: bool,
    /// The link to the next entry is set.
    pub linked: bool,
    /// The link to the first child is set.
    pub headed: bool,
    /// A value to be joined stands beside the word. Only a table that has such values sets it.
    pub left: bool,
    /// The next link leads to a sibling that is a reduction.
    pub next_folds: bool,
    /// The next link leads to a sibling that is the same reduction as this entry.
    pub next_same: bool,
    /// The first child is a reduction.
    pub child_folds: bool,
    /// The first child is the same reduction as this entry.
    pub child_same: bool,
    /// The entry of the next sibling, or of the parent where no sibling comes any more. Below 16,777,216.
    pub next: u32,
    /// The entry of the first child. Below 16,777,216.
    pub child: u32,
}

/// What the info word of an entry says. It is written once, before the entry is linked.
#[derive(Clone, Copy)]
pub struct EntryInfo {
    /// How the task accesses the cell.
    pub mode: Mode,
    /// The task itself may touch the cell, and not only its children.
    pub strong: bool,
    /// How many tasks the task lies below: 1 for a child of main. At most 127.
    pub depth: u8,
    /// The entry of the access above, and 0 for main. Below 16,777,216.
    pub parent: u32,
    /// The number of the task in the table. Below 16,777,216.
    pub task: u32,
}

/// Where an entry is linked.
#[derive(Clone, Copy)]
pub enum After {
    /// As the first child of this entry.
    FirstOf(u32),
    /// As the first of a list of main's children.
    FirstOfMain,
    /// Behind this sibling.
    Sibling(u32),
}
