//! The rows of the book: entries, what has become of them, and the entries of each task.

use oss_words::{After, EntryInfo};

/// The access of a task to one cell, as it stands in a net. It never changes.
#[derive(Clone, Copy)]
pub(crate) struct Entry {
    /// The number of the task.
    pub(crate) task: u64,
    /// The cell, below 1,048,576.
    pub(crate) cell: u32,
    /// What the info word of the entry says.
    pub(crate) info: EntryInfo,
    /// Where the entry is linked.
    pub(crate) after: After,
}

/// What has become of an entry.
#[derive(Clone, Copy)]
pub(crate) struct Mark {
    /// The last child's entry, 0 where there is none.
    pub(crate) last: u32,
    /// The task has given up the cell.
    pub(crate) given: bool,
}

/// The entries of a task, in the order of their cells.
#[derive(Clone, Copy)]
pub(crate) struct Job {
    /// The number of the task.
    pub(crate) task: u64,
    /// How deep the task is nested: 1 for a child of main, at most 64.
    pub(crate) depth: u8,
    /// Its first entry.
    pub(crate) first: u32,
    /// The entry behind its last.
    pub(crate) end: u32,
}
