//! The book: all that was linked and given up so far, so that a larger net can be made to follow it.

use crate::entry::{Entry, Job, Mark};

/// The accesses of all tasks that were opened, cell by cell: the entry 1 is the first.
pub(crate) struct Book {
    /// Each entry, from the entry 1 on.
    pub(crate) entries: Vec<Entry>,
    /// What has become of each entry.
    pub(crate) marks: Vec<Mark>,
    /// The entries of each task, in the order in which tasks were opened.
    pub(crate) jobs: Vec<Job>,
    /// The last entry of main's children at each cell, 0 where there is none.
    pub(crate) mains: Vec<u32>,
}

// By hand, so that who lets one go calls this, and does not take it apart at each exit.
impl Drop for Book {
    fn drop(self) {
        let Book {
            entries,
            marks,
            jobs,
            mains,
        } = self;
        drop(entries);
        drop(marks);
        drop(jobs);
        drop(mains);
    }
}
