//! What is known of an entry before it is filed.

use oss_words::{After, EntryInfo};

/// An entry of a task: for one of its cells, or for the task itself.
#[derive(Clone, Copy)]
pub struct Row {
    /// What the info word of the entry says.
    pub info: EntryInfo,
    /// Where the entry is linked.
    pub after: After,
    /// The task has given up the entry.
    pub given: bool,
}
