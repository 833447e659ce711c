//! The record of a run.

use crate::note::{Made, Note};
use oss_syntax::List;

/// What is noted of a run: its acts, and the tasks that were created.
pub(crate) struct Record {
    /// The acts, in their order.
    pub(crate) notes: List<Note>,
    /// The tasks, in the order of their creations; main is none of them.
    pub(crate) made: List<Made>,
}

// By hand, so that who lets one go calls this, and does not take it apart at each exit.
impl Drop for Record {
    fn drop(self) {
        let Record { notes, made } = self;
        drop(notes);
        drop(made);
    }
}
