//! What the table of a field is made with.

use oss_code::Code;
use std::snapshot::Snapshot;

/// What the rule of the table reads of a field: how many entries it has, the code of its jobs, and how much fuel each
/// task has.
#[derive(Drop)]
pub(crate) struct FieldKey {
    pub(crate) entries: u32,
    pub(crate) fuel: u32,
    pub(crate) code: Snapshot<Code>,
}
