//! Turns of a wave.

use oss_model::TaskNo;

/// What a wave has of one task: how many acts it made. The count stays at its greatest value.
#[derive(Clone, Copy)]
pub struct Turn {
    pub task: TaskNo,
    pub acts: u64,
}
