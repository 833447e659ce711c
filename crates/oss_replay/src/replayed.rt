//! What a replay comes to. A schedule is input and may be wrong, so each of its ends is an answer.

use oss_model::Answer;

/// What comes of a schedule that is replayed.
#[derive(Drop)]
pub enum Replayed {
    /// All its moves were made, and no move is left: the answer of the run.
    Answered(Answer),
    /// The move with this number, counted from 1, was not enabled.
    NotEnabled(u64),
    /// All its moves were made, and a move is left: so many tasks are not complete.
    Unfinished(u64),
}
