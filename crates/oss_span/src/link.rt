//! Chains, as they are told.

use oss_model::{Answer, Point};
use oss_syntax::List;

/// A link of a chain.
#[derive(Drop)]
pub enum Link {
    /// Acts of the task with this point that follow each other: the number of the first, from 0, and how many
    /// they are, at least 1.
    Acts(Point, u64, u64),
    /// The task gives up a cell.
    Let(Point, u32),
    /// The task's private slot is joined to a cell.
    Join(Point, u32),
}

/// What a run gives, and how parallel it can be at best.
#[derive(Drop)]
pub struct SpanRun {
    /// The answer of the sequential run.
    pub answer: Answer,
    /// The ticks of all its acts; 0 where a fault stopped it. The number stays at its greatest value.
    pub work: u64,
    /// The ticks of a longest chain; 0 where a fault stopped the run. The number stays at its greatest value.
    pub span: u64,
    /// A longest chain, its first event first; empty where a fault stopped the run.
    pub chain: List<Link>,
}
