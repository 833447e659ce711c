//! What is noted of a run.

use oss_model::Point;
use oss_syntax::{Access, List, Range};

/// What an act is, as far as it waits for something or something waits for it as more than the act before.
#[derive(Drop)]
pub(crate) enum What {
    /// A tick.
    Tick,
    /// A wait for all tasks below.
    Wait,
    /// A wait for the newest task and all below it.
    Await,
    /// A wait for what the tasks below declared of the cells of these ranges.
    WaitOn(List<Range>),
    /// A release of what these accesses declare, by the task itself.
    Release(List<Access>),
    /// The end of the task, or of one that it includes.
    End,
}

/// An act of a run that is noted.
#[derive(Drop)]
pub(crate) struct Note {
    /// The point of its task.
    pub(crate) point: Point,
    /// How many acts the task did before it.
    pub(crate) number: u64,
    /// What it is.
    pub(crate) what: What,
}

/// A task that was created, and is not included.
#[derive(Drop)]
pub(crate) struct Made {
    /// Its point.
    pub(crate) point: Point,
    /// The number of the act of its creator that created it, from 0.
    pub(crate) number: u64,
    /// Whether it has the clause `wait`.
    pub(crate) wait: bool,
    /// Its accesses, each cell in one of them at most.
    pub(crate) accesses: List<Access>,
}
