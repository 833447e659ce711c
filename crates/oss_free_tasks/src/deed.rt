//! What the next act of the free run is for the task that acts.

use oss_syntax::FaultKind;

/// What the next act of the free run is for the task that acts.
#[derive(Clone, Copy)]
pub enum Deed {
    /// A tick.
    Ticks,
    /// The end of the wait for the task that it created last. No ask of the task stands behind it: each creation of a task
    /// that is not included has it.
    Awaits,
    /// Any other act with which the task goes on, with this answer: the number that a load finds, and else 0.
    Finds(u64),
    /// The creation of a task.
    Creates,
    /// The task ends.
    Ends,
    /// A fault stops the run, on this line.
    Stops(FaultKind, u32),
}
