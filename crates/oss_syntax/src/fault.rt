//! Faults of a run. No rule on the text tells them, so a program that is accepted may still have one.

/// What can go wrong in a run, in the order in which the tests of one act stand.
#[derive(Clone, Copy, Debug, PartialEq, Eq)]
pub enum FaultKind {
    /// A task has done as many ticks as its fuel allows.
    OutOfFuel,
    /// A task would be nested more than 64 deep, or a task would have more than 256 calls open.
    TooDeep,
    /// A task would create more than 65,535 tasks.
    TooManyTasks,
    /// A right operand of `/` or `%` is 0 (C11 6.5.5p5).
    DivideByZero,
    /// A shift count is 64 or more (C11 6.5.7p3).
    ShiftRange,
    /// A place is no cell of the global that its pointer or array names.
    OutOfRange,
    /// Clauses of one task name a cell with modes that cannot be joined.
    MixedAccess,
    /// The task has released the cell.
    Released,
    /// No clause of the task gives the right to this touch.
    NoRight,
    /// A clause names a cell that the creator's own right does not cover.
    NotCovered,
    /// A cell under a reduction is touched by something else than a fold of its operator.
    BadReduction,
    /// The cell is lent to a child, and no wait has taken it back.
    Lent,
    /// The task named the cell by `out` or `weakout` alone, and reads it or folds into it before it was written.
    Unwritten,
}
