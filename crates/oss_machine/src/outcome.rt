//! What one instruction, or one answer, makes of the function that runs.

use oss_syntax::FaultKind;

/// What an instruction came to.
#[derive(Clone, Copy)]
pub(crate) enum Outcome {
    /// The function has gone on.
    On,
    /// It gives the topmost value to its caller.
    Gives,
    /// It fails.
    Stops(FaultKind),
    /// It asks, and goes on with the answer.
    Asks,
    /// It goes to the creation of a task function.
    Creates,
    /// It stands behind the last instruction.
    Ends,
}

/// How a function goes on with an answer.
#[derive(Clone, Copy)]
pub(crate) enum Taken {
    /// It has gone on, or it stays.
    Went,
    /// It calls a function, which begins with this instruction and takes so many of the values.
    Enters(usize, usize),
}
