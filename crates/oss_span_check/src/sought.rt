//! What is looked for among the notes of a run.

/// A kind of acts.
#[derive(Clone, Copy)]
pub(crate) enum Sought {
    /// Ticks.
    Tick,
    /// Waits for all tasks below.
    Wait,
    /// Waits for the newest task.
    Await,
    /// Waits for accesses to this cell.
    Names(u32),
    /// Releases of this cell.
    Frees(u32),
    /// Ends.
    End,
}
