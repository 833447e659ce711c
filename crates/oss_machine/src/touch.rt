//! Asks that can be answered at once.

/// An ask that needs no more than what the judge knows of the task, and memory.
#[derive(Clone, Copy)]
pub enum Touch {
    /// A tick.
    Tick,
    /// A load of this cell.
    Read(u32),
    /// A store of this number in this cell.
    Write(u32, u64),
}
