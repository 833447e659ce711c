//! What a user sees of a run: its output, and the cells at its end or the fault that ended it.

use oss_syntax::{Bytes, Cells, FaultKind};

/// The answer of a run.
#[derive(Drop)]
pub enum Answer {
    /// It ended, with this output and these cells.
    Done(Bytes, Cells),
    /// A fault of this kind on this line ended it, after this output.
    Fault(FaultKind, u32, Bytes),
}
