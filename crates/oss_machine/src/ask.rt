//! Asks: the machine touches no cell and creates no task by itself; it asks for it, and goes on with the answer.

use oss_code::TaskOrder;
use oss_syntax::{Access, Boxed, Bytes, FaultKind, List, Op, Range};

/// What a body asks for before it goes on. The answer to a load is the number that was found; every other answer is 0.
#[derive(Drop)]
pub enum Ask {
    /// The tests with which a creation begins, before its clauses are evaluated. It is no act.
    Begin,
    /// A tick.
    Tick,
    /// A load of this cell.
    Read(u32),
    /// A store of this number in this cell.
    Write(u32, u64),
    /// A fold of this number into this cell.
    Fold(u32, Op, u64),
    /// The creation of a task.
    Create(Boxed<TaskOrder>),
    /// That the task created last is done, which stands behind a creation under a false `if`. No machine asks for it.
    Await,
    /// That all tasks that the body created are done.
    Wait,
    /// What the tasks that the body created declared of these cells.
    WaitOn(List<Range>),
    /// The release of what these accesses declare.
    Release(List<Access>),
    /// A print of these bytes.
    Print(Bytes),
    /// The body has ended.
    End,
    /// The body has failed.
    Fault(FaultKind),
}

/// An ask, and the line to which a fault of it belongs.
#[derive(Drop)]
pub(crate) struct AskedAt {
    pub ask: Ask,
    pub line: u32,
}
