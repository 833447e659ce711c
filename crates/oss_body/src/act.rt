//! Acts of a body.
ghost use Rattle.std.specs.Prelude.{◌≡◌, ℕ, false, IfOk};
ghost use Rattle.oss_judge.specs.Joined.{IsRising, held_mark, held_right};
ghost use Rattle.oss_model.specs.Context.{mark_of, right_of};
ghost use Rattle.oss_model.specs.Rights.{mark_from, right_from};

use oss_code::TaskOrder;
use oss_judge::Context;
use oss_model::{FaultKind, Point};
use oss_syntax::{Access, Boxed, Bytes, List, Op, Range};
use std::alloc::AllocError;

/// A creation that the judge has let pass: what the new task is to run, and the context in which it starts.
#[derive(Drop)]
pub struct Creation {
    pub order: TaskOrder,
    pub(crate) context: Context,
}

impl Creation {
    ghost use Rattle.oss_body.specs.Acts.{context_of};

    /// The accesses of the new task, as it will start with them: they give its rights and the marks of the cells that it
    /// may write, each cell once, in rising order and as few as can be. Out of memory is the one error.
    pub fn accesses(&self) -> Result<List<Access>, AllocError>
        ensures rights { IfOk result (λ accesses. (c : ℕ) →
            right_from false accesses c ≡ held_right (right_of (context_of self.now) c)) }
        ensures marks { IfOk result (λ accesses. (c : ℕ) →
            mark_from false accesses c ≡ held_mark (right_of (context_of self.now) c) (mark_of (context_of self.now) c)) }
        ensures rising { IfOk result (λ accesses. IsRising accesses) }
    {
        self.context.accesses()
    }
}

/// What a body does next, once it is judged (OmpSs-2, execution model).
#[derive(Drop)]
pub enum Act {
    /// A tick.
    Tick,
    /// A load of a cell.
    Load(u32),
    /// A store of a number in a cell.
    Store(u32, u64),
    /// A fold of a number into a cell, or, where `slot` is true, into the slot of the body's own task for it.
    Fold {
        cell: u32,
        op: Op,
        value: u64,
        slot: bool,
    },
    /// The creation of a task. One that is included runs in this body.
    Create {
        creation: Boxed<Creation>,
        included: bool,
    },
    /// The wait for the task that was created last, under a false `if`.
    Await,
    /// The wait for all tasks that the body's task created.
    Wait,
    /// The wait for what these tasks declared of the cells of these ranges.
    WaitOn(List<Range>),
    /// The release of what these accesses declare, by the body's own task, or by one that is included.
    Release {
        clauses: List<Access>,
        included: bool,
    },
    /// A print of these bytes, and its key.
    Print {
        key: Point,
        text: Bytes,
    },
    /// The end of the task that acts: the body's own, or one that is included.
    End,
    /// A fault in the place of an act, with its line and its key.
    Fault {
        kind: FaultKind,
        line: u32,
        key: Point,
    },
}

/// Lets an act go. Most are ticks and touches, which own nothing: these take no call.
#[inline(always)]
pub(crate) fn let_go(act: Act) {
    match act {
        Act::Tick => {}
        Act::Load(_) => {}
        Act::Store(_, _) => {}
        other => drop(other),
    }
}
