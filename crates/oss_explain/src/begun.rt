//! A task that has begun and has not ended, and what is noted of it.

ghost use Rattle.std.specs.Prelude.{◌<◌, length, IfOk};

use oss_body::Creation;
use oss_model::Point;
use oss_syntax::{Access, List, Range};
use std::alloc::{AllocError, Global};

/// A child to which its creator has lent cells: the creator had created so many before it.
pub(crate) struct Child {
    pub(crate) number: u16,
    pub(crate) line: u32,
    /// The instruction with which its body begins.
    pub(crate) entry: u32,
    pub(crate) accesses: List<Access>,
}

// By hand, so that who lets one go calls this, and does not take it apart at each exit.
impl Drop for Child {
    fn drop(self) {
        let Child {
            number: _,
            line: _,
            entry: _,
            accesses,
        } = self;
        drop(accesses);
    }
}

/// What a task has done since its last taskwait with what it has lent.
#[derive(Drop)]
pub(crate) enum Noted {
    /// It has lent cells to a child.
    Lent(Child),
    /// It has waited for the cells of these ranges.
    WaitedOn(List<Range>),
}

/// A release, and its line.
pub(crate) struct ReleasedAt {
    pub(crate) line: u32,
    pub(crate) clauses: List<Access>,
}

// By hand, so that who lets one go calls this, and does not take it apart at each exit.
impl Drop for ReleasedAt {
    fn drop(self) {
        let ReleasedAt { line: _, clauses } = self;
        drop(clauses);
    }
}

/// A task that has begun and has not ended: the one that acts, or one above it.
pub(crate) struct Begun {
    pub(crate) point: Point,
    /// The line of its creation.
    pub(crate) line: u32,
    /// The instruction with which its body begins. Of main it is not told.
    pub(crate) entry: u32,
    /// It runs in the body of its creator.
    pub(crate) included: bool,
    /// What it started with: main has no clause, and so none.
    pub(crate) accesses: List<Access>,
    /// What it has released, the oldest first.
    pub(crate) released: List<ReleasedAt>,
    /// What it has done since its last taskwait with what it has lent, the oldest first.
    pub(crate) noted: List<Noted>,
}

// By hand, so that who lets one go calls this, and does not take it apart at each exit.
impl Drop for Begun {
    fn drop(self) {
        let Begun {
            point,
            line: _,
            entry: _,
            included: _,
            accesses,
            released,
            noted,
        } = self;
        drop(point);
        drop(accesses);
        drop(released);
        drop(noted);
    }
}

impl Begun {
    ghost use Rattle.oss_explain.specs.Ledgers.{IsChild, IsFirst};

    /// Main.
    pub(crate) fn main(alloc: Global) -> Result<Begun, AllocError>
        ensures { IfOk result (λ main. IsFirst main) }
    {
        Ok(Begun {
            point: Point::main(alloc)?,
            line: 0,
            entry: 0,
            included: false,
            accesses: List::new(alloc),
            released: List::new(alloc),
            noted: List::new(alloc),
        })
    }

    /// The task of this creation as it begins, which stands on this line. This task, which creates it, has created so many
    /// before.
    pub(crate) fn child(
        &self,
        alloc: Global,
        creation: &Creation,
        included: bool,
        line: u32,
        number: u16,
    ) -> Result<Begun, AllocError>
        requires { length self.now.point < 66 }
        ensures { IfOk result (λ child. IsChild creation.now included line number self.now child) }
    {
        let accesses = creation.accesses()?;
        match self.point.child(number) {
            Ok(point) => Ok(Begun {
                point,
                line,
                entry: creation.order.entry,
                included,
                accesses,
                released: List::new(alloc),
                noted: List::new(alloc),
            }),
            Err(full) => {
                drop(accesses);
                Err(full)
            }
        }
    }
}
