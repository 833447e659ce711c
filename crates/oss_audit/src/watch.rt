//! What follows the acts of a run: the tasks on the way to the one that acts, and what is told of those that
//! have ended.

ghost use Rattle.std.specs.Prelude.{◌≡◌, ◌<◌, [], length, IfOk, OnOk};

use crate::begun::Begun;
use crate::unused::Unused;
use oss_body::Act;
use oss_code::TaskOrder;
use oss_syntax::List;
use std::alloc::{AllocError, Global};
use std::mem;

/// The task that acts, and those above it, the oldest first.
#[derive(Drop)]
pub(crate) struct Watch {
    alloc: Global,
    pub(crate) top: Begun,
    pub(crate) above: List<Begun>,
}

impl Watch {
    ghost use Rattle.oss_audit.specs.Watches.{HasRoom, IsBegun, IsEnded, IsFirst, IsNoted, IsTouched};

    /// At the beginning of a run main acts.
    pub(crate) fn new(alloc: Global) -> Result<Watch, AllocError>
        ensures top { IfOk result (λ watch. IsFirst watch.top) }
        ensures above { IfOk result (λ watch. watch.above ≡ []) }
    {
        Ok(Watch {
            alloc,
            top: Begun::main(alloc)?,
            above: List::new(alloc),
        })
    }

    /// An act of the task that acts has happened. The cells that it touches are noted for that task alone; who
    /// is above learns of them at its end.
    pub(crate) fn note(&mut self, act: &Act) -> Result<(), AllocError>
        requires { HasRoom act.now self.old.top }
        ensures { OnOk result (IsNoted act.now self.old self.new) }
    {
        match act {
            Act::Load(cell) => self.touch(*cell),
            Act::Store(cell, _) => self.touch(*cell),
            Act::Fold { cell, .. } => self.touch(*cell),
            Act::Create { creation, .. } => self.begin(&creation.get().order),
            Act::End => self.end(),
            Act::Tick => Ok(()),
            Act::Await => Ok(()),
            Act::Wait => Ok(()),
            Act::WaitOn(_) => Ok(()),
            Act::Release { .. } => Ok(()),
            Act::Print { .. } => Ok(()),
            Act::Fault { .. } => Ok(()),
        }
    }

    /// The task that acts touches a cell.
    fn touch(&mut self, cell: u32) -> Result<(), AllocError>
        ensures { OnOk result (IsTouched cell self.old self.new) }
    {
        self.top.touched.add_cell(cell)
    }

    /// The task that acts creates one, which acts next.
    fn begin(&mut self, order: &TaskOrder) -> Result<(), AllocError>
        requires short { length self.old.top.point < 66 }
        requires few { self.old.top.created < 65535 }
        ensures { OnOk result (IsBegun order.now.accesses self.old self.new) }
    {
        let child = self.top.child(self.alloc, order)?;
        self.top.created += 1;
        let creator = mem::replace(&mut self.top, child);
        self.above.push(creator)
    }

    /// The task that acts ends, and its creator goes on. Main has none.
    fn end(&mut self) -> Result<(), AllocError>
        ensures { OnOk result (IsEnded self.old self.new) }
    {
        match self.above.pop() {
            Some(mut creator) => {
                let taken = creator.take(self.alloc, &mut self.top);
                self.top = creator;
                taken
            }
            None => Ok(()),
        }
    }

    /// What is told of all tasks, where main acts.
    pub(crate) fn told(self) -> List<Unused>
        ensures { result ≡ self.top.told.items }
    {
        let Watch { top, .. } = self;
        top.told()
    }
}
