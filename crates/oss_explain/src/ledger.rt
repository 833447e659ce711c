//! What is noted on the way of a run: of the task that acts, and of those above it.

ghost use Rattle.std.specs.Prelude.{◌≡◌, ◌<◌, [], length, IfOk, OnOk};

use crate::begun::{Begun, Child, Noted, ReleasedAt};
use oss_body::{Act, Creation};
use oss_syntax::{Access, List, Range};
use std::alloc::{AllocError, Global};
use std::mem;

/// The task that acts, and those above it, the oldest first.
#[derive(Drop)]
pub(crate) struct Ledger {
    alloc: Global,
    pub(crate) top: Begun,
    pub(crate) above: List<Begun>,
}

impl Ledger {
    ghost use Rattle.oss_explain.specs.Ledgers.{HasRoom, IsBegun, IsEnded, IsFirst, IsLent, IsNoted, IsReleasing, IsWaitingOn, lends};

    /// At the beginning of a run main acts.
    pub(crate) fn new(alloc: Global) -> Result<Ledger, AllocError>
        ensures top { IfOk result (λ ledger. IsFirst ledger.top) }
        ensures above { IfOk result (λ ledger. ledger.above ≡ []) }
    {
        Ok(Ledger {
            alloc,
            top: Begun::main(alloc)?,
            above: List::new(alloc),
        })
    }

    /// The task that acts makes this act, on this line, after so many creations.
    pub(crate) fn note(&mut self, act: &Act, line: u32, created: u16) -> Result<(), AllocError>
        requires { HasRoom act.now self.old.top }
        ensures { OnOk result (IsNoted act.now line created self.old self.new) }
    {
        match act {
            Act::Create { creation, included } => {
                self.begin(creation.get(), *included, line, created)
            }
            Act::End => {
                self.end();
                Ok(())
            }
            Act::Wait => {
                self.top.noted = List::new(self.alloc);
                Ok(())
            }
            Act::WaitOn(ranges) => self.wait_on(ranges.as_slice()),
            Act::Release { clauses, .. } => self.release(clauses.as_slice(), line),
            Act::Tick => Ok(()),
            Act::Load(_) => Ok(()),
            Act::Store(_, _) => Ok(()),
            Act::Fold { .. } => Ok(()),
            Act::Await => Ok(()),
            Act::Print { .. } => Ok(()),
            Act::Fault { .. } => Ok(()),
        }
    }

    /// The task that acts creates one, which acts next.
    fn begin(
        &mut self,
        creation: &Creation,
        included: bool,
        line: u32,
        number: u16,
    ) -> Result<(), AllocError>
        requires { length self.old.top.point < 66 }
        ensures { OnOk result (IsBegun creation.now included line number self.old self.new) }
    {
        if !included && creation.order.when {
            self.lend(creation, line, number)?;
        }
        let child = self
            .top
            .child(self.alloc, creation, included, line, number)?;
        let creator = mem::replace(&mut self.top, child);
        self.above.push(creator)
    }

    /// The task that acts lends cells to the task that it creates.
    fn lend(&mut self, creation: &Creation, line: u32, number: u16) -> Result<(), AllocError>
        ensures { OnOk result (IsLent creation.now line number self.old self.new) }
    {
        let accesses = creation.accesses()?;
        self.top.noted.push(Noted::Lent(Child {
            number,
            line,
            entry: creation.order.entry,
            accesses,
        }))
    }

    /// The task that acts waits for the cells of these ranges.
    fn wait_on(&mut self, ranges: &[Range]) -> Result<(), AllocError>
        ensures { OnOk result (IsWaitingOn ranges.now self.old self.new) }
    {
        let ranges = List::from_vec(Vec::from_slice(self.alloc, ranges)?);
        self.top.noted.push(Noted::WaitedOn(ranges))
    }

    /// The task that acts releases what these accesses name.
    fn release(&mut self, clauses: &[Access], line: u32) -> Result<(), AllocError>
        ensures { OnOk result (IsReleasing clauses.now line self.old self.new) }
    {
        let clauses = List::from_vec(Vec::from_slice(self.alloc, clauses)?);
        self.top.released.push(ReleasedAt { line, clauses })
    }

    /// The task that acts ends, and its creator goes on. Main has none.
    fn end(&mut self)
        ensures { IsEnded self.old self.new }
    {
        match self.above.pop() {
            Some(creator) => self.top = creator,
            None => {}
        }
    }
}
