//! One open task.

ghost use Rattle.std.specs.Prelude.{IfOk, OnOk};
ghost use Rattle.oss_open_needs.specs.Opening.{Asks, AsksFor, IsMendingOf, IsOpen, OpenWith, opened, releases, waits};

use oss_needs::{Clause, Demand};
use oss_ranges::RangeMap;
use oss_syntax::{Access, Range};
use oss_task_needs::{Givens, Mending, TaskNeeds};
use std::alloc::{AllocError, Global};

/// An open task: what its clauses say of each cell, and what it has asked of each so far.
pub(crate) struct OpenTask {
    pub(crate) givens: Givens,
    pub(crate) needs: TaskNeeds,
}

// By hand, so that who lets one go calls this, and does not take it apart at each exit.
impl Drop for OpenTask {
    fn drop(self) {
        let OpenTask { givens, needs } = self;
        drop(givens);
        drop(needs);
    }
}

impl OpenTask {
    /// A task with these clauses, which has asked nothing.
    pub(crate) fn new(
        alloc: Global,
        clauses: &[Access],
        is_final: bool,
    ) -> Result<OpenTask, AllocError>
        ensures { IfOk result (IsOpen (opened is_final clauses.now)) }
    {
        let givens = Givens::of(alloc, clauses, is_final)?;
        Ok(OpenTask {
            givens,
            needs: TaskNeeds::new(alloc),
        })
    }

    /// It asks this of each cell of the range.
    pub(crate) fn ask(&mut self, range: Range, demand: Demand) -> Result<(), AllocError>
        ensures { OnOk result (Asks demand range self.old self.new) }
    {
        self.needs.ask(range, demand)
    }

    /// It releases what these clauses name.
    pub(crate) fn release(&mut self, clauses: &[Access]) -> Result<(), AllocError>
        ensures { OnOk result (OpenWith (releases clauses.now) self.old self.new) }
    {
        for clause in clauses {
            self.ask(clause.range, Demand::Release(clause.mode))?;
        }
        Ok(())
    }

    /// It waits for the accesses of its children to the cells of these ranges.
    pub(crate) fn wait(&mut self, named: &[Range]) -> Result<(), AllocError>
        ensures { OnOk result (OpenWith (waits named.now) self.old self.new) }
    {
        for range in named {
            self.ask(*range, Demand::Wait)?;
        }
        Ok(())
    }

    /// It has created a task whose clauses, mended, say this.
    pub(crate) fn ask_for(&mut self, clauses: &RangeMap<Clause>) -> Result<(), AllocError>
        ensures { OnOk result (AsksFor clauses.now.pieces self.old self.new) }
    {
        self.needs.ask_for(clauses)
    }

    /// What its clauses lack for what it has asked, and what they say with that.
    pub(crate) fn mending(&self, alloc: Global) -> Result<Mending, AllocError>
        ensures { IfOk result (IsMendingOf self.now) }
    {
        Mending::of(alloc, &self.givens, &self.needs)
    }
}
