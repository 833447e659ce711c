//! The open tasks of a run, and what they ask.

ghost use Rattle.std.specs.Prelude.{[], IfOk, OnOk};
ghost use Rattle.oss_needs.specs.Lacks.{mended};
ghost use Rattle.oss_open_needs.specs.Opening.{releases, waits};
ghost use Rattle.oss_task_needs.specs.Asking.{asks};

use crate::open_task::OpenTask;
use oss_needs::Demand;
use oss_syntax::{Access, List, Range};
use oss_task_needs::Mending;
use std::alloc::{AllocError, Global};
use std::mem;

/// The open tasks of a run: the task that acts, and those above it, main first, which wait for it. Of each it is kept what its clauses say
/// of each cell, and what it has asked. After want of memory a call has done a part of its work, and the tasks are given up.
pub struct OpenNeeds {
    alloc: Global,
    current: OpenTask,
    above: List<OpenTask>,
}

// By hand, so that who lets one go calls this, and does not take it apart at each exit.
impl Drop for OpenNeeds {
    fn drop(self) {
        let OpenNeeds {
            alloc: _,
            current,
            above,
        } = self;
        drop(current);
        drop(above);
    }
}

impl OpenNeeds {
    ghost use Rattle.oss_open_needs.specs.Stacks.{AreTasks, Closes, Goes, Opens, main};

    /// Main alone, before its first act. It is an error if memory is wanted.
    pub fn new(alloc: Global) -> Result<OpenNeeds, AllocError>
        ensures { IfOk result (AreTasks main []) }
    {
        let current = OpenTask::new(alloc, &[], false)?;
        Ok(OpenNeeds {
            alloc,
            current,
            above: List::new(alloc),
        })
    }

    /// An act of the task that acts asks this of each cell of the range. It costs the runs of alike cells in the range.
    pub fn ask(&mut self, range: Range, demand: Demand) -> Result<(), AllocError>
        ensures { OnOk result (Goes (asks demand range.lo range.hi) self.old self.new) }
    {
        self.current.ask(range, demand)
    }

    /// The task that acts releases what these clauses name.
    pub fn release(&mut self, clauses: &[Access]) -> Result<(), AllocError>
        ensures { OnOk result (Goes (releases clauses.now) self.old self.new) }
    {
        self.current.release(clauses)
    }

    /// The task that acts waits for the accesses of its children to the cells of these ranges.
    pub fn wait(&mut self, named: &[Range]) -> Result<(), AllocError>
        ensures { OnOk result (Goes (waits named.now) self.old self.new) }
    {
        self.current.wait(named)
    }

    /// The task that acts creates one with these clauses, which acts from then on. Of a final task, or one that a final task creates, a weak
    /// clause counts as strong.
    pub fn open(&mut self, clauses: &[Access], is_final: bool) -> Result<(), AllocError>
        ensures { OnOk result (Opens is_final clauses.now self.old self.new) }
    {
        let child = OpenTask::new(self.alloc, clauses, is_final)?;
        let creator = mem::replace(&mut self.current, child);
        self.above.push(creator)
    }

    /// The task that acts has ended: what its clauses lack, and what they say with that, for which its creator asks, which acts from then
    /// on. `None` exactly if main has ended: then nothing changes.
    pub fn close(&mut self) -> Result<Option<Mending>, AllocError>
        ensures { IfOk result (Closes self.old self.new) }
    {
        match self.above.pop() {
            None => Ok(None),
            Some(creator) => {
                let ended = mem::replace(&mut self.current, creator);
                let mending = ended.mending(self.alloc)?;
                self.current.ask_for(&mending.clauses)?;
                Ok(Some(mending))
            }
        }
    }
}
