//! What is kept beside the free run.

ghost use Rattle.std.specs.Prelude.{◌≡◌, ◌<◌, ◌+◌, ◌||◌, ℕ, true, length, IfOk, OnOk};
ghost use Rattle.oss_lacks.specs.Asking.{main};
ghost use Rattle.oss_lacks.specs.Nests.{alone};
ghost use Rattle.oss_machine.specs.Asks.{meant_ask, meant_order};
ghost use Rattle.oss_free_tasks.specs.Deeds.{creates};
ghost use Rattle.oss_model.specs.Marks.{AsksFor};
ghost use Rattle.oss_task_needs.specs.Asking.{asks};

use crate::creation::Creation;
use crate::lacks::TaskLacks;
use crate::slots::{add_slot, all_told, fill_slot};
use oss_code::TaskOrder;
use oss_machine::Ask;
use oss_needs::Demand;
use oss_open_needs::OpenNeeds;
use oss_syntax::{List, Range};
use oss_task_needs::Mending;
use std::alloc::{AllocError, Global};
use std::mem;

/// What is kept beside the free run: what its open tasks ask, how each was created, the one that acts first and then those above it,
/// main first; and what is told of each task that was created, by its number, once it has ended. After want of memory a call has
/// done a part of its work, and all is given up.
pub(crate) struct Following {
    alloc: Global,
    needs: OpenNeeds,
    current: Creation,
    above: List<Creation>,
    tasks: Vec<Option<TaskLacks>>,
}

// By hand, so that who lets one go calls this, and does not take it apart at each exit.
impl Drop for Following {
    fn drop(self) {
        let Following {
            alloc: _,
            needs,
            current,
            above,
            tasks,
        } = self;
        drop(needs);
        drop(current);
        drop(above);
        drop(tasks);
    }
}

/// Whether a task that is created by an order is final: it is, or its creator is.
fn is_final_below(creator: bool, order: &TaskOrder) -> bool
    ensures { result ≡ (creator || order.now.last) }
{
    creator || order.last
}

impl Following {
    ghost use Rattle.oss_lacks.specs.Following.{Asks, Ends, HaveEnded, IsBack, IsClosed, IsFollowing, Notes, Opens, told_in};

    /// Main alone, before its first act. It is an error if memory is wanted.
    pub(crate) fn new(alloc: Global) -> Result<Following, AllocError>
        ensures { IfOk result (IsFollowing (alone main)) }
    {
        let needs = OpenNeeds::new(alloc)?;
        let current = Creation::main(alloc)?;
        Ok(Following {
            alloc,
            needs,
            current,
            above: List::new(alloc),
            tasks: Vec::new(alloc),
        })
    }

    /// The task that acts asks this of one cell.
    fn touch(&mut self, cell: u32, demand: Demand) -> Result<(), AllocError>
        requires { cell < 1048576 }
        ensures { OnOk result (Asks (asks demand cell (cell + 1)) self.old self.new) }
    {
        let range = Range {
            lo: cell,
            hi: cell + 1,
        };
        self.needs.ask(range, demand)
    }

    /// The task that acts, final or not, creates one after `created` others, by an order on a line. The new one acts from then on.
    fn create(
        &mut self,
        order: &TaskOrder,
        line: u32,
        created: u32,
        is_final: bool,
    ) -> Result<(), AllocError>
        requires room { length self.old.current.point < 66 }
        requires few { created < 65536 }
        ensures { OnOk result (Opens (meant_order order.now) line created is_final self.old self.new) }
    {
        let is_final = is_final_below(is_final, order);
        self.needs.open(order.accesses.as_slice(), is_final)?;
        let number = add_slot(&mut self.tasks)?;
        let child = self
            .current
            .child(self.alloc, number, created, line, order, is_final)?;
        let creator = mem::replace(&mut self.current, child);
        self.above.push(creator)
    }

    /// The task that acts ends, and its creator acts from then on. The answer is whether there was one; for main there is none, and
    /// nothing changes.
    fn close(&mut self) -> Result<bool, AllocError>
        ensures { IfOk result (IsClosed self.old self.new) }
    {
        match self.needs.close()? {
            Some(mending) => Ok(self.go_back(mending)),
            None => Ok(false),
        }
    }

    /// The same once it is known what the clauses of the task lack.
    fn go_back(&mut self, mending: Mending) -> bool
        ensures { IsBack mending self.old self.new result }
    {
        match self.above.pop() {
            Some(creator) => {
                let ended = mem::replace(&mut self.current, creator);
                fill_slot(&mut self.tasks, ended, mending);
                true
            }
            None => {
                drop(mending);
                false
            }
        }
    }

    /// The task that acts asks this, on this line; it has created so many, and is final or not. The run goes on from there.
    pub(crate) fn note(
        &mut self,
        ask: &Ask,
        line: u32,
        created: u32,
        is_final: bool,
    ) -> Result<(), AllocError>
        requires touches { (c : ℕ) → AsksFor (meant_ask ask.now) c → c < 1048576 }
        requires room { creates (meant_ask ask.now) ≡ true → length self.old.current.point < 66 }
        requires few { creates (meant_ask ask.now) ≡ true → created < 65536 }
        ensures { OnOk result (Notes (meant_ask ask.now) line created is_final self.old self.new) }
    {
        match ask {
            Ask::Read(cell) => self.touch(*cell, Demand::Load),
            Ask::Write(cell, _) => self.touch(*cell, Demand::Store),
            Ask::Fold(cell, op, _) => self.touch(*cell, Demand::Fold(*op)),
            Ask::Create(order) => self.create(order.get(), line, created, is_final),
            Ask::WaitOn(ranges) => self.needs.wait(ranges.as_slice()),
            Ask::Release(clauses) => self.needs.release(clauses.as_slice()),
            Ask::End => self.end(),
            Ask::Begin => Ok(()),
            Ask::Tick => Ok(()),
            Ask::Await => Ok(()),
            Ask::Wait => Ok(()),
            Ask::Print(_) => Ok(()),
            Ask::Fault(_) => Ok(()),
        }
    }

    /// The task that acts ends, if it is not main.
    fn end(&mut self) -> Result<(), AllocError>
        ensures { OnOk result (Ends self.old self.new) }
    {
        self.close()?;
        Ok(())
    }

    /// All that are open end, the newest first.
    pub(crate) fn close_all(&mut self) -> Result<(), AllocError>
        ensures { OnOk result (HaveEnded self.old self.new) }
    {
        'ends: loop {
            let more = self.close()?;
            if !more {
                return Ok(());
            }
        }
    }

    /// What is told of the tasks that have ended, by their numbers.
    pub(crate) fn into_tasks(self) -> Result<List<TaskLacks>, AllocError>
        ensures { IfOk result (λ tasks. tasks ≡ told_in self.tasks.items) }
    {
        let Following {
            alloc,
            needs,
            current,
            above,
            tasks,
        } = self;
        drop(needs);
        drop(current);
        drop(above);
        all_told(alloc, tasks)
    }
}
