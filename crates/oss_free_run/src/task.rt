//! An open task of the free run.

ghost use Rattle.std.specs.Prelude.{◌≡◌, ◌<◌, ◌+◌, ◌||◌, true, false, map, IfOk, OnOk};
ghost use Rattle.oss_machine.specs.Asks.{meant_ask, script_of};
ghost use Rattle.oss_machine.specs.Frames.{CodeScript};
ghost use Rattle.oss_machine.specs.Machines.{machine_start, poised};
ghost use Rattle.oss_model.specs.Bodies.{Create, Order};
ghost use Rattle.oss_free_tasks.specs.Deeds.{creates, free_deed};
ghost use Rattle.oss_free_tasks.specs.declared.deed.Deed.TheVariants as deeds;
ghost use Rattle.oss_free_run.specs.FreeTasks.{is_silent, newest};

use crate::counts::{Counts, deed_of};
use oss_code::{Code, TaskOrder};
use oss_free_tasks::Deed;
use oss_machine::{Ask, Machine};
use std::alloc::{AllocError, Global};

/// An open task: its machine, which has not looked ahead, and its counts.
pub(crate) struct FreeTask {
    pub(crate) machine: Machine,
    /// How many ticks it has done.
    pub(crate) ticks: u32,
    /// How many tasks it has created.
    pub(crate) created: u32,
    /// A final task includes the tasks that it creates.
    pub(crate) last: bool,
    /// The end of a wait for the task that it created last stands before its next ask.
    pub(crate) awaits: bool,
}

// By hand, so that who lets one go calls this, and does not take it apart at each exit.
impl Drop for FreeTask {
    fn drop(self) {
        let FreeTask {
            machine,
            ticks: _,
            created: _,
            last: _,
            awaits: _,
        } = self;
        drop(machine);
    }
}

impl FreeTask {
    ghost use Rattle.oss_free_run.specs.FreeTasks.{created_task, is_silent, may_create, new_task, newest, past_task, resumed_task, settled_task, went_on};

    /// A task that has done nothing, final or not.
    pub(crate) fn new(
        alloc: Global,
        code: &Code,
        order: &TaskOrder,
        last: bool,
    ) -> Result<FreeTask, AllocError>
        ensures { IfOk result (λ task. task ≡ new_task code.now last (script_of order.now)) }
    {
        let machine = Machine::new(alloc, code, order)?;
        Ok(FreeTask {
            machine,
            ticks: 0,
            created: 0,
            last,
            awaits: false,
        })
    }

    /// What the program asks next for the task, clauses and all.
    pub(crate) fn ask(&self) -> &Ask
        ensures { meant_ask result.now ≡ self.now.machine.stands.asked.ask }
    {
        self.machine.ask()
    }

    /// The line to which a fault of it belongs, counted from 1; 0 if there is none.
    pub(crate) fn line(&self) -> u32
        ensures { result ≡ self.now.machine.stands.asked.line }
    {
        self.machine.line()
    }

    /// What its next act is, over so many cells, with this fuel, and with so many tasks above it.
    pub(crate) fn deed(&self, cells: &[u64], count: usize, fuel: u32, depth: usize) -> Deed
        ensures deed { result ≡ free_deed count fuel depth self.now.ticks self.now.created self.now.awaits cells.now
            self.now.machine.stands.asked.ask self.now.machine.stands.asked.line }
        ensures ticks { result ≡ deeds.Ticks → self.now.ticks < 4294967295 }
        ensures depth { result ≡ deeds.Creates → depth < 64 }
        ensures created { result ≡ deeds.Creates → self.now.created < 65535 }
        ensures creates { result ≡ deeds.Creates → creates self.now.machine.stands.asked.ask ≡ true }
    {
        if self.awaits {
            return Deed::Awaits;
        }
        let counts = Counts {
            cells: count,
            fuel,
            depth,
            ticks: self.ticks,
            created: self.created,
        };
        deed_of(counts, cells, self.machine.ask(), self.machine.line())
    }

    /// The number of the task that it created last, counted from 0; 0 if there is none.
    fn newest(&self) -> u32
        ensures { result ≡ newest self.now }
    {
        self.created.saturating_sub(1)
    }

    /// Whether it may create one more task, as far as the limits go.
    fn may_create(&self, depth: usize) -> bool
        ensures { result ≡ may_create depth self.now.created }
    {
        !(64 <= depth || 65_535 <= self.created)
    }

    /// Whether what it asks is no act.
    fn is_silent(&self, depth: usize) -> bool
        ensures { result ≡ is_silent (may_create depth self.now.created) self.now.awaits
            self.now.machine.stands.asked.ask }
    {
        let begins = self.may_create(depth);
        silent(self.machine.ask(), begins, self.awaits)
    }

    /// Passes what it asks, if that is no act.
    fn pass(&mut self, code: &Code, depth: usize) -> Result<(), AllocError>
        ensures { OnOk result (self.new ≡ past_task code.now depth self.old) }
    {
        if self.is_silent(depth) {
            self.machine.answer(code, 0)?;
        }
        Ok(())
    }

    /// Passes what it asks before its next act.
    pub(crate) fn settle(&mut self, code: &Code, depth: usize) -> Result<(), AllocError>
        ensures { OnOk result (self.new ≡ settled_task code.now depth self.old) }
    {
        self.pass(code, depth)?;
        self.pass(code, depth)
    }

    /// Its act has happened, with this answer, and it goes on to its next one.
    pub(crate) fn go_on(&mut self, code: &Code, found: u64, depth: usize) -> Result<(), AllocError>
        ensures { OnOk result (self.new ≡ settled_task code.now depth (went_on code.now found self.old)) }
    {
        self.machine.answer(code, found)?;
        self.settle(code, depth)?;
        Ok(())
    }

    /// A tick has happened.
    pub(crate) fn tick(&mut self, code: &Code, depth: usize) -> Result<(), AllocError>
        requires { self.old.ticks < 4294967295 }
        ensures { OnOk result (self.new ≡
            settled_task code.now depth (went_on code.now 0 (record self.old { ticks = self.old.ticks + 1 }))) }
    {
        self.ticks += 1;
        self.go_on(code, 0, depth)
    }

    /// The wait for the task that it created last is over.
    pub(crate) fn wake(&mut self, code: &Code, depth: usize) -> Result<(), AllocError>
        ensures { OnOk result (self.new ≡ settled_task code.now depth (record self.old { awaits = false })) }
    {
        self.awaits = false;
        self.settle(code, depth)
    }

    /// The task that it created last has ended. If that one was included, this one passes now what it asks before its
    /// next act.
    pub(crate) fn resume(&mut self, code: &Code, depth: usize) -> Result<(), AllocError>
        ensures { OnOk result (self.new ≡ resumed_task code.now depth self.old) }
    {
        if self.last {
            self.settle(code, depth)
        } else {
            Ok(())
        }
    }

    /// It has created a task. If that one is not included, this one awaits it.
    pub(crate) fn create(&mut self, code: &Code, depth: usize) -> Result<(), AllocError>
        requires { self.old.created < 65535 }
        ensures { OnOk result (self.new ≡ created_task code.now depth self.old) }
    {
        self.created += 1;
        self.machine.answer(code, 0)?;
        if self.last {
            return Ok(());
        }
        self.awaits = true;
        self.settle(code, depth)?;
        Ok(())
    }

    /// The task that it creates, before its first act.
    pub(crate) fn child(
        &self,
        alloc: Global,
        code: &Code,
        depth: usize,
    ) -> Result<FreeTask, AllocError>
        requires { creates self.now.machine.stands.asked.ask ≡ true }
        ensures { IfOk result (λ child. (o : Order CodeScript) → self.now.machine.stands.asked.ask ≡ Create o →
            child ≡ settled_task code.now depth (new_task code.now (self.now.last || o.last) o.script)) }
    {
        match self.machine.ask() {
            Ask::Create(order) => {
                let order = order.get();
                let last = either(self.last, order.last);
                let mut child = FreeTask::new(alloc, code, order, last)?;
                child.settle(code, depth)?;
                Ok(child)
            }
            _ => unreachable!(),
        }
    }
}

/// The numbers of the tasks that these created last: each is how many its creator had created before it.
pub(crate) fn newest_of(alloc: Global, tasks: &[FreeTask]) -> Result<Vec<u32>, AllocError>
    ensures { IfOk result (λ found. found.items ≡ map newest tasks.now) }
{
    let mut found = Vec::new(alloc);
    for task in tasks {
        found.push(task.newest())?;
    }
    Ok(found)
}

/// Whether one of the two holds.
fn either(one: bool, other: bool) -> bool
    ensures { result ≡ (one || other) }
{
    one || other
}

/// Whether the ask is no act of a task that may begin a creation or not, and awaits one or not.
fn silent(ask: &Ask, begins: bool, awaits: bool) -> bool
    ensures { result ≡ is_silent begins awaits (meant_ask ask.now) }
{
    match ask {
        Ask::Begin => begins,
        Ask::Await => !awaits,
        Ask::Tick => false,
        Ask::Read(_) => false,
        Ask::Write(_, _) => false,
        Ask::Fold(_, _, _) => false,
        Ask::Create(_) => false,
        Ask::Wait => false,
        Ask::WaitOn(_) => false,
        Ask::Release(_) => false,
        Ask::Print(_) => false,
        Ask::End => false,
        Ask::Fault(_) => false,
    }
}
