//! The free run, act by act.

ghost use Rattle.std.specs.Prelude.{◌≡◌, ◌<◌, ◌≤◌, ℕ, length, reverse, true, IfOk, OnOk};
ghost use Rattle.oss_code.specs.declared.code.CodeParts.{CodeParts};
ghost use Rattle.oss_free_tasks.specs.Deeds.{IsDeed, creates};
ghost use Rattle.oss_free_tasks.specs.declared.deed.Deed.TheVariants as deeds;
ghost use Rattle.oss_machine.specs.Asks.{meant_ask, meant_order};
ghost use Rattle.oss_machine.specs.Machines.{asks};
ghost use Rattle.oss_model.specs.Bodies.{ask_of};
ghost use Rattle.oss_model.specs.Moves.{act_now};
ghost use Rattle.oss_free_run.specs.FreeTasks.{first_task, free_program, main_order as order_of_main};

use crate::memory::happen;
use crate::task::{FreeTask, newest_of};
use oss_code::{Code, TaskOrder};
use oss_free_tasks::Deed;
use oss_machine::Ask;
use oss_model::FaultKind;
use oss_syntax::List;
use std::alloc::{AllocError, Global};
use std::mem;

/// The free run at one of its stages: the task that acts, those above it, which wait for it, main first, and memory.
/// There is no output: a print is shown as it is asked for.
pub struct FreeRun {
    alloc: Global,
    /// How many ticks each task may do.
    fuel: u32,
    current: FreeTask,
    above: List<FreeTask>,
    cells: Vec<u64>,
}

// By hand, so that who lets one go calls this, and does not take it apart at each exit.
impl Drop for FreeRun {
    fn drop(self) {
        let FreeRun {
            alloc: _,
            fuel: _,
            current,
            above,
            cells,
        } = self;
        drop(current);
        drop(above);
        drop(cells);
    }
}

/// What a turn came to.
#[derive(Clone, Copy)]
pub enum Turned {
    /// The run goes on.
    On,
    /// Main has ended.
    Ended,
    /// A fault stopped the run, on this line.
    Failed(FaultKind, u32),
}

/// What main is to run.
fn main_order(alloc: Global) -> TaskOrder
    ensures { meant_order result ≡ order_of_main }
{
    TaskOrder {
        entry: 0,
        copies: List::new(alloc),
        accesses: List::new(alloc),
        when: true,
        last: false,
        wait: false,
        priority: 0,
    }
}

/// Main before its first act.
fn first_task(alloc: Global, code: &Code) -> Result<FreeTask, AllocError>
    ensures { IfOk result (λ task. task ≡ first_task code.now) }
{
    let order = main_order(alloc);
    let mut task = FreeTask::new(alloc, code, &order, false)?;
    task.settle(code, 0)?;
    Ok(task)
}

impl FreeRun {
    ghost use Rattle.oss_free_run.specs.Stages.{IsDown, IsFirstStage, IsStage, IsTurned, IsUp};

    /// The run at its beginning, each task with fuel for so many ticks. Want of memory is the one error. Condition:
    /// the code has at most 1,048,576 cells.
    pub fn begin(alloc: Global, code: &Code, fuel: u32) -> Result<FreeRun, AllocError>
        requires { length code.now.first ≤ 1048576 }
        ensures { IfOk result (λ run. IsFirstStage code.now fuel run) }
    {
        let cells = Vec::from_slice(alloc, code.first().as_slice())?;
        let current = first_task(alloc, code)?;
        Ok(FreeRun {
            alloc,
            fuel,
            current,
            above: List::new(alloc),
            cells,
        })
    }

    /// What the program itself asks next for the task that acts, clauses and all.
    pub fn ask(&self) -> &Ask
        ensures { (code : CodeParts) (fuel : ℕ) (s : IsStage code fuel self.now) →
            meant_ask result.now ≡ (ask_of (asks code) s.task).ask }
    {
        self.current.ask()
    }

    /// The line to which a fault of it belongs, counted from 1; 0 if there is none.
    pub fn line(&self) -> u32
        ensures { (code : CodeParts) (fuel : ℕ) (s : IsStage code fuel self.now) →
            result ≡ (ask_of (asks code) s.task).line }
    {
        self.current.line()
    }

    /// What the next act of that task is. The code is that with which the run began.
    pub fn deed(&self, code: &Code) -> Deed
        ensures deed { (fuel : ℕ) (s : IsStage code.now fuel self.now) → IsDeed (length code.now.first) s.task
            (act_now (free_program code.now) s.stands.body) (ask_of (asks code.now) s.task).ask self.now.cells.items
            result }
        ensures ticks { result ≡ deeds.Ticks → self.now.current.ticks < 4294967295 }
        ensures depth { result ≡ deeds.Creates → length self.now.above < 64 }
        ensures created { result ≡ deeds.Creates → self.now.current.created < 65535 }
        ensures creates { result ≡ deeds.Creates → creates self.now.current.machine.stands.asked.ask ≡ true }
    {
        self.current.deed(
            self.cells.as_slice(),
            code.first().as_slice().len(),
            self.fuel,
            self.above.len(),
        )
    }

    /// How many tasks wait for the one that acts: it stands so deep, and 0 is main.
    pub fn depth(&self) -> usize
        ensures { (code : CodeParts) (fuel : ℕ) (s : IsStage code fuel self.now) → result ≡ length s.older }
    {
        self.above.len()
    }

    /// The numbers on the way from main down to the task that acts: each tells how many tasks the creator had created
    /// before it. Of main there is none. Want of memory is the one error.
    pub fn path(&self) -> Result<Vec<u32>, AllocError>
        ensures { IfOk result (λ path. (code : CodeParts) (fuel : ℕ) (s : IsStage code fuel self.now) →
            reverse path.items ≡ s.task.path) }
    {
        newest_of(self.alloc, self.above.as_slice())
    }

    /// How many tasks the task that acts has created.
    pub fn created(&self) -> u32
        ensures { (code : CodeParts) (fuel : ℕ) (s : IsStage code fuel self.now) → result ≡ s.task.context.created }
    {
        self.current.created
    }

    /// Whether the task that acts is final. A final task includes the tasks that it creates.
    pub fn is_final(&self) -> bool
        ensures { (code : CodeParts) (fuel : ℕ) (s : IsStage code fuel self.now) → result ≡ s.task.context.final }
    {
        self.current.last
    }

    /// One act of the task that acts. An end goes up to the creator, and a creation down to the new task. The code is that
    /// with which the run began. After want of memory the run is given up.
    pub fn turn(&mut self, code: &Code) -> Result<Turned, AllocError>
        ensures { IfOk result (λ turned. (fuel : ℕ) (was : IsStage code.now fuel self.old) →
            IsTurned code.now fuel self.old was self.new turned) }
    {
        let depth = self.above.len();
        match self.deed(code) {
            Deed::Ticks => {
                self.current.tick(code, depth)?;
                Ok(Turned::On)
            }
            Deed::Awaits => {
                self.current.wake(code, depth)?;
                Ok(Turned::On)
            }
            Deed::Finds(found) => {
                happen(self.current.ask(), &mut self.cells);
                self.current.go_on(code, found, depth)?;
                Ok(Turned::On)
            }
            Deed::Creates => {
                self.go_down(code)?;
                Ok(Turned::On)
            }
            Deed::Ends => self.go_up(code),
            Deed::Stops(kind, line) => Ok(Turned::Failed(kind, line)),
        }
    }

    /// The creator of the task that has ended goes on, if there is one.
    fn go_up(&mut self, code: &Code) -> Result<Turned, AllocError>
        ensures { IfOk result (λ turned. IsUp code.now self.old self.new turned) }
    {
        match self.above.pop() {
            Some(creator) => {
                self.current = creator;
                self.current.resume(code, self.above.len())?;
                Ok(Turned::On)
            }
            None => Ok(Turned::Ended),
        }
    }

    /// The task goes down to the one that it creates, and waits for it. After want of memory the run is given up.
    fn go_down(&mut self, code: &Code) -> Result<(), AllocError>
        requires depth { length self.old.above < 64 }
        requires created { self.old.current.created < 65535 }
        requires creates { creates self.old.current.machine.stands.asked.ask ≡ true }
        ensures { OnOk result (IsDown code.now self.old self.new) }
    {
        let depth = self.above.len();
        let child = self.current.child(self.alloc, code, depth + 1)?;
        self.current.create(code, depth)?;
        let creator = mem::replace(&mut self.current, child);
        self.above.push(creator)
    }
}
