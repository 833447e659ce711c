//! What is kept beside the free run on the second walk.

ghost use Rattle.std.specs.Prelude.{◌≡◌, ◌&&◌, not, ℕ, List as Items, Some, is_some, slice_set, IfOk, OnOk};
ghost use Rattle.oss_syntax.specs.declared.tree.program.Item.{Item};
ghost use Rattle.oss_machine.specs.Asks.{meant_ask};
ghost use Rattle.oss_lacks.specs.Nests.{alone, Nest};
ghost use Rattle.oss_missing_waits.specs.Holding.{Holding, lent_when, main as main_holding};
ghost use Rattle.oss_missing_waits.specs.Kept.{IsUseThen, Leads, touch_of};
ghost use Rattle.oss_missing_waits.specs.Following.{AreSaid, HaveEnded, IsClosed, IsFollowing, IsNoted, IsOneMore, IsOpened, IsReturned, Steps, may_write, said_by as told_by, said_in};
ghost use Rattle.oss_missing_waits.specs.Waits.{IsTouched, Mended};

use crate::holding::HoldingTask;
use crate::waits::TaskWaits;
use oss_explanation::Touching;
use oss_lacks::TaskLacks;
use oss_lent_cells::{Child, counted};
use oss_machine::Ask;
use oss_missing_lines::Late;
use oss_needs::Clause;
use oss_pieces::Layout;
use oss_syntax::{List, Mode};
use std::alloc::{AllocError, Global};
use std::mem;

/// An open task with its number: so many were created before it. Main's number is 0, and says nothing.
pub(crate) struct OpenTask {
    pub(crate) number: usize,
    pub(crate) task: HoldingTask,
}

// By hand, so that who lets one go calls this, and does not take it apart at each exit.
impl Drop for OpenTask {
    fn drop(self) {
        let OpenTask { number: _, task } = self;
        drop(task);
    }
}

impl OpenTask {
    /// The lines that were told of it.
    fn into_told(self) -> List<Late>
        ensures { result ≡ self.task.told }
    {
        let OpenTask { number: _, task } = self;
        task.into_told()
    }
}

/// The task that acts, those that wait for it, main first, and what was told of each that was created, by its number, once it has
/// ended. After want of memory a call has done a part of its work, and all is given up.
pub(crate) struct Following {
    alloc: Global,
    pub(crate) current: OpenTask,
    pub(crate) above: List<OpenTask>,
    pub(crate) told: Vec<List<Late>>,
}

// By hand, so that who lets one go calls this, and does not take it apart at each exit.
impl Drop for Following {
    fn drop(self) {
        let Following {
            alloc: _,
            current,
            above,
            told,
        } = self;
        drop(current);
        drop(above);
        drop(told);
    }
}

impl Following {
    /// Main alone, before its first act. It takes no memory.
    pub(crate) fn new(alloc: Global) -> Following
        ensures { (all : Items Item) (w : Mended) → IsFollowing all w (alone main_holding) result }
    {
        let task = HoldingTask::new(alloc);
        let above = List::new(alloc);
        let told = Vec::new(alloc);
        Following {
            alloc,
            current: OpenTask { number: 0, task },
            above,
            told,
        }
    }

    /// The task that acts touches a cell on this line.
    fn touch(
        &mut self,
        layout: &Layout,
        tasks: &[TaskLacks],
        touch: Touching,
        cell: u32,
        line: u32,
    ) -> Result<(), AllocError>
        ensures { OnOk result (Steps layout.now tasks.now (λ w n m. IsTouched (touch_of touch) cell line n m)
            self.old self.new) }
    {
        let clause = self.clause_at(tasks, cell);
        self.current.task.touch(layout, touch, cell, line, clause)?;
        Ok(())
    }

    /// By what the task that acts has a cell.
    fn clause_at(&self, tasks: &[TaskLacks], cell: u32) -> Option<Clause>
        ensures { (all : Items Item) (w : Mended) (n : Nest Holding) → AreSaid w tasks.now → IsFollowing all w n self.now →
            result ≡ n.acting.task.has cell }
    {
        let alone = self.above.is_empty();
        if alone {
            Some(Clause {
                mode: Mode::Write,
                strong: true,
                fresh: false,
            })
        } else {
            said_of(tasks, self.current.number, cell)
        }
    }

    /// The task that acts creates one on this line after `created` others, and lends to it or does not. The new one acts from then on.
    fn create(
        &mut self,
        layout: &Layout,
        tasks: &[TaskLacks],
        created: u32,
        line: u32,
        lends: bool,
    ) -> Result<(), AllocError>
        ensures { OnOk result (Steps layout.now tasks.now (IsOpened created line lends) self.old self.new) }
    {
        let number = add_slot(self.alloc, &mut self.told)?;
        give(
            &mut self.current.task,
            layout,
            tasks,
            number,
            created,
            line,
            lends,
        )?;
        let task = HoldingTask::new(self.alloc);
        let creator = mem::replace(&mut self.current, OpenTask { number, task });
        self.above.push(creator)?;
        Ok(())
    }

    /// The task that acts ends, and its creator acts from then on. The answer is whether there was one; for main there is none, and
    /// nothing changes.
    fn close(&mut self) -> bool
        ensures { IsClosed self.old self.new result }
    {
        match self.above.pop() {
            Some(creator) => {
                let ended = mem::replace(&mut self.current, creator);
                fill_slot(&mut self.told, ended);
                true
            }
            None => false,
        }
    }

    /// The task that acts asks this, on this line; it has created so many, and is final or not. The run goes on from there.
    pub(crate) fn note(
        &mut self,
        layout: &Layout,
        tasks: &[TaskLacks],
        ask: &Ask,
        line: u32,
        created: u32,
        is_final: bool,
    ) -> Result<(), AllocError>
        ensures { OnOk result (Steps layout.now tasks.now (IsNoted (meant_ask ask.now) line created is_final)
            self.old self.new) }
    {
        match ask {
            Ask::Read(cell) => {
                self.touch(layout, tasks, Touching::Reading, *cell, line)?;
                Ok(())
            }
            Ask::Write(cell, _) => {
                self.touch(layout, tasks, Touching::Writing, *cell, line)?;
                Ok(())
            }
            Ask::Fold(cell, op, _) => {
                self.touch(layout, tasks, Touching::Folding(*op), *cell, line)?;
                Ok(())
            }
            Ask::Create(order) => {
                let order = order.get();
                let lends = lends_to(order.when, is_final);
                self.create(layout, tasks, created, line, lends)?;
                Ok(())
            }
            Ask::WaitOn(ranges) => {
                self.current.task.wait_on(layout, ranges.as_slice(), line)?;
                Ok(())
            }
            Ask::Release(clauses) => {
                self.current.task.release(layout, clauses.as_slice(), line)?;
                Ok(())
            }
            Ask::Wait => {
                self.current.task.wait();
                Ok(())
            }
            Ask::End => {
                let _more = self.close();
                Ok(())
            }
            Ask::Begin => Ok(()),
            Ask::Tick => Ok(()),
            Ask::Await => Ok(()),
            Ask::Print(_) => Ok(()),
            Ask::Fault(_) => Ok(()),
        }
    }

    /// The lines of main, which acts, and of the tasks by their numbers.
    pub(crate) fn into_waits(self) -> TaskWaits
        ensures { result ≡ record { main = self.current.task.told; tasks = self.told.items } }
    {
        let Following {
            alloc: _,
            current,
            above,
            told,
        } = self;
        drop(above);
        TaskWaits {
            main: current.into_told(),
            tasks: List::from_vec(told),
        }
    }

    /// All that are open end, the newest first, and main is left.
    pub(crate) fn close_all(&mut self)
        ensures { HaveEnded self.old self.new }
    {
        'ends: loop {
            let more = self.close();
            if !more {
                return;
            }
        }
    }
}

/// Whether a task, final or not, lends to a child whose clause `if` has this value. A final task includes its children.
fn lends_to(when: bool, is_final: bool) -> bool
    ensures { result ≡ (when && not is_final) }
{
    when && !is_final
}

/// What the clauses of the task with this number say of a cell once they are mended, as that counts.
fn said_of(tasks: &[TaskLacks], number: usize, cell: u32) -> Option<Clause>
    ensures { result ≡ said_in tasks.now number cell }
{
    let count = tasks.len();
    if number < count {
        said_by(&tasks[number], cell)
    } else {
        None
    }
}

/// What the clauses of this task do.
fn said_by(task: &TaskLacks, cell: u32) -> Option<Clause>
    ensures { result ≡ told_by (Some task.now) cell }
{
    match task.mending.clauses.get(cell) {
        Some(clause) => Some(counted(clause, task.is_final)),
        None => None,
    }
}

/// A task creates the one with this number on this line after `created` others, and lends to it or does not.
fn give(
    creator: &mut HoldingTask,
    layout: &Layout,
    tasks: &[TaskLacks],
    number: usize,
    created: u32,
    line: u32,
    lends: bool,
) -> Result<(), AllocError>
    ensures { OnOk result (Leads layout.now (IsUseThen (λ c. is_some (said_in tasks.now number c)) line
        (lent_when lends created line (said_in tasks.now number))) creator.old creator.new) }
{
    let count = tasks.len();
    if number < count {
        let task = &tasks[number];
        let child = Child {
            number: created,
            line,
            is_final: task.is_final,
        };
        creator.create(layout, &task.mending.clauses, child, lends)?;
        Ok(())
    } else {
        Ok(())
    }
}

/// A place for the lines of one more task. Its number is handed out.
fn add_slot(alloc: Global, slots: &mut Vec<List<Late>>) -> Result<usize, AllocError>
    ensures { IfOk result (IsOneMore slots.old.items slots.new.items) }
{
    let number = slots.len();
    slots.push(List::new(alloc))?;
    Ok(number)
}

/// Puts the lines of a task that has ended into its place.
fn fill_slot(slots: &mut Vec<List<Late>>, ended: OpenTask)
    ensures { slots.new.items ≡ slice_set slots.old.items ended.number ended.task.told }
{
    let number = ended.number;
    set_slot(slots, number, ended.into_told());
}

/// Puts lines into a place, if there is one with this number.
fn set_slot(slots: &mut Vec<List<Late>>, number: usize, told: List<Late>)
    ensures { slots.new.items ≡ slice_set slots.old.items number told }
{
    if number < slots.len() {
        drop(mem::replace(&mut slots[number], told));
    } else {
        drop(told);
    }
}
