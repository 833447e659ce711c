//! The state of the system, and its answers over a range, from fragment to fragment.

ghost use Rattle.std.specs.Prelude.{◌≡◌, ◌↔◌, ◌≤◌, ◌<◌, ◌+◌, ℕ, IsOk, IsTrue, List as Accesses, MatchOption, None, OnErr, OnOk, Some, length};
ghost use Rattle.oss_syntax.specs.declared.access.Access.{Access as Meant};
ghost use Rattle.oss_syntax.specs.declared.access.Op.{Op as Operator};
ghost use Rattle.oss_syntax.specs.declared.access.Mode.TheVariants.{Fold};
ghost use Rattle.oss_model.specs.Order.{IsIn};
ghost use Rattle.oss_model.specs.Forest.{IsJoinSatisfied};
ghost use Rattle.oss_deps.specs.declared.opened.Open.{Open as Entry};
ghost use Rattle.oss_deps.specs.Columns.{IsNumber, IsNumberOf};
ghost use Rattle.oss_deps.specs.Opens.{AreChildrenDone, HasOpened, IsFolding, IsKnown, IsMet, mode_in, opened_forest};
ghost use Rattle.oss_deps.specs.Hindrances.{HasUndoneChild, Hinders};
ghost use Rattle.oss_deps.specs.Seen.{IsNew};
ghost use Rattle.oss_fragments.specs.Kept.{here_at};
ghost use Rattle.oss_regions.specs.Kept.{AreSatisfied, AsksOver, IsAccessMet, given_at, seen_of};

use crate::lookups::{number_of, task_of};
use crate::parts::{bar_in, child_in, joins_in, lets_in};
use oss_deps::Open;
use oss_fragments::Fragments;
use oss_model::TaskNo;
use oss_syntax::{Access, List, Mode, Range};
use std::alloc::Global;
use std::marker::Model;

/// The accesses to each cell in lists that cells share which no cut divides, with flags that messages move
/// along the lists: what may go on is told by the flags of an access alone, however many accesses stand before
/// it, or by there being none any more.
pub struct Regions {
    pub(crate) alloc: Global,
    /// The opened tasks, in the order of their openings. A task is known by its place here, counted from 1.
    pub(crate) opens: Vec<Open>,
    /// The accesses to each cell.
    pub(crate) cells: Fragments,
    /// The accesses for which room was made, if the next opening has these.
    pub(crate) reserved: Option<List<Access>>,
}

// By hand, so that who lets one go calls this, and does not take it apart at each exit.
impl Drop for Regions {
    fn drop(self) {
        let Regions {
            alloc: _,
            opens,
            cells,
            reserved,
        } = self;
        drop(opens);
        drop(cells);
        drop(reserved);
    }
}

impl Model for Regions {
    ghost use Rattle.oss_regions.specs.Kept.{Kept};

    ghost Value = { Kept };

    ghost use Rattle.oss_regions.specs.Kept.{AreRight};
    ghost use Rattle.std.specs.Prelude.{vec_capacity};

    ghost view = { λ d. record { opens = d.opens.items; cells = d.cells; reserved = d.reserved } };

    ghost invariant = { λ d. AreRight d.opens.items (vec_capacity d.opens) d.cells d.reserved };
}

impl Regions {
    /// No task is opened. It takes no memory.
    pub fn new(alloc: Global) -> Regions
        ensures { IsNew (seen_of result) }
    {
        Regions {
            alloc,
            opens: Vec::new(alloc),
            cells: Fragments::new(alloc),
            reserved: None,
        }
    }

    /// How many accesses are kept at a cell, main's among them. Those on which nothing depends any more are
    /// left out where its fragment is divided. It takes no memory, and costs the logarithm of the number of
    /// fragments. Condition: a program may have the cell.
    pub fn kept_at(&self, cell: u32) -> usize
        requires { cell < 1048576 }
        ensures { result ≡ length (here_at self.now.cells cell).tasks }
    {
        match self.cells.at(cell) {
            Some(part) => part.tasks.len(),
            None => 1,
        }
    }

    /// The task whose access stands in the way of that of a task to a cell of a range, where it waits in this mode.
    fn bar_over(&self, number: usize, mode: Mode, range: Range) -> Option<TaskNo>
        requires { AsksOver self.now.opens number mode range.lo range.hi }
        ensures { (o : Entry) → IsNumber self.now.opens number o →
            MatchOption result (AreSatisfied self.now mode o range.lo range.hi) (λ u.
            Hinders self.now.opens (given_at self.now.opens self.now.cells) o.task u.0) }
    {
        let mut cell = range.lo;
        'parts: while cell < range.hi {
            match self.cells.at(cell) {
                Some(part) => {
                    match bar_in(part, number, mode) {
                        Some(bar) => return Some(task_of(self.opens.as_slice(), bar)),
                        None => {}
                    }
                    cell = part.hi;
                }
                // no cell has an access but main's, so the task's was left out
                None => return None,
            }
        }
        None
    }

    /// The task whose access stands in the way of an access of a task.
    fn obstacle_at(&self, number: usize, access: Access) -> Option<TaskNo>
        requires { (o : Entry) × IsNumber self.now.opens number o × IsIn access o.accesses }
        ensures { (o : Entry) → IsNumber self.now.opens number o →
            MatchOption result (IsAccessMet self.now o access) (λ u.
            Hinders self.now.opens (given_at self.now.opens self.now.cells) o.task u.0) }
    {
        // the invariant is known where a field is read
        let _ = &self.alloc;
        if !access.strong {
            return None;
        }
        self.bar_over(number, access.mode, access.range)
    }

    /// The task whose access stands in the way of a task.
    fn obstacle_to(&self, number: usize) -> Option<TaskNo>
        requires { (o : Entry) × IsNumber self.now.opens number o }
        ensures { (o : Entry) → IsNumber self.now.opens number o → MatchOption result ((a : Meant) →
            IsIn a o.accesses → IsAccessMet self.now o a) (λ u.
            Hinders self.now.opens (given_at self.now.opens self.now.cells) o.task u.0) }
    {
        for access in self.opens[number - 1].accesses.as_slice() {
            let obstacle = self.obstacle_at(number, *access);
            if obstacle.is_some() {
                return obstacle;
            }
        }
        None
    }

    /// The task of which an access stands in the way of this one.
    pub(crate) fn obstacle_of(&self, task: TaskNo) -> Option<TaskNo>
        requires { IsKnown self.now.opens task.0 }
        ensures { MatchOption result (IsMet self.now.opens (given_at self.now.opens self.now.cells) task.0)
            (λ u. Hinders self.now.opens (given_at self.now.opens self.now.cells) task.0 u.0) }
    {
        match number_of(self.opens.as_slice(), task.0) {
            Some(number) => {
                if number == 0 {
                    None
                } else {
                    self.obstacle_to(number)
                }
            }
            None => unreachable!(),
        }
    }

    /// What the task waits for in this mode has come at each cell of a range.
    fn is_let_over(&self, number: usize, mode: Mode, range: Range) -> bool
        requires { AsksOver self.now.opens number mode range.lo range.hi }
        ensures { (o : Entry) → IsNumber self.now.opens number o →
            (IsTrue result ↔ AreSatisfied self.now mode o range.lo range.hi) }
    {
        let mut cell = range.lo;
        'parts: while cell < range.hi {
            match self.cells.at(cell) {
                Some(part) => {
                    if !lets_in(part, number, mode) {
                        return false;
                    }
                    cell = part.hi;
                }
                // no cell has an access but main's, so the task's was left out
                None => return true,
            }
        }
        true
    }

    /// What an access of a task waits for has come.
    fn is_access_met(&self, number: usize, access: Access) -> bool
        requires { (o : Entry) × IsNumber self.now.opens number o × IsIn access o.accesses }
        ensures { (o : Entry) → IsNumber self.now.opens number o → (IsTrue result ↔ IsAccessMet self.now o access) }
    {
        // the invariant is known where a field is read
        let _ = &self.alloc;
        if !access.strong {
            return true;
        }
        self.is_let_over(number, access.mode, access.range)
    }

    /// What the accesses of a task wait for has come.
    fn are_accesses_met(&self, number: usize) -> bool
        requires { (o : Entry) × IsNumber self.now.opens number o }
        ensures { (o : Entry) → IsNumber self.now.opens number o →
            (IsTrue result ↔ ((a : Meant) → IsIn a o.accesses → IsAccessMet self.now o a)) }
    {
        for access in self.opens[number - 1].accesses.as_slice() {
            if !self.is_access_met(number, *access) {
                return false;
            }
        }
        true
    }

    /// The task may begin, as far as its cells go.
    pub(crate) fn is_met(&self, task: TaskNo) -> bool
        requires { IsKnown self.now.opens task.0 }
        ensures { IsTrue result ↔ IsMet self.now.opens (given_at self.now.opens self.now.cells) task.0 }
    {
        match number_of(self.opens.as_slice(), task.0) {
            Some(number) => {
                if number == 0 {
                    true
                } else {
                    self.are_accesses_met(number)
                }
            }
            None => unreachable!(),
        }
    }

    /// A child of the task whose access to a cell of a range is not done.
    fn undone_over(&self, number: usize, range: Range) -> Option<TaskNo>
        requires { (t : ℕ) × IsNumberOf self.now.opens number t }
        ensures { (t : ℕ) → IsNumberOf self.now.opens number t → MatchOption result ((c : ℕ) → range.lo ≤ c →
            c < range.hi → AreChildrenDone self.now.opens (given_at self.now.opens self.now.cells) t c) (λ u.
            HasUndoneChild self.now.opens (given_at self.now.opens self.now.cells) t range.lo range.hi u.0) }
    {
        let mut cell = range.lo;
        'parts: while cell < range.hi {
            match self.cells.at(cell) {
                Some(part) => {
                    match child_in(part, number) {
                        Some(child) => return Some(task_of(self.opens.as_slice(), child)),
                        None => {}
                    }
                    cell = part.hi;
                }
                None => return None,
            }
        }
        None
    }

    /// A child of the task with an access to a cell of the range that is not done.
    pub(crate) fn undone_child_of(&self, task: TaskNo, range: Range) -> Option<TaskNo>
        requires { IsKnown self.now.opens task.0 }
        ensures { MatchOption result ((c : ℕ) → range.lo ≤ c → c < range.hi →
            AreChildrenDone self.now.opens (given_at self.now.opens self.now.cells) task.0 c) (λ u.
            HasUndoneChild self.now.opens (given_at self.now.opens self.now.cells) task.0 range.lo range.hi u.0) }
    {
        match number_of(self.opens.as_slice(), task.0) {
            Some(number) => self.undone_over(number, range),
            None => unreachable!(),
        }
    }

    /// The slot of a task may be joined into a cell.
    pub(crate) fn is_joinable(&self, task: TaskNo, cell: u32) -> bool
        requires { IsFolding self.now.opens task.0 cell }
        ensures { (op : Operator) → mode_in self.now.opens cell task.0 ≡ Fold op →
            (IsTrue result ↔ IsJoinSatisfied (opened_forest self.now.opens
            (given_at self.now.opens self.now.cells) cell) op task.0) }
    {
        match number_of(self.opens.as_slice(), task.0) {
            Some(number) => self.joins_at(number, cell),
            None => unreachable!(),
        }
    }

    /// The same by the number of the task.
    fn joins_at(&self, number: usize, cell: u32) -> bool
        requires { (o : Entry) × IsNumber self.now.opens number o × HasOpened self.now.opens cell o.task }
        ensures { (o : Entry) (op : Operator) → IsNumber self.now.opens number o →
            mode_in self.now.opens cell o.task ≡ Fold op →
            (IsTrue result ↔ IsJoinSatisfied (opened_forest self.now.opens
            (given_at self.now.opens self.now.cells) cell) op o.task) }
    {
        match self.cells.at(cell) {
            Some(part) => joins_in(part, number),
            // no cell has an access but main's, so the task's was left out
            None => true,
        }
    }
}
