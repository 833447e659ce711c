//! The plain lists: a dependency system that keeps links and marks alone, and finds each answer by a walk over
//! the lists.

ghost use Rattle.std.specs.Prelude.{◌≡◌, ◌≤◌, ◌<◌, ℕ, IsOk, List as Accesses, MatchOption, OnErr, OnOk, Some};
ghost use Rattle.oss_syntax.specs.declared.access.Access.{Access as Meant};
ghost use Rattle.oss_deps.specs.Seen.{CanOpen, IsNew, IsSame, Opens, Reserves};
ghost use Rattle.oss_deps.specs.Kept.{given_at, seen_of};
ghost use Rattle.oss_deps.specs.Opens.{AreChildrenDone, IsKnown, IsMet};
ghost use Rattle.oss_deps.specs.Hindrances.{HasUndoneChild, Hinders};

use crate::column::Column;
use crate::cutting::{ask_all, ask_ends};
use crate::deps::Deps;
use crate::giving::give_over;
use crate::lookups::number_of;
use crate::opened::Open;
use crate::opening::add_all;
use crate::reserved::{copied, is_reserved};
use crate::reserving::{make_ready, split_around};
use crate::splitting::cover;
use oss_model::TaskNo;
use oss_ranges::RangeMap;
use oss_syntax::{Access, List, Range};
use std::alloc::{AllocError, Global};
use std::marker::Model;

/// The lists themselves, one for each stretch of cells that no cut divides.
pub struct PlainDeps {
    pub(crate) alloc: Global,
    /// The opened tasks, in the order of their openings. A task is known by its place here, counted from 1.
    pub(crate) opens: Vec<Open>,
    /// The place of the stretch of each cell.
    pub(crate) map: RangeMap<usize>,
    /// The stretches, in the order in which they were made; none before the first opening or preparation.
    pub(crate) columns: Vec<Column>,
    /// The end of all cells is a cut that was asked for. No stretch begins there, so none can keep it.
    pub(crate) ended: bool,
    /// The accesses for which room was made, if the next opening has these.
    pub(crate) reserved: Option<List<Access>>,
}

// By hand, so that who lets one go calls this, and does not take it apart at each exit.
impl Drop for PlainDeps {
    fn drop(self) {
        let PlainDeps {
            alloc: _,
            opens,
            map,
            columns,
            ended: _,
            reserved,
        } = self;
        drop(opens);
        drop(map);
        drop(columns);
        drop(reserved);
    }
}

impl Model for PlainDeps {
    ghost use Rattle.oss_deps.specs.Kept.{Kept};

    ghost Value = { Kept };

    ghost use Rattle.oss_deps.specs.Columns.{AreRight};
    ghost use Rattle.std.specs.Prelude.{vec_capacity};

    ghost view = { λ d. record {
      opens = d.opens.items;
      pieces = d.map.pieces;
      columns = d.columns.items;
      ended = d.ended;
      reserved = d.reserved;
    } };

    ghost invariant = { λ d. AreRight d.opens.items (vec_capacity d.opens) d.map.pieces d.columns.items d.reserved };
}

impl PlainDeps {
    /// No task is opened. It takes no memory.
    pub fn new(alloc: Global) -> PlainDeps
        ensures { IsNew (seen_of result) }
    {
        PlainDeps {
            alloc,
            opens: Vec::new(alloc),
            map: RangeMap::new(alloc),
            columns: Vec::new(alloc),
            ended: false,
            reserved: None,
        }
    }
}

impl PlainDeps {
    /// Reserves these accesses, where they are not the reserved ones.
    fn make_reserved(&mut self, accesses: &List<Access>) -> Result<(), AllocError>
        ensures ok { OnOk result (Reserves accesses.now (seen_of self.old) (seen_of self.new)) }
        ensures err { OnErr result (IsSame (seen_of self.old) (seen_of self.new)) }
        ensures sure { self.old.reserved ≡ Some accesses.now → IsOk result }
    {
        if is_reserved(&self.reserved, accesses) {
            return Ok(());
        }
        self.reserve(accesses)
    }

    /// Opens a task with the reserved accesses.
    fn open_reserved(&mut self, task: u64, parent: u64)
        requires { (accesses : Accesses Meant) × (self.old.reserved ≡ Some accesses) ×
            CanOpen (seen_of self.old) (record { task = task; parent = parent; accesses = accesses }) }
        ensures { (accesses : Accesses Meant) → self.old.reserved ≡ Some accesses →
            Opens (record { task = task; parent = parent; accesses = accesses }) (seen_of self.old) (seen_of self.new) }
    {
        let creator = match number_of(self.opens.as_slice(), parent) {
            Some(creator) => creator,
            None => unreachable!(),
        };
        let number = self.opens.len() + 1;
        let kept = match self.reserved.take() {
            Some(kept) => kept,
            None => unreachable!(),
        };
        add_all(
            &self.map,
            &mut self.columns,
            number,
            task,
            creator,
            kept.as_slice(),
        );
        ask_all(
            &self.map,
            &mut self.columns,
            &mut self.ended,
            kept.as_slice(),
        );
        self.opens.push_reserved(Open {
            task,
            parent,
            accesses: kept,
        });
    }
}

impl PlainDeps {
    /// The task of which an access stands in the way of this one.
    fn obstacle_of(&self, task: TaskNo) -> Option<TaskNo>
        requires { IsKnown self.now.opens task.0 }
        ensures { MatchOption result (IsMet self.now.opens (given_at self.now.pieces self.now.columns) task.0)
            (λ u. Hinders self.now.opens (given_at self.now.pieces self.now.columns) task.0 u.0) }
    {
        match number_of(self.opens.as_slice(), task.0) {
            Some(number) => {
                if number == 0 {
                    None
                } else {
                    self.obstacle_to(number)
                }
            }
            None => unreachable!(),
        }
    }

    /// A child of the task with an access to a cell of the range that is not done.
    fn undone_child_of(&self, task: TaskNo, range: Range) -> Option<TaskNo>
        requires { IsKnown self.now.opens task.0 }
        ensures { MatchOption result ((c : ℕ) → range.lo ≤ c → c < range.hi →
            AreChildrenDone self.now.opens (given_at self.now.pieces self.now.columns) task.0 c) (λ u.
            HasUndoneChild self.now.opens (given_at self.now.pieces self.now.columns) task.0 range.lo range.hi u.0) }
    {
        match number_of(self.opens.as_slice(), task.0) {
            Some(number) => self.undone_over(number, range),
            None => unreachable!(),
        }
    }
}

/// What a call costs is told by the stretches that it comes to, and not by their cells: a range has one for
/// each cut in it, and one more. A task is found at once where tasks are opened in the order of their numbers,
/// and its access in a stretch by halving. `met` and `obstacle` then go back, on each level, over the accesses
/// behind the first sibling that is not done, and end at the first that stands in the way; so in a chain of
/// writers one step is enough, and at most each of these accesses is looked at once. `may_join` does so in one
/// stretch. `children_done` and `undone_child` read one mark in each stretch, and end at the first child that
/// is not done.
impl Deps for PlainDeps {
    ghost use Rattle.oss_deps.specs.Kept.{seen_of};

    ghost seen = { seen_of };

    fn reserve(&mut self, accesses: &List<Access>) -> Result<(), AllocError> {
        self.opens.reserve(1)?;
        cover(self.alloc, &mut self.map, &mut self.columns)?;
        make_ready(
            self.alloc,
            &mut self.map,
            &mut self.columns,
            accesses.as_slice(),
        )?;
        self.reserved = Some(copied(self.alloc, accesses)?);
        Ok(())
    }

    fn open(
        &mut self,
        task: TaskNo,
        parent: TaskNo,
        accesses: &List<Access>,
    ) -> Result<(), AllocError> {
        self.make_reserved(accesses)?;
        self.open_reserved(task.0, parent.0);
        Ok(())
    }

    fn prepare(&mut self, range: Range) -> Result<(), AllocError> {
        cover(self.alloc, &mut self.map, &mut self.columns)?;
        split_around(self.alloc, &mut self.map, &mut self.columns, range)?;
        ask_ends(&self.map, &mut self.columns, &mut self.ended, range);
        self.reserved = None;
        Ok(())
    }

    fn give(&mut self, task: TaskNo, range: Range) {
        give_over(
            self.opens.as_slice(),
            &self.map,
            &mut self.columns,
            task.0,
            range,
        )
    }

    fn met(&mut self, task: TaskNo) -> bool {
        // the invariant is known where a field is read
        let _ = &self.alloc;
        self.obstacle_of(task).is_none()
    }

    fn obstacle(&mut self, task: TaskNo) -> Option<TaskNo> {
        self.obstacle_of(task)
    }

    fn may_join(&mut self, task: TaskNo, cell: u32) -> bool {
        match number_of(self.opens.as_slice(), task.0) {
            Some(number) => self.is_joinable(number, cell),
            None => unreachable!(),
        }
    }

    fn children_done(&mut self, task: TaskNo, range: Range) -> bool {
        self.undone_child_of(task, range).is_none()
    }

    fn undone_child(&mut self, task: TaskNo, range: Range) -> Option<TaskNo> {
        self.undone_child_of(task, range)
    }
}
