//! The regions as a dependency system. An opening takes what was reserved, and reserves first if that was for
//! other accesses.

ghost use Rattle.std.specs.Prelude.{◌≡◌, List as Accesses, IsOk, OnErr, OnOk, Some};
ghost use Rattle.oss_syntax.specs.declared.access.Access.{Access as Meant};
ghost use Rattle.oss_deps.specs.Seen.{CanOpen, IsSame, Opens, Reserves};
ghost use Rattle.oss_regions.specs.Kept.{seen_of};

use crate::lookups::number_of;
use crate::regions::Regions;
use crate::reserved::{copied, is_reserved};
use oss_deps::{Deps, Open};
use oss_model::TaskNo;
use oss_syntax::{Access, List, Range};
use std::alloc::AllocError;

impl Regions {
    /// Reserves these accesses, where they are not the reserved ones.
    fn make_reserved(&mut self, accesses: &List<Access>) -> Result<(), AllocError>
        ensures ok { OnOk result (Reserves accesses.now (seen_of self.old) (seen_of self.new)) }
        ensures err { OnErr result (IsSame (seen_of self.old) (seen_of self.new)) }
        ensures sure { self.old.reserved ≡ Some accesses.now → IsOk result }
    {
        if is_reserved(&self.reserved, accesses) {
            return Ok(());
        }
        self.reserve(accesses)
    }

    /// Opens a task with the reserved accesses.
    fn open_reserved(&mut self, task: u64, parent: u64)
        requires { (accesses : Accesses Meant) × (self.old.reserved ≡ Some accesses) ×
            CanOpen (seen_of self.old) (record { task = task; parent = parent; accesses = accesses }) }
        ensures { (accesses : Accesses Meant) → self.old.reserved ≡ Some accesses →
            Opens (record { task = task; parent = parent; accesses = accesses }) (seen_of self.old) (seen_of self.new) }
    {
        let creator = match number_of(self.opens.as_slice(), parent) {
            Some(creator) => creator,
            None => unreachable!(),
        };
        let number = self.opens.len() + 1;
        let kept = match self.reserved.take() {
            Some(kept) => kept,
            None => unreachable!(),
        };
        self.cells.open(number, creator, kept.as_slice());
        self.opens.push_reserved(Open {
            task,
            parent,
            accesses: kept,
        });
    }
}

/// What a call costs is told by the fragments of the cells that it comes to, and not by their cells. A task is
/// found at once where tasks are opened in the order of their numbers, and its access in a fragment by halving.
/// `met` and `may_join` then look at the flags of one access in each fragment, and so does `children_done`
/// where all are done. `obstacle` and `undone_child` go back over the accesses before it until the first that
/// stands in the way, or is not done.
impl Deps for Regions {
    ghost use Rattle.oss_regions.specs.Kept.{seen_of};

    ghost seen = { seen_of };

    fn reserve(&mut self, accesses: &List<Access>) -> Result<(), AllocError> {
        self.opens.reserve(1)?;
        self.cells.reserve(accesses.as_slice())?;
        self.reserved = Some(copied(self.alloc, accesses)?);
        Ok(())
    }

    fn open(
        &mut self,
        task: TaskNo,
        parent: TaskNo,
        accesses: &List<Access>,
    ) -> Result<(), AllocError> {
        self.make_reserved(accesses)?;
        self.open_reserved(task.0, parent.0);
        Ok(())
    }

    fn prepare(&mut self, range: Range) -> Result<(), AllocError> {
        self.cells.prepare(range)?;
        self.reserved = None;
        Ok(())
    }

    fn give(&mut self, task: TaskNo, range: Range) {
        match number_of(self.opens.as_slice(), task.0) {
            Some(number) => self.cells.give(number, range),
            None => unreachable!(),
        }
    }

    fn met(&mut self, task: TaskNo) -> bool {
        self.is_met(task)
    }

    fn obstacle(&mut self, task: TaskNo) -> Option<TaskNo> {
        self.obstacle_of(task)
    }

    fn may_join(&mut self, task: TaskNo, cell: u32) -> bool {
        self.is_joinable(task, cell)
    }

    fn children_done(&mut self, task: TaskNo, range: Range) -> bool {
        self.undone_child_of(task, range).is_none()
    }

    fn undone_child(&mut self, task: TaskNo, range: Range) -> Option<TaskNo> {
        self.undone_child_of(task, range)
    }
}
