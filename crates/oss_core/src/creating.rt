//! Creations of tasks.

ghost use Rattle.std.specs.Prelude.{◌≡◌, ℕ, false, length, IfOk, OnOk, Some, slice_get, List as Items};
ghost use Rattle.oss_deps.specs.Seen.{CanOpen};
ghost use Rattle.oss_judge.specs.Joined.{IsRising, held_right};
ghost use Rattle.oss_machine.specs.Frames.{CodeScript};
ghost use Rattle.oss_model.specs.Bodies.{Start};
ghost use Rattle.oss_model.specs.Context.{right_of};
ghost use Rattle.oss_model.specs.Rights.{Holds, right_from};
ghost use Rattle.oss_body.specs.Relation.{IsBody, has_wait};
ghost use Rattle.oss_code.specs.declared.code.CodeParts.{CodeParts};
ghost use Rattle.oss_deps.specs.Opens.{access_at};
ghost use Rattle.oss_ranges.specs.Cells.{value_at};
ghost use Rattle.oss_syntax.specs.declared.access.Access.{Access as Meant};
ghost use Rattle.oss_tree.specs.Tasks.{MayCreate, grown};
ghost use Rattle.oss_kept_tasks.specs.declared.held.Held.{Held as Kept};
ghost use Rattle.oss_core.specs.Changes.{IsCreated, noted_new, owed_by_access};
ghost use Rattle.oss_core.specs.Kept.{owed_by};
ghost use Rattle.oss_core.specs.Going.{HasCreated, IsBeforeCreation, StandsBeforeCreation};

use crate::machine::Core;
use crate::stepping::go_on;
use oss_code::Code;
use oss_deps::Deps;
use oss_kept_tasks::{BoxedBody, Held, Owed};
use oss_model::TaskNo;
use oss_ranges::RangeMap;
use oss_syntax::{Access, List, Mode};
use oss_tree::Tree;
use std::alloc::{AllocError, Global};

/// A task that is to be added: what is kept of it, and its accesses.
#[derive(Drop)]
pub(crate) struct Newborn {
    pub(crate) held: Held,
    pub(crate) accesses: List<Access>,
}

/// What a task has of cells: its accesses, and how each cell of them is to be given up.
#[derive(Drop)]
pub(crate) struct Share {
    pub(crate) accesses: List<Access>,
    pub(crate) owed: RangeMap<Owed>,
}

/// How the cells of an access are given up: those of a strong reduction by joins, and all others by lets.
fn owed_of(access: &Access) -> Owed
    ensures { Some result ≡ owed_by (Holds access.now.mode access.now.strong) }
{
    match access.mode {
        Mode::Fold(op) => {
            if access.strong {
                Owed::Join(op)
            } else {
                Owed::Let
            }
        }
        Mode::Read => Owed::Let,
        Mode::Write => Owed::Let,
    }
}

/// How each cell of these accesses is to be given up.
fn owed_by_all(alloc: Global, accesses: &[Access]) -> Result<RangeMap<Owed>, AllocError>
    requires { IsRising accesses.now }
    ensures { IfOk result (λ owed. (c : ℕ) → value_at owed.pieces c ≡ owed_by_access (access_at accesses.now c)) }
{
    let mut owed = RangeMap::new(alloc);
    for access in accesses {
        owed.assign(access.range, owed_of(access))?;
    }
    Ok(owed)
}

/// What a task with this body has of cells, at its start.
pub(crate) fn share_of(alloc: Global, body: &BoxedBody) -> Result<Share, AllocError>
    ensures rights { IfOk result (λ share. (code : CodeParts) (start : Start CodeScript) (found : Items ℕ) →
        IsBody code start found body.now → (c : ℕ) →
        right_from false share.accesses c ≡ held_right (right_of start.context c)) }
    ensures rising { IfOk result (λ share. IsRising share.accesses) }
    ensures owed { IfOk result (λ share. (c : ℕ) → value_at share.owed.pieces c ≡ owed_by_access
        (access_at share.accesses c)) }
{
    let accesses = body.accesses()?;
    let owed = owed_by_all(alloc, accesses.as_slice())?;
    Ok(Share { accesses, owed })
}

/// The task that the next act of this one creates.
fn newborn_of(alloc: Global, code: &Code, before: &Held) -> Result<Newborn, AllocError>
    requires { IsBeforeCreation before.now }
    ensures { IfOk result (λ newborn. IsCreated code.now before.now newborn.held newborn.accesses) }
{
    let body = before.body.child(code)?;
    let Share { accesses, owed } = share_of(alloc, &body)?;
    Ok(Newborn {
        held: Held { body, owed },
        accesses,
    })
}

/// Adds a task to the tree, which this one creates. Where it has no cells it has given up all of them.
pub(crate) fn add_to_tree(
    tree: &mut Tree,
    creator: TaskNo,
    newborn: &Newborn,
) -> Result<TaskNo, AllocError>
    requires { MayCreate tree.old.tasks creator.0 }
    ensures number { IfOk result (λ task. task.0 ≡ length tree.old.tasks) }
    ensures tasks { OnOk result (tree.new.tasks ≡ noted_new newborn.now.accesses (length tree.old.tasks)
        (grown tree.old.tasks creator.0 (has_wait newborn.now.held.body))) }
    ensures prints { OnOk result (tree.new.prints ≡ tree.old.prints) }
{
    let task = tree.add(creator, newborn.held.body.waits())?;
    if newborn.accesses.is_empty() {
        tree.gave_all(task);
    }
    Ok(task)
}

impl<D: Deps> Core<D> {
    ghost use Rattle.oss_core.specs.Cores.{kept_of};

    /// The next act of a task, which creates another, is made. After want of memory the core is given up.
    pub(crate) fn create(&mut self, code: &Code, task: TaskNo) -> Result<(), AllocError>
        requires sizes { length self.old.tree.tasks ≡ length self.old.tasks.items }
        requires before { StandsBeforeCreation self.old.tasks.items task.0 }
        requires room { MayCreate self.old.tree.tasks task.0 }
        requires opens { (before child : Kept) (accesses : Items Meant) →
            slice_get self.old.tasks.items task.0 ≡ Some before → IsCreated code.now before child accesses →
            CanOpen (D.seen self.old.deps) (record {
              task = length self.old.tasks.items;
              parent = task.0;
              accesses = accesses;
            }) }
        ensures { OnOk result (HasCreated code.now task.0 (kept_of D.seen self.old) (kept_of D.seen self.new)) }
    {
        let at = task.0 as usize;
        let newborn = newborn_of(self.alloc, code, &self.tasks[at])?;
        let number = add_to_tree(&mut self.tree, task, &newborn)?;
        let Newborn { held, accesses } = newborn;
        self.tasks.push(held)?;
        self.deps.open(number, task, &accesses)?;
        go_on(&mut self.tasks, code, at, 0)
    }
}
