//! Parts of a wave, put into the machine.

ghost use Rattle.std.specs.Prelude.{◌≡◌, ◌++◌, ◌<◌, ◌≤◌, ℕ, length, IfOk, List as Items, OnOk, Some, slice_get};
ghost use Rattle.oss_body.specs.declared.body.Body.{Body as Kept};
ghost use Rattle.oss_body.specs.Relation.{is_over};
ghost use Rattle.oss_tree.specs.declared.output.Print.{Print as Printed};
ghost use Rattle.oss_kept_tasks.specs.declared.held.Held.{Held as Known};
ghost use Rattle.oss_core.specs.declared.creating.Newborn.{Newborn as New};
ghost use Rattle.oss_core.specs.Changes.{noted};
ghost use Rattle.oss_core.specs.Putting.{AreAdded, AreNewborns, HasBody, IsNewborn, IsPut, IsRunPut, IsWritten, MayAdd};

use crate::creating::{Newborn, Share, add_to_tree, share_of};
use crate::machine::Core;
use oss_body::memory::set;
use oss_deps::Deps;
use oss_kept_tasks::{BoxedBody, Held};
use oss_model::TaskNo;
use oss_ranges::RangeMap;
use oss_segment::Segment;
use oss_tree::{Print, Tree};
use std::alloc::{AllocError, Global};
use std::mem;

/// A program has at most so many cells.
const CELLS: u32 = 1_048_576;

/// A new task with this body, and its cells.
fn newborn_of(alloc: Global, body: BoxedBody) -> Result<Newborn, AllocError>
    ensures { IfOk result (λ newborn. IsNewborn newborn body) }
{
    let Share { accesses, owed } = share_of(alloc, &body)?;
    Ok(Newborn {
        held: Held { body, owed },
        accesses,
    })
}

/// New tasks with these bodies, and their cells.
fn newborns_of(alloc: Global, bodies: Vec<BoxedBody>) -> Result<Vec<Newborn>, AllocError>
    ensures { IfOk result (λ newborns. AreNewborns newborns.items bodies.items) }
{
    let mut newborns = Vec::new(alloc);
    for body in bodies {
        let newborn = newborn_of(alloc, body)?;
        newborns.push(newborn)?;
    }
    Ok(newborns)
}

/// What a part has printed goes behind all that was printed before.
fn print_all(tree: &mut Tree, prints: Vec<Print>) -> Result<(), AllocError>
    ensures tasks { OnOk result (tree.new.tasks ≡ tree.old.tasks) }
    ensures prints { OnOk result (tree.new.prints ≡ tree.old.prints ++ prints.items) }
{
    for print in prints {
        let Print { at, text } = print;
        tree.print(at, text)?;
    }
    Ok(())
}

/// Puts a number into each cell of a run, where there is one.
fn put_run(cells: &mut [u64], from: u32, to: u32, value: Option<u64>)
    requires { from ≤ to }
    ensures { IsRunPut from to value cells.old cells.new }
{
    match value {
        Some(value) => fill(cells, from, to, value),
        None => {}
    }
}

/// Puts a number into each cell of a run.
fn fill(cells: &mut [u64], from: u32, to: u32, value: u64)
    requires { from ≤ to }
    ensures { IsRunPut from to (Some value) cells.old cells.new }
{
    for cell in from..to {
        set(cells, cell, value);
    }
}

/// Puts what a part has written into memory. It costs what was written.
fn write_all(cells: &mut [u64], writes: &RangeMap<u64>)
    ensures { IsWritten writes.now.pieces cells.old cells.new }
{
    let mut from = 0;
    'runs: while from < CELLS {
        let (value, to) = writes.run_from(from, CELLS);
        put_run(cells, from, to, value);
        from = to;
    }
}

/// The same, of memory that stands in a vector.
fn write_into(cells: &mut Vec<u64>, writes: RangeMap<u64>)
    ensures { IsWritten writes.pieces cells.old.items cells.new.items }
{
    write_all(cells.as_mut_slice(), &writes);
}

/// The body of a task goes into its place, and the one that stood there is handed out.
pub(crate) fn put_body(tasks: &mut Vec<Held>, at: usize, body: BoxedBody) -> BoxedBody
    requires { at < length tasks.old.items }
    ensures put { HasBody at body tasks.old.items tasks.new.items }
    ensures taken { (held : Known) → slice_get tasks.old.items at ≡ Some held → held.body ≡ result }
{
    mem::replace(&mut tasks[at].body, body)
}

/// Notes that a task has ended, where it has.
fn note_over(tree: &mut Tree, task: TaskNo, ended: bool)
    requires { task.0 < length tree.old.tasks }
    ensures tasks { tree.new.tasks ≡ noted task.0 ended tree.old.tasks }
    ensures prints { tree.new.prints ≡ tree.old.prints }
{
    if ended {
        tree.ended(task);
    }
}

impl<D: Deps> Core<D> {
    ghost use Rattle.oss_core.specs.Cores.{kept_of};

    /// These tasks are new: this one has created them, one after the other. After want of memory the core is given up.
    fn add_all(&mut self, creator: TaskNo, newborns: Vec<Newborn>) -> Result<(), AllocError>
        requires sizes { length self.old.tree.tasks ≡ length self.old.tasks.items }
        requires may { MayAdd creator.0 (length self.old.tasks.items) newborns.items self.old.tree.tasks
            (D.seen self.old.deps) }
        ensures { OnOk result (AreAdded creator.0 newborns.items (kept_of D.seen self.old) (kept_of D.seen self.new)) }
    {
        for newborn in newborns {
            let number = add_to_tree(&mut self.tree, creator, &newborn)?;
            let Newborn { held, accesses } = newborn;
            self.tasks.push(held)?;
            self.deps.open(number, creator, &accesses)?;
        }
        Ok(())
    }

    /// Tasks with these bodies are new: this one has created them, one after the other. After want of memory
    /// the core is given up.
    fn add_children(&mut self, creator: TaskNo, children: Vec<BoxedBody>) -> Result<(), AllocError>
        requires sizes { length self.old.tree.tasks ≡ length self.old.tasks.items }
        requires may { (xs : Items New) → AreNewborns xs children.items →
            MayAdd creator.0 (length self.old.tasks.items) xs self.old.tree.tasks (D.seen self.old.deps) }
        ensures { OnOk result ((xs : Items New) × AreNewborns xs children.items ×
            AreAdded creator.0 xs (kept_of D.seen self.old) (kept_of D.seen self.new)) }
    {
        let newborns = newborns_of(self.alloc, children)?;
        self.add_all(creator, newborns)
    }

    /// Puts the part of a task in. The body that stood in the place of its own meanwhile is kept with the
    /// spares. After want of memory the core is given up.
    pub(crate) fn put(
        &mut self,
        task: TaskNo,
        part: Segment,
        spares: &mut Vec<BoxedBody>,
    ) -> Result<(), AllocError>
        requires sizes { length self.old.tree.tasks ≡ length self.old.tasks.items }
        requires there { task.0 < length self.old.tasks.items }
        requires may { (xs : Items New) → AreNewborns xs part.children.items →
            MayAdd task.0 (length self.old.tasks.items) xs self.old.tree.tasks (D.seen self.old.deps) }
        ensures { OnOk result ((xs : Items New) × AreNewborns xs part.children.items ×
            IsPut task.0 xs part.body part.prints.items (kept_of D.seen self.old) (kept_of D.seen self.new) ×
            IsWritten part.writes.pieces self.old.cells.items self.new.cells.items) }
    {
        let Segment {
            body,
            writes,
            children,
            prints,
            ..
        } = part;
        write_into(&mut self.cells, writes);
        let ended = body.ended();
        let spare = put_body(&mut self.tasks, task.0 as usize, body);
        spares.push(spare)?;
        self.add_children(task, children)?;
        note_over(&mut self.tree, task, ended);
        print_all(&mut self.tree, prints)
    }
}
