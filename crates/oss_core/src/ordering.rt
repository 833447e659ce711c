//! Tasks in the order of their points.

ghost use Rattle.std.specs.Prelude.{◌≡◌, ◌<◌, length, map, true, IfOk};
ghost use Rattle.oss_model.specs.Order.{IsIn};
ghost use Rattle.oss_model.specs.declared.task_no.TaskNo.{TaskNo as Number};
ghost use Rattle.oss_tree.specs.Tasks.{IsTree};
ghost use Rattle.oss_core.specs.Ordering.{AreInOrder, AreOnce, ArePointsBefore, AreSorted};
ghost use Rattle.oss_core.specs.PointOrder.{AreInPointOrder};

use crate::machine::Core;
use oss_deps::Deps;
use oss_model::{Point, TaskNo};
use oss_tree::Tree;
use std::alloc::{AllocError, Global};
use std::cmp::Ordering;

/// A task, and its point in the tree.
#[derive(Clone, Copy)]
struct Placed<'tree> {
    task: TaskNo,
    point: &'tree Point,
}

/// These tasks in point order.
fn in_order(alloc: Global, tree: &Tree, tasks: &[TaskNo]) -> Result<Vec<TaskNo>, AllocError>
    requires tree { IsTree tree.now.tasks }
    requires there { (v : Number) → IsIn v tasks.now → v.0 < length tree.now.tasks }
    requires once { AreOnce tasks.now }
    ensures { IfOk result (λ now. AreInOrder tree.now.tasks tasks.now now.items) }
{
    let mut placed = Vec::new(alloc);
    for task in tasks {
        placed.push(Placed {
            task: *task,
            point: tree.point(*task),
        })?;
    }
    sorted(alloc, placed)
}

/// The tasks in the order of their points.
fn sorted(alloc: Global, mut placed: Vec<Placed<'_>>) -> Result<Vec<TaskNo>, AllocError>
    ensures { IfOk result (λ tasks. AreSorted placed.entry.items tasks.items) }
{
    placed.sort_by(|a, b| a.point.cmp(b.point))?;
    tasks_of(alloc, placed.as_slice())
}

/// The tasks alone.
fn tasks_of(alloc: Global, placed: &[Placed<'_>]) -> Result<Vec<TaskNo>, AllocError>
    ensures { IfOk result (λ tasks. tasks.items ≡ map (λ one. one.task) placed.now) }
{
    placed.iter().map(|one| one.task).collect(alloc)
}

/// The point of each of these tasks but the last is before that of the next one. It takes no memory.
fn are_in_order(tree: &Tree, tasks: &[TaskNo]) -> bool
    requires there { (v : Number) → IsIn v tasks.now → v.0 < length tree.now.tasks }
    ensures { result ≡ true → AreInPointOrder tree.now.tasks tasks.now }
{
    let mut at: usize = 1;
    'neighbours: while at < tasks.len() {
        if !is_before(tree, tasks[at - 1], tasks[at]) {
            return false;
        }
        at += 1;
    }
    true
}

/// The point of one task is before that of another.
fn is_before(tree: &Tree, first: TaskNo, second: TaskNo) -> bool
    requires first { first.0 < length tree.now.tasks }
    requires second { second.0 < length tree.now.tasks }
    ensures { result ≡ true → ArePointsBefore tree.now.tasks first second }
{
    match tree.point(first).cmp(tree.point(second)) {
        Ordering::Less => true,
        Ordering::Equal => false,
        Ordering::Greater => false,
    }
}

impl<D: Deps> Core<D> {
    /// These tasks in the order of their points. Condition: they are tasks of the core, none twice. Want of
    /// memory is the one error. A list that stands in this order is handed back as it is, and takes none.
    pub fn in_point_order(&self, tasks: Vec<TaskNo>) -> Result<Vec<TaskNo>, AllocError>
        requires there { (v : Number) → IsIn v tasks.items → v.0 < length self.now.tree.tasks }
        requires once { AreOnce tasks.items }
        ensures { IfOk result (λ now. AreInOrder self.now.tree.tasks tasks.items now.items) }
    {
        let _tree = self.tree.count();
        if are_in_order(&self.tree, tasks.as_slice()) {
            return Ok(tasks);
        }
        in_order(self.alloc, &self.tree, tasks.as_slice())
    }
}
