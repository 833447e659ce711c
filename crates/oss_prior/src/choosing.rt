//! Whose the next turn is.

ghost use Rattle.std.specs.Prelude.{◌≡◌, ◌<◌, ◌↔◌, length, IfOk, IsTrue, OnOk};
ghost use Rattle.oss_model.specs.Order.{IsIn};
ghost use Rattle.oss_model.specs.declared.task_no.TaskNo.{TaskNo as Number};
ghost use Rattle.oss_core.specs.Cores.{kept_of, tasks_in};
ghost use Rattle.oss_prior.specs.Choosing.{AddsSuccessor, AreAdded, AreSuccessors, HasWaited, IsChosen, IsPriority, IsTask};

use crate::ready::{Ready, add, first_of, has};
use oss_core::Core;
use oss_deps::Deps;
use oss_model::TaskNo;
use std::alloc::{AllocError, Global};
use std::collections::BTreeSet;

/// What stood when a turn began.
#[derive(Clone, Copy)]
pub(crate) struct Before {
    /// How many tasks there were.
    pub(crate) count: u64,
    /// Whose turn it was.
    pub(crate) task: TaskNo,
    /// Whether it could step.
    pub(crate) able: bool,
}

/// The priority of a task: that of its clause, and main's is 0.
fn priority_of<D: Deps>(core: &Core<D>, task: TaskNo) -> i64
    requires { task.0 < length (kept_of D.seen core.now).tasks }
    ensures { IsPriority (kept_of D.seen core.now) task.0 result }
{
    if task.0 == 0 {
        return 0;
    }
    core.priority(task)
}

/// A task, with its point and its priority.
pub(crate) fn ready_of<D: Deps>(core: &Core<D>, task: TaskNo) -> Result<Ready, AllocError>
    requires there { task.0 < length (tasks_in core.now) }
    requires held { task.0 < length (kept_of D.seen core.now).tasks }
    ensures { IfOk result (λ one. IsTask (kept_of D.seen core.now) task.0 one) }
{
    let point = core.point(task).copy()?;
    Ok(Ready {
        priority: priority_of(core, task),
        point,
        number: task.0,
    })
}

/// Whether a task was there when the turn began, and could not step then.
fn has_waited(before: Before, queue: &BTreeSet<Ready>, task: TaskNo, one: &Ready) -> bool
    ensures { IsTrue result ↔ HasWaited before queue.now task.0 one.now }
{
    if before.able && task.0 == before.task.0 {
        return false;
    }
    task.0 < before.count && !has(queue, one)
}

/// Adds a task to the successors, if it waited.
fn add_successor<D: Deps>(
    core: &Core<D>,
    before: Before,
    queue: &BTreeSet<Ready>,
    task: TaskNo,
    successors: &mut BTreeSet<Ready>,
) -> Result<(), AllocError>
    requires there { task.0 < length (tasks_in core.now) }
    requires held { task.0 < length (kept_of D.seen core.now).tasks }
    ensures { OnOk result (AddsSuccessor (kept_of D.seen core.now) before queue.now task successors.old
        successors.new) }
{
    let one = ready_of(core, task)?;
    if has_waited(before, queue, task, &one) {
        add(successors, one)?;
    }
    Ok(())
}

/// The successors of a turn: those of these tasks, which can step now, that waited when it began.
pub(crate) fn successors_of<D: Deps>(
    alloc: Global,
    core: &Core<D>,
    before: Before,
    queue: &BTreeSet<Ready>,
    free: &[TaskNo],
) -> Result<BTreeSet<Ready>, AllocError>
    requires there { (v : Number) → IsIn v free.now → v.0 < length (tasks_in core.now) }
    requires held { (v : Number) → IsIn v free.now → v.0 < length (kept_of D.seen core.now).tasks }
    ensures { IfOk result (λ successors. AreSuccessors (kept_of D.seen core.now) before queue.now free.now
        successors) }
{
    let mut successors = BTreeSet::new(alloc);
    for task in free {
        add_successor(core, before, queue, *task, &mut successors)?;
    }
    Ok(successors)
}

/// These tasks, which can step now, are in the queue from now on.
pub(crate) fn admit<D: Deps>(
    core: &Core<D>,
    queue: &mut BTreeSet<Ready>,
    free: &[TaskNo],
) -> Result<(), AllocError>
    requires there { (v : Number) → IsIn v free.now → v.0 < length (tasks_in core.now) }
    requires held { (v : Number) → IsIn v free.now → v.0 < length (kept_of D.seen core.now).tasks }
    ensures { OnOk result (AreAdded (kept_of D.seen core.now) free.now queue.old queue.new) }
{
    for task in free {
        add(queue, ready_of(core, *task)?)?;
    }
    Ok(())
}

/// The first of the successors, or without one the first of all that can step.
pub(crate) fn next_of(successors: &BTreeSet<Ready>, queue: &BTreeSet<Ready>) -> Option<TaskNo>
    ensures { IsChosen successors.now queue.now result }
{
    match first_of(successors) {
        Some(task) => Some(task),
        None => first_of(queue),
    }
}
