//! A dependency system is told anew of the tasks of a core.

ghost use Rattle.std.specs.Prelude.{◌≡◌, ◌≤◌, ◌<◌, ◌+◌, ◌||◌, ◌&&◌, ◌==◌, [], false, ℕ, length, IfOk, List as Items, OnOk, Some, slice_get};
ghost use Rattle.oss_deps.specs.Opens.{HasOpened};
ghost use Rattle.oss_deps.specs.Seen.{in_range};
ghost use Rattle.oss_judge.specs.Joined.{IsRising};
ghost use Rattle.oss_kept_tasks.specs.declared.held.Held.{Held as Kept};
ghost use Rattle.oss_syntax.specs.declared.access.Access.{Access as Meaning};
ghost use Rattle.oss_tree.specs.declared.task.Task.{Task as Meant};
ghost use Rattle.oss_core.specs.Retelling.{AreAccesses, AreGaps, AreGiven, AreSome, Between, IsTold, Named};

use oss_deps::Deps;
use oss_kept_tasks::{Held, Owed};
use oss_model::TaskNo;
use oss_ranges::RangeMap;
use oss_syntax::{Access, List, Range};
use oss_tree::Tree;
use std::alloc::AllocError;

/// The accesses with which a task has started.
fn accesses_of(tasks: &[Held], task: TaskNo) -> Result<List<Access>, AllocError>
    requires { task.0 < length tasks.now }
    ensures { IfOk result (λ accesses. AreAccesses tasks.now task.0 accesses) }
{
    tasks[task.0 as usize].body.accesses()
}

/// Tells a dependency system of the children of a task, in their order.
fn tell_children<D: Deps>(
    deps: &mut D,
    tasks: &[Held],
    tree: &Tree,
    task: TaskNo,
    children: &[TaskNo],
) -> Result<(), AllocError>
    requires some { AreSome tasks.now tree.now }
    requires children { (one : Meant) × (slice_get tree.now.tasks task.0 ≡ Some one) × (one.children ≡ children.now) }
    requires told { IsTold tasks.now tree.now.tasks task.0 0 (D.seen deps.old) }
    ensures { OnOk result (IsTold tasks.now tree.now.tasks (task.0 + 1) 0 (D.seen deps.new)) }
{
    for child in children {
        let accesses = accesses_of(tasks, *child)?;
        deps.open(*child, task, &accesses)?;
    }
    Ok(())
}

/// Tells a dependency system of all tasks but main.
pub(crate) fn tell_tasks<D: Deps>(
    deps: &mut D,
    tasks: &[Held],
    tree: &Tree,
) -> Result<(), AllocError>
    requires some { AreSome tasks.now tree.now }
    requires opens { (D.seen deps.old).opens ≡ [] }
    requires given { (t c : ℕ) → (D.seen deps.old).given t c ≡ false }
    ensures { OnOk result (IsTold tasks.now tree.now.tasks (length tree.now.tasks) 0 (D.seen deps.new)) }
{
    for number in 0..tree.count() {
        let task = TaskNo(number);
        tell_children(deps, tasks, tree, task, tree.task(task).children.as_slice())?;
    }
    Ok(())
}

/// Tells a dependency system that a task has given up the cells of a range.
fn tell_given<D: Deps>(deps: &mut D, task: TaskNo, range: Range) -> Result<(), AllocError>
    requires named { (c : ℕ) → range.lo ≤ c → c < range.hi → HasOpened (D.seen deps.old).opens c task.0 }
    requires held { (c : ℕ) → range.lo ≤ c → c < range.hi → (D.seen deps.old).given task.0 c ≡ false }
    ensures opens { OnOk result ((D.seen deps.new).opens ≡ (D.seen deps.old).opens) }
    ensures given { OnOk result ((t c : ℕ) → (D.seen deps.new).given t c ≡
        ((D.seen deps.old).given t c || ((task.0 == t) && in_range range c))) }
{
    deps.prepare(range)?;
    deps.give(task, range);
    Ok(())
}

/// Tells a dependency system that a task has given up those cells of a range that it owes no more.
fn tell_gaps<D: Deps>(
    deps: &mut D,
    task: TaskNo,
    range: Range,
    owed: &RangeMap<Owed>,
) -> Result<(), AllocError>
    requires named { (c : ℕ) → range.lo ≤ c → c < range.hi → HasOpened (D.seen deps.old).opens c task.0 }
    requires held { (c : ℕ) → range.lo ≤ c → c < range.hi → (D.seen deps.old).given task.0 c ≡ false }
    ensures { OnOk result (AreGaps task.0 (Between range.lo range.hi) owed.now.pieces
        (D.seen deps.old) (D.seen deps.new)) }
{
    let mut from = range.lo;
    'runs: while from < range.hi {
        let (way, end) = owed.run_from(from, range.hi);
        if way.is_none() {
            tell_given(deps, task, Range { lo: from, hi: end })?;
        }
        from = end;
    }
    Ok(())
}

/// The same of the cells of accesses.
fn tell_all_gaps<D: Deps>(
    deps: &mut D,
    task: TaskNo,
    accesses: &[Access],
    owed: &RangeMap<Owed>,
) -> Result<(), AllocError>
    requires rising { IsRising accesses.now }
    requires named { (c : ℕ) → Named (length accesses.now) accesses.now c →
        HasOpened (D.seen deps.old).opens c task.0 }
    requires held { (c : ℕ) → (D.seen deps.old).given task.0 c ≡ false }
    ensures { OnOk result (AreGaps task.0 (Named (length accesses.now) accesses.now) owed.now.pieces
        (D.seen deps.old) (D.seen deps.new)) }
{
    for access in accesses {
        tell_gaps(deps, task, access.range, owed)?;
    }
    Ok(())
}

/// Tells a dependency system which cells a task has given up: those of its accesses that it owes no more.
fn tell_task<D: Deps>(deps: &mut D, tasks: &[Held], task: TaskNo) -> Result<(), AllocError>
    requires there { task.0 < length tasks.now }
    requires named { (accesses : Items Meaning) → AreAccesses tasks.now task.0 accesses →
        (c : ℕ) → Named (length accesses) accesses c → HasOpened (D.seen deps.old).opens c task.0 }
    requires held { (c : ℕ) → (D.seen deps.old).given task.0 c ≡ false }
    ensures { OnOk result ((accesses : Items Meaning) × AreAccesses tasks.now task.0 accesses ×
        (held : Kept) × (slice_get tasks.now task.0 ≡ Some held) ×
        AreGaps task.0 (Named (length accesses) accesses) held.owed.pieces (D.seen deps.old) (D.seen deps.new)) }
{
    let accesses = accesses_of(tasks, task)?;
    tell_all_gaps(
        deps,
        task,
        accesses.as_slice(),
        &tasks[task.0 as usize].owed,
    )
}

/// Tells a dependency system, which was told of all tasks, which cells they have given up.
pub(crate) fn tell_cells<D: Deps>(
    deps: &mut D,
    tasks: &[Held],
    tree: &Tree,
) -> Result<(), AllocError>
    requires some { AreSome tasks.now tree.now }
    requires told { IsTold tasks.now tree.now.tasks (length tree.now.tasks) 0 (D.seen deps.old) }
    ensures { OnOk result (AreGiven tasks.now (length tree.now.tasks) (D.seen deps.old) (D.seen deps.new)) }
{
    for number in 1..tree.count() {
        tell_task(deps, tasks, TaskNo(number))?;
    }
    Ok(())
}
