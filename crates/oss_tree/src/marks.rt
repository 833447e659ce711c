//! How far the children of each task are complete: a mark behind the first of them that are. A task is complete
//! where it has ended, has given up all its cells, and its mark stands behind all its children.
ghost use Rattle.std.specs.Prelude.{◌≡◌, ◌<◌, ◌-◌, length, slice_get, Some, None, false};
ghost use Rattle.oss_tree.specs.Marks.{Alone, AreMarked, AreMarkedBut, Below, Nobody, is_settled as has_settled};
ghost use Rattle.oss_tree.specs.Tasks.{IsTree, number};
ghost use Rattle.oss_tree.specs.declared.task.Task.{Task as Meant};

use crate::task::Task;

/// Whether a task is complete, as its mark tells.
pub(crate) fn is_settled(tasks: &[Task], marks: &[usize], at: usize) -> bool
    requires task { at < length tasks.now }
    requires mark { at < length marks.now }
    ensures { result ≡ has_settled tasks.now marks.now at }
{
    let task = &tasks[at];
    task.ended && task.gave_all && marks[at] == task.children.len()
}

/// Moves the mark of a task over its next children that are complete.
fn advance(tasks: &[Task], marks: &mut [usize], at: usize)
    requires tree { IsTree tasks.now }
    requires marked { AreMarkedBut tasks.now marks.old Nobody (Below tasks.now at) }
    requires task { at < length tasks.now }
    ensures { AreMarkedBut tasks.now marks.new Nobody (Alone at) }
{
    let children = tasks[at].children.as_slice();
    let mut mark = marks[at];
    while mark < children.len() && is_settled(tasks, marks, children[mark].0 as usize) {
        mark += 1;
    }
    marks[at] = mark;
}

/// Moves the marks of the tasks above a task that may be complete now.
pub(crate) fn settle(tasks: &[Task], marks: &mut [usize], from: usize)
    requires tree { IsTree tasks.now }
    requires marked { AreMarkedBut tasks.now marks.old Nobody (Alone from) }
    requires task { from < length tasks.now }
    ensures { AreMarked tasks.now marks.new }
{
    let mut at = from;
    while is_settled(tasks, marks, at) {
        let Some(parent) = tasks[at].parent else {
            return;
        };
        at = parent.0 as usize;
        advance(tasks, marks, at);
    }
}

/// Moves back the marks of the tasks above a task that is not complete any more.
pub(crate) fn reopen(tasks: &[Task], marks: &mut [usize], from: usize)
    requires tree { IsTree tasks.now }
    requires marked { AreMarkedBut tasks.now marks.old (Alone from) Nobody }
    requires open { has_settled tasks.now marks.old from ≡ false }
    requires task { from < length tasks.now }
    ensures { AreMarked tasks.now marks.new }
{
    let mut at = from;
    while let Some(parent) = tasks[at].parent {
        let place = place_of(&tasks[at]);
        at = parent.0 as usize;
        if marks[at] <= place {
            return;
        }
        marks[at] = place;
    }
}

/// The last number of the point of a task: its place among the children of its creator.
fn place_of(task: &Task) -> usize
    ensures { slice_get task.now.point (length task.now.point - 1) ≡ Some result }
{
    match task.point.as_slice().last() {
        Some(place) => usize::from(*place),
        None => 0,
    }
}
