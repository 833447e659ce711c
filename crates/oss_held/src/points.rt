//! The points of tasks.

ghost use Rattle.std.specs.Prelude.{◌≡◌, ◌<◌, length, IfOk};
ghost use Rattle.oss_model.specs.Order.{IsIn};
ghost use Rattle.oss_model.specs.declared.task_no.TaskNo.{TaskNo as Number};
ghost use Rattle.oss_held.specs.Points.{ArePointsOf, numbers_to};

use oss_model::{Point, TaskNo};
use oss_syntax::List;
use oss_tree::Tree;
use std::alloc::{AllocError, Global};

/// The numbers of so many tasks, from main's 0 on. Want of memory is the one error.
pub(crate) fn all_tasks(alloc: Global, count: u64) -> Result<Vec<TaskNo>, AllocError>
    ensures { IfOk result (λ tasks. tasks.items ≡ numbers_to count) }
{
    let mut tasks = Vec::new(alloc);
    for at in 0..count {
        tasks.push(TaskNo(at))?;
    }
    Ok(tasks)
}

/// The points of these tasks of a tree, in the order of the list. Want of memory is the one error.
pub(crate) fn points_of(
    alloc: Global,
    tree: &Tree,
    tasks: &[TaskNo],
) -> Result<List<Point>, AllocError>
    requires there { (v : Number) → IsIn v tasks.now → v.0 < length tree.now.tasks }
    ensures { IfOk result (λ points. ArePointsOf tree.now.tasks tasks.now points) }
{
    let mut points = List::new(alloc);
    for task in tasks {
        let point = tree.point(*task).copy()?;
        points.push(point)?;
    }
    Ok(points)
}
