//! The way from main down to a point.
ghost use Rattle.std.specs.Prelude.{ℕ, MatchOption};
ghost use Rattle.oss_tree.specs.Tasks.{HasPoint, IsTree};

use crate::task::Task;
use oss_model::TaskNo;

/// The task that has this point; `None` exactly where none has.
pub(crate) fn find(tasks: &[Task], point: &[u16]) -> Option<TaskNo>
    requires { IsTree tasks.now }
    ensures { MatchOption result ((t : ℕ) → HasPoint tasks.now t point.now →
        ⊥) (λ task. HasPoint tasks.now task.0 point.now) }
{
    let (first, rest) = point.split_first()?;
    if *first != 0 {
        return None;
    }
    let mut at = TaskNo(0);
    for place in rest {
        match tasks[at.0 as usize].children.get(usize::from(*place)) {
            Some(child) => at = *child,
            None => return None,
        }
    }
    Some(at)
}
