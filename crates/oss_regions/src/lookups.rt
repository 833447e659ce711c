//! Tasks by the numbers of their openings, and back.

ghost use Rattle.std.specs.Prelude.{◌≡◌, ◌↔◌, ◌≤◌, ◌<◌, ℕ, length, IfNone, IfSome, IsTrue, Some};
ghost use Rattle.oss_deps.specs.Opens.{IsKnown};
ghost use Rattle.oss_deps.specs.Columns.{IsInOrder, IsNumberOf};
ghost use Rattle.oss_links.specs.Numbers.{task_numbered};

use oss_deps::Open;
use oss_model::TaskNo;

/// How many tasks were opened up to this one: 0 for main.
pub(crate) fn number_of(opens: &[Open], task: u64) -> Option<usize>
    ensures found { IfSome result (λ n. IsNumberOf opens.now n task) }
    ensures none { IfNone result (IsKnown opens.now task → ⊥) }
{
    if task == 0 {
        return Some(0);
    }
    if is_in_order(opens, task) {
        return Some(task as usize);
    }
    for (at, one) in opens.iter().enumerate() {
        if one.task == task {
            return Some(at + 1);
        }
    }
    None
}

/// The task was opened as the one of its number, as it is where tasks are opened in the order of their numbers.
fn is_in_order(opens: &[Open], task: u64) -> bool
    ensures { IsTrue result ↔ IsInOrder opens.now task }
{
    if task == 0 {
        return false;
    }
    if task > opens.len() as u64 {
        return false;
    }
    opens[(task - 1) as usize].task == task
}

/// The task that was opened as the one of this number.
pub(crate) fn task_of(opens: &[Open], number: usize) -> TaskNo
    requires some { number ≡ 0 → ⊥ }
    requires within { number ≤ length opens.now }
    ensures { task_numbered opens.now number ≡ Some result.0 }
{
    TaskNo(opens[number - 1].task)
}
