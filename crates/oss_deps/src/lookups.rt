//! How a task and its access in a stretch are found: the task at once if tasks were opened in the order of
//! their numbers, the access by halving.

ghost use Rattle.std.specs.Prelude.{◌≡◌, ◌↔◌, ◌<◌, ℕ, length, IfSome, IfNone, IsTrue};
ghost use Rattle.oss_deps.specs.Opens.{IsKnown};
ghost use Rattle.oss_deps.specs.Places.{AreLinked};
ghost use Rattle.oss_deps.specs.Columns.{IsInOrder, IsNumberOf, IsPlaceOf};

use crate::frame::Frame;
use crate::opened::Open;

/// How many tasks were opened up to this one: 0 for main.
pub(crate) fn number_of(opens: &[Open], task: u64) -> Option<usize>
    ensures found { IfSome result (λ n. IsNumberOf opens.now n task) }
    ensures none { IfNone result (IsKnown opens.now task → ⊥) }
{
    if task == 0 {
        return Some(0);
    }
    if is_in_order(opens, task) {
        return Some(task as usize);
    }
    for (at, one) in opens.iter().enumerate() {
        if one.task == task {
            return Some(at + 1);
        }
    }
    None
}

/// The task was opened as the one of its number, as it is where tasks are opened in the order of their numbers.
fn is_in_order(opens: &[Open], task: u64) -> bool
    ensures { IsTrue result ↔ IsInOrder opens.now task }
{
    if task == 0 {
        return false;
    }
    if task > opens.len() as u64 {
        return false;
    }
    opens[(task - 1) as usize].task == task
}

/// Where the access of the task with a number stands.
pub(crate) fn place_of(frames: &[Frame], number: usize) -> Option<usize>
    requires { AreLinked frames.now }
    ensures found { IfSome result (λ at. IsPlaceOf frames.now number at) }
    ensures none { IfNone result ((at : ℕ) → IsPlaceOf frames.now number at → ⊥) }
{
    let mut lo = 0;
    let mut hi = frames.len();
    'halves: while lo < hi {
        let middle = lo + (hi - lo) / 2;
        let here = frames[middle].number;
        if here == number {
            return Some(middle);
        }
        if here < number {
            lo = middle + 1;
        } else {
            hi = middle;
        }
    }
    None
}
