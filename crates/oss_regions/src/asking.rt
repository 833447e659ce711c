//! Obstacles and undone children in one line, told by the number of the task's opening and not by the place in
//! the line.

ghost use Rattle.std.specs.Prelude.{◌≡◌, ◌<◌, length, true, MatchOption};
ghost use Rattle.oss_access_lists.specs.Tables.{marks_at, wires_of};
ghost use Rattle.oss_links.specs.Readings.{is_let, is_list_done};
ghost use Rattle.oss_regions.specs.Asked.{IsNumberInTheWay, IsNumberUndone};

use crate::walking::{bar_of, undone_below};
use oss_access_lists::AccessList;
use oss_syntax::Mode;

/// The number of the open whose access stands in the way of another access, which waits in this mode.
pub(crate) fn number_in_the_way(
    line: &AccessList,
    numbers: &[usize],
    mode: Mode,
    at: usize,
) -> Option<usize>
    requires settled { line.now.head ≡ 0 }
    requires main { at ≡ 0 → ⊥ }
    requires within { at < length line.now.hangs }
    requires size { length numbers.now ≡ length line.now.hangs }
    ensures { MatchOption result (is_let mode (marks_at line.now.stand at) ≡ true) (λ n.
        IsNumberInTheWay line.now.hangs line.now.stand numbers.now mode at n) }
{
    match bar_of(line, mode, at) {
        Some(bar) => Some(numbers[bar]),
        None => None,
    }
}

/// The number of the open of a child whose access is not done, of those below an access or below main.
pub(crate) fn number_undone(line: &AccessList, numbers: &[usize], above: usize) -> Option<usize>
    requires settled { line.now.head ≡ 0 }
    requires size { length numbers.now ≡ length line.now.hangs }
    ensures { MatchOption result (is_list_done (wires_of line.now.hangs) (marks_at line.now.stand) above ≡ true)
        (λ n. IsNumberUndone line.now.hangs line.now.stand numbers.now above n) }
{
    match undone_below(line, above) {
        Some(child) => Some(numbers[child]),
        None => None,
    }
}
