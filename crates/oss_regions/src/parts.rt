//! The questions to one fragment. An access on which nothing depends may have been left out there: its task
//! waits for nothing.

ghost use Rattle.std.specs.Prelude.{◌≡◌, ◌<◌, ◌⊎◌, ℕ, None, true, IsTrue, MatchOption, Some};
ghost use Rattle.oss_access_lists.specs.Flags.{AreAtRest};
ghost use Rattle.oss_access_lists.specs.Tables.{marks_at, wires_of};
ghost use Rattle.oss_links.specs.Readings.{is_let, is_list_done};
ghost use Rattle.oss_fragments.specs.Here.{IsEntry, here_of};
ghost use Rattle.oss_fragments.specs.Stretches.{IsFragment};
ghost use Rattle.oss_regions.specs.Asked.{IsNumberInTheWay, IsNumberUndone};

use crate::asking::{number_in_the_way, number_undone};
use crate::walking::is_let;
use oss_fragments::Fragment;
use oss_syntax::Mode;

/// The number of the open whose access to the cells of a fragment stands in the way of that of a task, which
/// waits in this mode. None where nothing does, or where the task's is there no more.
pub(crate) fn bar_in(part: &Fragment, number: usize, mode: Mode) -> Option<usize>
    requires right { IsFragment part.now }
    requires main { number ≡ 0 → ⊥ }
    ensures bar { (v : ℕ) → IsEntry (here_of part.now) number v →
        MatchOption result (is_let mode (marks_at part.now.line.stand v) ≡ true) (λ n.
        IsNumberInTheWay part.now.line.hangs part.now.line.stand part.now.tasks.items mode v n) }
    ensures none { ((v : ℕ) → IsEntry (here_of part.now) number v → ⊥) → result ≡ None }
    ensures rest { AreAtRest (wires_of part.now.line.hangs) (marks_at part.now.line.stand) }
{
    let _settled = part.line.is_settled();
    match part.entry_of(number) {
        Some(at) => number_in_the_way(&part.line, part.tasks.as_slice(), mode, at),
        None => None,
    }
}

/// The flag stands that a task asks for which waits in this mode for the cells of a fragment, or its access is
/// there no more.
pub(crate) fn lets_in(part: &Fragment, number: usize, mode: Mode) -> bool
    requires right { IsFragment part.now }
    requires main { number ≡ 0 → ⊥ }
    ensures lets { (v : ℕ) → IsEntry (here_of part.now) number v →
        result ≡ is_let mode (marks_at part.now.line.stand v) }
    ensures none { ((v : ℕ) → IsEntry (here_of part.now) number v → ⊥) → result ≡ true }
    ensures rest { AreAtRest (wires_of part.now.line.hangs) (marks_at part.now.line.stand) }
{
    let _settled = part.line.is_settled();
    match part.entry_of(number) {
        Some(at) => is_let(mode, part.line.flags(at)),
        None => true,
    }
}

/// The number of the open of a child of a task whose access to the cells of a fragment is not done. None where
/// each is done, or where the task has no access there, or none any more.
pub(crate) fn child_in(part: &Fragment, number: usize) -> Option<usize>
    requires right { IsFragment part.now }
    ensures child { (p : ℕ) → IsEntry (here_of part.now) number p →
        MatchOption result (is_list_done (wires_of part.now.line.hangs) (marks_at part.now.line.stand) p ≡ true)
        (λ n. IsNumberUndone part.now.line.hangs part.now.line.stand part.now.tasks.items p n) }
    ensures none { ((p : ℕ) → IsEntry (here_of part.now) number p → ⊥) → result ≡ None }
    ensures rest { AreAtRest (wires_of part.now.line.hangs) (marks_at part.now.line.stand) }
{
    let _settled = part.line.is_settled();
    match part.entry_of(number) {
        Some(at) => number_undone(&part.line, part.tasks.as_slice(), at),
        None => None,
    }
}

/// The access of a task to the cells of a fragment may be joined, as far as its flag tells, or is there no more.
pub(crate) fn joins_in(part: &Fragment, number: usize) -> bool
    requires right { IsFragment part.now }
    requires main { number ≡ 0 → ⊥ }
    ensures joins { (v : ℕ) → IsEntry (here_of part.now) number v → result ≡ (marks_at part.now.line.stand v).joins }
    ensures none { ((v : ℕ) → IsEntry (here_of part.now) number v → ⊥) → result ≡ true }
    ensures rest { AreAtRest (wires_of part.now.line.hangs) (marks_at part.now.line.stand) }
{
    let _settled = part.line.is_settled();
    match part.entry_of(number) {
        Some(at) => part.line.flags(at).joins,
        None => true,
    }
}
