//! The walk back over a line for who stands in the way. The flags tell whether anybody does, so only this
//! question costs a walk.

ghost use Rattle.std.specs.Prelude.{◌≡◌, ◌<◌, length, true, false, IfSome, MatchOption};
ghost use Rattle.oss_access_lists.specs.Flags.{is_over, is_read, is_whole};
ghost use Rattle.oss_access_lists.specs.Tables.{hang_at, marks_at, wires_of};
ghost use Rattle.oss_links.specs.Readings.{is_let, is_list_done};
ghost use Rattle.oss_links.specs.Search.{IsInTheWay, IsUndoneUpTo, passes};
ghost use Rattle.oss_regions.specs.Walks.{IsUndoneIn};

use oss_access_lists::{AccessList, Marks};
use oss_syntax::Mode;

/// The access is given up, and all below it is done.
fn is_over(flags: Marks) -> bool
    ensures { result ≡ is_over flags }
{
    flags.given && flags.done
}

/// The access and all before it in its list are done.
fn is_whole(flags: Marks) -> bool
    ensures { result ≡ is_whole flags }
{
    flags.clear && is_over(flags)
}

/// The access reads.
fn is_read(mode: Mode) -> bool
    ensures { result ≡ is_read mode }
{
    match mode {
        Mode::Read => true,
        Mode::Write => false,
        Mode::Fold(_) => false,
    }
}

/// The flag stands that an access of this mode asks for.
pub(crate) fn is_let(mode: Mode, flags: Marks) -> bool
    ensures { result ≡ is_let mode flags }
{
    match mode {
        Mode::Read => flags.reads,
        Mode::Write => flags.writes,
        Mode::Fold(_) => true,
    }
}

/// What waits in the first mode may pass an earlier access of the second mode with these flags.
fn passes(mode: Mode, earlier: Mode, flags: Marks) -> bool
    ensures { result ≡ passes mode earlier flags }
{
    match mode {
        Mode::Read => is_read(earlier) || is_over(flags),
        Mode::Write => is_over(flags),
        Mode::Fold(_) => true,
    }
}

/// What waits in this mode may pass the access.
fn passes_at(line: &AccessList, mode: Mode, at: usize) -> bool
    requires settled { line.now.head ≡ 0 }
    requires main { at ≡ 0 → ⊥ }
    requires within { at < length line.now.hangs }
    ensures { result ≡ passes mode (hang_at line.now.hangs at).mode (marks_at line.now.stand at) }
{
    passes(mode, line.hang(at).mode, line.flags(at))
}

/// The access that stands in the way of another one, which waits in this mode. The numbers fall on the way, so
/// each earlier access is looked at once at most.
pub(crate) fn bar_of(line: &AccessList, mode: Mode, at: usize) -> Option<usize>
    requires settled { line.now.head ≡ 0 }
    requires main { at ≡ 0 → ⊥ }
    requires within { at < length line.now.hangs }
    ensures bar { MatchOption result (is_let mode (marks_at line.now.stand at) ≡ true) (λ u.
        IsInTheWay (wires_of line.now.hangs) (marks_at line.now.stand) mode at u) }
    ensures within { IfSome result (λ u. u < length line.now.hangs) }
{
    if is_let(mode, line.flags(at)) {
        return None;
    }
    Some(first_bar(line, mode, at))
}

/// The same where the flag does not stand.
fn first_bar(line: &AccessList, mode: Mode, at: usize) -> usize
    requires settled { line.now.head ≡ 0 }
    requires main { at ≡ 0 → ⊥ }
    requires within { at < length line.now.hangs }
    requires waits { is_let mode (marks_at line.now.stand at) ≡ false }
    ensures bar { IsInTheWay (wires_of line.now.hangs) (marks_at line.now.stand) mode at result }
    ensures within { result < length line.now.hangs }
{
    let _settled = line.is_settled();
    let mut here = at;
    'back: while here > 0 {
        let hang = line.hang(here);
        if hang.before == 0 {
            here = hang.above;
        } else {
            if !passes_at(line, mode, hang.before) {
                return hang.before;
            }
            here = hang.before;
        }
    }
    unreachable!()
}

/// A child's access that is not done, of those below an access or below main: the last one of them. `None`
/// where each is done. It goes back over the accesses that are over though an earlier one is not done.
pub(crate) fn undone_below(line: &AccessList, above: usize) -> Option<usize>
    requires settled { line.now.head ≡ 0 }
    ensures undone { MatchOption result (is_list_done (wires_of line.now.hangs) (marks_at line.now.stand)
        above ≡ true) (λ u. IsUndoneIn (wires_of line.now.hangs) (marks_at line.now.stand) above u) }
    ensures within { IfSome result (λ u. u < length line.now.hangs) }
{
    let _settled = line.is_settled();
    let last = line.hang(above).last;
    if last == 0 {
        return None;
    }
    if is_whole(line.flags(last)) {
        return None;
    }
    Some(last_undone(line, above, last))
}

/// The same where not all are done, from the last access on.
fn last_undone(line: &AccessList, above: usize, last: usize) -> usize
    requires settled { line.now.head ≡ 0 }
    requires undone { IsUndoneUpTo (wires_of line.now.hangs) (marks_at line.now.stand) above last }
    requires within { last < length line.now.hangs }
    ensures undone { IsUndoneIn (wires_of line.now.hangs) (marks_at line.now.stand) above result }
    ensures within { result < length line.now.hangs }
{
    let _settled = line.is_settled();
    let mut here = last;
    'back: while here > 0 {
        if !is_over(line.flags(here)) {
            return here;
        }
        here = line.hang(here).before;
    }
    unreachable!()
}
