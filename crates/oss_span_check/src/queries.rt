//! What is asked of the notes of a run.

ghost use Rattle.std.specs.Prelude.{◌≡◌, ◌≤◌, ◌+◌, true, suc, nat_le};
ghost use Rattle.oss_span_check.specs.Queries.{has_at, has_behind, has_done, has_some, in_ranges, is_last, is_named, is_of, is_sought};

use crate::note::{Note, What};
use crate::sought::Sought;
use oss_syntax::{Access, Range};

/// Whether a cell is one of these ranges.
fn in_ranges(ranges: &[Range], cell: u32) -> bool
    ensures { result ≡ in_ranges ranges.now cell }
{
    ranges.iter().any(|r| r.lo <= cell && cell < r.hi)
}

/// Whether accesses name a cell.
fn is_named(accesses: &[Access], cell: u32) -> bool
    ensures { result ≡ is_named accesses.now cell }
{
    accesses
        .iter()
        .any(|a| a.range.lo <= cell && cell < a.range.hi)
}

/// Whether an act is of a kind.
fn is_sought(kind: Sought, what: &What) -> bool
    ensures { result ≡ is_sought kind what.now }
{
    match (kind, what) {
        (Sought::Tick, What::Tick) => true,
        (Sought::Wait, What::Wait) => true,
        (Sought::Await, What::Await) => true,
        (Sought::End, What::End) => true,
        (Sought::Names(cell), What::WaitOn(ranges)) => in_ranges(ranges.as_slice(), cell),
        (Sought::Frees(cell), What::Release(clauses)) => is_named(clauses.as_slice(), cell),
        _ => false,
    }
}

/// Whether a note is of an act of this kind, of the task with this point.
pub(crate) fn is_of(kind: Sought, p: &[u16], note: &Note) -> bool
    ensures { result ≡ is_of kind p.now note.now }
{
    is_sought(kind, &note.what) && note.point.as_slice() == p
}

/// Whether an act of the task with this point is of this kind.
pub(crate) fn has_some(notes: &[Note], kind: Sought, p: &[u16]) -> bool
    ensures { result ≡ has_some notes.now kind p.now }
{
    notes.iter().any(|x| is_of(kind, p, x))
}

/// Whether the act with this number is.
pub(crate) fn has_at(notes: &[Note], kind: Sought, p: &[u16], n: u64) -> bool
    ensures { result ≡ has_at notes.now kind p.now n }
{
    notes.iter().any(|x| is_of(kind, p, x) && x.number == n)
}

/// Whether an act with a greater number is.
fn has_behind(notes: &[Note], kind: Sought, p: &[u16], n: u64) -> bool
    ensures { result ≡ has_behind notes.now kind p.now n }
{
    notes.iter().any(|x| is_of(kind, p, x) && n < x.number)
}

/// Whether the act with this number is the last one of the task.
pub(crate) fn is_last(notes: &[Note], p: &[u16], n: u64) -> bool
    ensures { result ≡ is_last notes.now p.now n }
{
    has_at(notes, Sought::End, p, n) && !has_behind(notes, Sought::End, p, n)
}

/// Whether a number is that of the last of so many acts from one on, or greater.
fn reaches(number: u64, first: u64, count: u64) -> bool
    requires { 1 ≤ count }
    ensures { result ≡ nat_le (first + count) (suc number) }
{
    first <= number && count - 1 <= number - first
}

/// Whether a task has done so many acts from one on. Their numbers fit then.
pub(crate) fn has_done(notes: &[Note], p: &[u16], first: u64, count: u64) -> bool
    requires { 1 ≤ count }
    ensures done_ { result ≡ has_done notes.now p.now (first + count) }
    ensures fits { result ≡ true → first + count ≤ 18446744073709551616 }
{
    for x in notes {
        if is_of(Sought::End, p, x) && reaches(x.number, first, count) {
            return true;
        }
    }
    false
}
