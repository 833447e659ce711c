//! What is asked of the tasks of a run.

ghost use Rattle.std.specs.Prelude.{◌≡◌};
ghost use Rattle.std.specs.Option.{option_copied};
ghost use Rattle.oss_span_check.specs.Queries.{access_in, access_of, has_access, has_wait, is_child, made_of, was_made_before};

use crate::note::Made;
use crate::point::is_below;
use oss_syntax::Access;

/// The task with this point, if it was created.
pub(crate) fn made_of<'a>(made: &'a [Made], p: &[u16]) -> Option<&'a Made>
    ensures { option_copied result ≡ made_of made.now p.now }
{
    made.iter().find(|m| m.point.as_slice() == p)
}

/// The access that names a cell.
pub(crate) fn access_in<'a>(accesses: &'a [Access], cell: u32) -> Option<&'a Access>
    ensures { option_copied result ≡ access_in accesses.now cell }
{
    accesses
        .iter()
        .find(|a| a.range.lo <= cell && cell < a.range.hi)
}

/// The access of the task with this point to a cell.
pub(crate) fn access_of(made: &[Made], p: &[u16], cell: u32) -> Option<Access>
    ensures { result ≡ access_of made.now p.now cell }
{
    match made_of(made, p) {
        None => None,
        Some(m) => access_in(m.accesses.as_slice(), cell).copied(),
    }
}

/// Whether the task has one.
pub(crate) fn has_access(made: &[Made], p: &[u16], cell: u32) -> bool
    ensures { result ≡ has_access made.now p.now cell }
{
    match access_of(made, p, cell) {
        None => false,
        Some(_) => true,
    }
}

/// Whether an act of its creator with a smaller number created the task.
pub(crate) fn was_made_before(made: &[Made], p: &[u16], n: u64) -> bool
    ensures { result ≡ was_made_before made.now p.now n }
{
    match made_of(made, p) {
        None => false,
        Some(m) => m.number < n,
    }
}

/// Whether the task has the clause `wait`.
pub(crate) fn has_wait(made: &[Made], p: &[u16]) -> bool
    ensures { result ≡ has_wait made.now p.now }
{
    match made_of(made, p) {
        None => false,
        Some(m) => m.wait,
    }
}

/// Whether the second is the point of a child of the task with the first.
pub(crate) fn is_child(p: &[u16], q: &[u16]) -> bool
    ensures { result ≡ is_child p.now q.now }
{
    is_below(p, q) && q.len() - p.len() == 1
}
