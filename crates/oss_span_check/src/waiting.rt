//! What waits for what, by the record of a run.

ghost use Rattle.std.specs.Prelude.{◌≡◌, ◌<◌, true, suc, length, nat_eq};
ghost use Rattle.std.specs.List.{list_any};
ghost use Rattle.oss_span_check.specs.Points.{below};
ghost use Rattle.oss_span_check.specs.Waiting.{act_waits_act, act_waits_cell, begins_behind, breaks, cell_waits_act, cell_waits_cell, changes_ahead};
ghost use Rattle.oss_span_check.specs.Waiting.{child_on_way, creates, folds_behind, frees_at, in_run, is_ahead, is_folded_at, is_freed, is_join};
ghost use Rattle.oss_span_check.specs.Waiting.{is_made_between, is_newest, is_number, joins_behind, keeps_for, follows, is_made_at, mode_joins_behind};
ghost use Rattle.oss_span_check.specs.Waiting.{starts_behind, waits_below, waits_for_child, waits_on};

use crate::modes::{is_change, is_folded, is_joined_by, is_unfolded};
use crate::note::Made;
use crate::point::{is_below, part};
use crate::queries::{has_at, has_some, is_last};
use crate::record::Record;
use crate::sought::Sought;
use crate::tasks::{
    access_in, access_of, has_access, has_wait, is_child, made_of, was_made_before,
};
use oss_syntax::{Mode, Op};

/// Whether a number is there, and is this one.
fn is_number(place: Option<usize>, n: usize) -> bool
    ensures { result ≡ is_number place n }
{
    match place {
        None => false,
        Some(m) => m == n,
    }
}

/// The child on the way to the second point, which stands below the first.
fn child_on_way<'a>(p: &[u16], q: &'a [u16]) -> &'a [u16]
    requires { below p.now q.now ≡ true }
    ensures { result.now ≡ child_on_way p.now q.now }
{
    &q[..p.len() + 1]
}

/// Whether two points part, the second having the smaller number there.
fn is_ahead(p: &[u16], q: &[u16]) -> bool
    ensures { result ≡ is_ahead p.now q.now }
{
    match part(p, q) {
        None => false,
        Some(_) => true,
    }
}

/// Whether this task was.
fn is_made_between(p: &[u16], first: u64, n: u64, m: &Made) -> bool
    ensures { result ≡ is_made_between p.now first n m.now }
{
    is_child(p, m.point.as_slice()) && (first < m.number && m.number < n)
}

/// Whether a task was created between two acts of its creator, which has this point.
fn is_other_between(made: &[Made], p: &[u16], first: u64, n: u64) -> bool
    ensures { result ≡ list_any (λ x. is_made_between p.now first n x) made.now }
{
    made.iter().any(|x| is_made_between(p, first, n, x))
}

/// Whether the creator of a task, which has this point, created no other one behind it before this act.
fn is_newest(made: &[Made], p: &[u16], q: &[u16], n: u64) -> bool
    ensures { result ≡ is_newest made.now p.now q.now n }
{
    match made_of(made, q) {
        None => false,
        Some(m) => !is_other_between(made, p, m.number, n),
    }
}

/// Whether an act waits for a child of its task and all below it.
fn waits_for_child(r: &Record, p: &[u16], n: u64, q: &[u16]) -> bool
    ensures { result ≡ waits_for_child r.now p.now n q.now }
{
    let notes = r.notes.as_slice();
    let made = r.made.as_slice();
    was_made_before(made, q, n)
        && (has_at(notes, Sought::Wait, p, n)
            || (has_at(notes, Sought::Await, p, n) && is_newest(made, p, q, n)))
}

/// Whether an act waits for a task that stands below its own.
fn waits_below(r: &Record, p: &[u16], n: u64, q: &[u16]) -> bool
    ensures { result ≡ waits_below r.now p.now n q.now }
{
    is_below(p, q) && waits_for_child(r, p, n, child_on_way(p, q))
}

/// Whether an act waits for the access of a task to a cell.
fn waits_on(r: &Record, p: &[u16], n: u64, q: &[u16], cell: u32) -> bool
    ensures { result ≡ waits_on r.now p.now n q.now cell }
{
    is_below(p, q)
        && (was_made_before(r.made.as_slice(), child_on_way(p, q), n)
            && has_at(r.notes.as_slice(), Sought::Names(cell), p, n))
}

/// Whether on the level where the points part the second one's access is no read.
fn changes_ahead(r: &Record, p: &[u16], q: &[u16], cell: u32) -> bool
    ensures { result ≡ changes_ahead r.now p.now q.now cell }
{
    match part(p, q) {
        None => false,
        Some(d) => is_change(access_of(r.made.as_slice(), &q[..d + 1], cell)),
    }
}

/// Whether a task stands before a strong access of this mode.
fn begins_behind(r: &Record, mode: Mode, p: &[u16], q: &[u16], cell: u32) -> bool
    ensures { result ≡ begins_behind r.now mode p.now q.now cell }
{
    match mode {
        Mode::Read => changes_ahead(r, p, q, cell),
        Mode::Write => is_ahead(p, q),
        Mode::Fold(_) => false,
    }
}

/// Whether the first act of a task waits for what another gives of a cell.
fn starts_behind(r: &Record, p: &[u16], q: &[u16], cell: u32) -> bool
    ensures { result ≡ starts_behind r.now p.now q.now cell }
{
    match access_of(r.made.as_slice(), p, cell) {
        None => false,
        Some(a) => a.strong && begins_behind(r, a.mode, p, q, cell),
    }
}

/// Whether a task is a sibling between two that part at this place, and its access no reduction by this operator.
fn breaks(op: Op, d: usize, p: &[u16], q: &[u16], cell: u32, m: &Made) -> bool
    ensures { result ≡ breaks op d p.now q.now cell m.now }
{
    let point = m.point.as_slice();
    is_long(point, d)
        && (is_number(part(point, q), d)
            && (is_number(part(p, point), d)
                && is_unfolded(op, access_in(m.accesses.as_slice(), cell).copied())))
}

/// Whether a point has one number behind this place.
fn is_long(point: &[u16], d: usize) -> bool
    ensures { result ≡ nat_eq (length point.now) (suc d) }
{
    d < point.len() && point.len() - d == 1
}

/// Whether a task is one that `breaks` tells of.
fn is_broken(made: &[Made], op: Op, d: usize, p: &[u16], q: &[u16], cell: u32) -> bool
    ensures { result ≡ list_any (λ m. breaks op d p.now q.now cell m) made.now }
{
    made.iter().any(|m| breaks(op, d, p, q, cell, m))
}

/// Whether on the level where two points part the tasks stand in one unbroken run of reductions by this operator.
fn in_run(r: &Record, op: Op, d: usize, p: &[u16], q: &[u16], cell: u32) -> bool
    requires later { d < length p.now }
    requires earlier { d < length q.now }
    ensures { result ≡ in_run r.now op d p.now q.now cell }
{
    let made = r.made.as_slice();
    is_folded_at(made, op, p, d, cell)
        && (is_folded_at(made, op, q, d, cell) && !is_broken(made, op, d, p, q, cell))
}

/// Whether on this level the access of a task, or of one above it, is a reduction by this operator.
fn is_folded_at(made: &[Made], op: Op, p: &[u16], d: usize, cell: u32) -> bool
    requires { d < length p.now }
    ensures { result ≡ is_folded_at made.now op p.now d cell }
{
    is_folded(op, access_of(made, &p[..d + 1], cell))
}

/// Whether a task stands before the join of a reduction by this operator.
fn folds_behind(r: &Record, op: Op, p: &[u16], q: &[u16], cell: u32) -> bool
    ensures { result ≡ folds_behind r.now op p.now q.now cell }
{
    match part(p, q) {
        None => false,
        Some(d) => !in_run(r, op, d, p, q, cell),
    }
}

/// Whether it stands before the join of an access of this mode.
fn mode_joins_behind(r: &Record, mode: Mode, p: &[u16], q: &[u16], cell: u32) -> bool
    ensures { result ≡ mode_joins_behind r.now mode p.now q.now cell }
{
    match mode {
        Mode::Read => false,
        Mode::Write => false,
        Mode::Fold(op) => folds_behind(r, op, p, q, cell),
    }
}

/// Whether the join of a task's cell waits for what another gives of it.
fn joins_behind(r: &Record, p: &[u16], q: &[u16], cell: u32) -> bool
    ensures { result ≡ joins_behind r.now p.now q.now cell }
{
    match access_of(r.made.as_slice(), p, cell) {
        None => false,
        Some(a) => a.strong && mode_joins_behind(r, a.mode, p, q, cell),
    }
}

/// Whether a cell is one of a strong reduction of the task: its slot is joined.
pub(crate) fn is_join(r: &Record, p: &[u16], cell: u32) -> bool
    ensures { result ≡ is_join r.now p.now cell }
{
    is_joined_by(access_of(r.made.as_slice(), p, cell))
}

/// Whether a task has released a cell.
fn is_freed(r: &Record, p: &[u16], cell: u32) -> bool
    ensures { result ≡ is_freed r.now p.now cell }
{
    has_some(r.notes.as_slice(), Sought::Frees(cell), p) && !is_join(r, p, cell)
}

/// Whether it has released it by this act.
fn frees_at(r: &Record, p: &[u16], cell: u32, n: u64) -> bool
    ensures { result ≡ frees_at r.now p.now cell n }
{
    has_at(r.notes.as_slice(), Sought::Frees(cell), p, n) && !is_join(r, p, cell)
}

/// Whether a task keeps a cell until another one, below it, has ended.
fn keeps_for(r: &Record, p: &[u16], cell: u32, q: &[u16]) -> bool
    ensures { result ≡ keeps_for r.now p.now cell q.now }
{
    !is_freed(r, p, cell) && (has_wait(r.made.as_slice(), p) && is_below(p, q))
}

/// Whether an act is the creation of a task.
fn creates(r: &Record, p: &[u16], q: &[u16], m: u64) -> bool
    ensures { result ≡ creates r.now p.now q.now m }
{
    is_child(q, p) && is_made_at(r.made.as_slice(), p, m)
}

/// Whether the act with this number of its creator created a task.
fn is_made_at(made: &[Made], p: &[u16], m: u64) -> bool
    ensures { result ≡ is_made_at made.now p.now m }
{
    match made_of(made, p) {
        None => false,
        Some(x) => x.number == m,
    }
}

/// Whether an act follows another of the same task.
fn follows(p: &[u16], n: u64, q: &[u16], m: u64) -> bool
    ensures { result ≡ follows p.now n q.now m }
{
    p == q && (m < n && n - m == 1)
}

/// Whether an act waits for an act.
pub(crate) fn act_waits_act(r: &Record, p: &[u16], n: u64, q: &[u16], m: u64) -> bool
    ensures { result ≡ act_waits_act r.now p.now n q.now m }
{
    follows(p, n, q, m)
        || ((n == 0 && creates(r, p, q, m))
            || (waits_below(r, p, n, q) && is_last(r.notes.as_slice(), q, m)))
}

/// Whether an act waits for a cell that is given up.
pub(crate) fn act_waits_cell(r: &Record, p: &[u16], n: u64, q: &[u16], cell: u32) -> bool
    ensures { result ≡ act_waits_cell r.now p.now n q.now cell }
{
    has_access(r.made.as_slice(), q, cell)
        && ((n == 0 && starts_behind(r, p, q, cell))
            || (waits_below(r, p, n, q) || waits_on(r, p, n, q, cell)))
}

/// Whether a cell that is given up waits for an act.
pub(crate) fn cell_waits_act(r: &Record, p: &[u16], cell: u32, q: &[u16], m: u64) -> bool
    ensures { result ≡ cell_waits_act r.now p.now cell q.now m }
{
    has_access(r.made.as_slice(), p, cell)
        && ((p == q && frees_at(r, p, cell, m))
            || (is_last(r.notes.as_slice(), q, m)
                && ((p == q && !is_freed(r, p, cell)) || keeps_for(r, p, cell, q))))
}

/// Whether a cell that is given up waits for one.
pub(crate) fn cell_waits_cell(r: &Record, p: &[u16], cell: u32, q: &[u16], other: u32) -> bool
    ensures { result ≡ cell_waits_cell r.now p.now cell q.now other }
{
    has_access(r.made.as_slice(), p, cell)
        && (has_access(r.made.as_slice(), q, other)
            && (keeps_for(r, p, cell, q) || (cell == other && joins_behind(r, p, q, cell))))
}
