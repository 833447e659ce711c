//! How cells are lent to a child, and taken back, a run of alike cells at a time.

ghost use Rattle.std.specs.Prelude.{◌≡◌, OnOk};
ghost use Rattle.oss_lent_cells.specs.Lent.{if_more, lent_to, only_reads, or_else};
ghost use Rattle.oss_lent_cells.specs.Kept.{AreLends, AreTakenBack, AreWaitedFor, IsLentTo};

use crate::holder::{Child, Holder, Lent, holder_by};
use oss_needs::Clause;
use oss_ranges::RangeMap;
use oss_syntax::{Mode, Range};
use std::alloc::AllocError;

/// A program has no cell from here on.
const CELLS: u32 = 1_048_576;

/// Lends each run of cells of which the clauses say the same.
pub(crate) fn lend_runs(
    cells: &mut RangeMap<Lent>,
    clauses: &RangeMap<Clause>,
    child: Child,
) -> Result<(), AllocError>
    ensures { OnOk result (AreLends child clauses.now.pieces cells.old.pieces cells.new.pieces) }
{
    // (it tells that no cell from here on has a clause)
    let _past = clauses.run_from(0, CELLS);
    let mut from = 0;
    while from < CELLS {
        let (clause, to) = clauses.run_from(from, CELLS);
        if let Some(clause) = clause {
            lend_range(cells, Range { lo: from, hi: to }, holder_by(child, clause))?;
        }
        from = to;
    }
    Ok(())
}

/// Lends the cells of a range to a child.
fn lend_range(cells: &mut RangeMap<Lent>, range: Range, child: Holder) -> Result<(), AllocError>
    ensures { OnOk result (IsLentTo child range.lo range.hi cells.old.pieces cells.new.pieces) }
{
    let mut from = range.lo;
    while from < range.hi {
        let (lent, to) = cells.run_from(from, range.hi);
        cells.assign(Range { lo: from, hi: to }, lent_to(lent, child))?;
        from = to;
    }
    Ok(())
}

/// To whom a cell is lent if a child more gets it.
fn lent_to(lent: Option<Lent>, child: Holder) -> Lent
    ensures { result ≡ lent_to child lent }
{
    match lent {
        Some(lent) => Lent {
            first: lent.first,
            writer: first_of(lent.writer, if_more(child)),
        },
        None => Lent {
            first: child,
            writer: if_more(child),
        },
    }
}

/// The first one, if there is one, and else the other.
fn first_of(first: Option<Holder>, other: Option<Holder>) -> Option<Holder>
    ensures { result ≡ or_else first other }
{
    match first {
        Some(first) => Some(first),
        None => other,
    }
}

/// The child, if it may do more than read.
fn if_more(child: Holder) -> Option<Holder>
    ensures { result ≡ if_more child }
{
    if only_reads(child.clause.mode) {
        None
    } else {
        Some(child)
    }
}

/// Whether a task with this mode does not write.
fn only_reads(mode: Mode) -> bool
    ensures { result ≡ only_reads mode }
{
    match mode {
        Mode::Read => true,
        Mode::Write => false,
        Mode::Fold(_) => false,
    }
}

/// Takes the cells of these ranges back, the last range first.
pub(crate) fn take_back(cells: &mut RangeMap<Lent>, named: &[Range]) -> Result<(), AllocError>
    ensures { OnOk result (AreWaitedFor named.now cells.old.pieces cells.new.pieces) }
{
    let mut left = named.len();
    while left > 0 {
        left -= 1;
        cells.clear(named[left])?;
    }
    Ok(())
}
