//! What the clauses of a task say of each cell.

ghost use Rattle.std.specs.Prelude.{◌≡◌, [], IfOk, OnOk};
ghost use Rattle.oss_task_needs.specs.Saying.{AreGiven, IsSaid, given_at, or_no_word};

use oss_needs::{Clause, Given};
use oss_ranges::RangeMap;
use oss_syntax::{Access, Range};
use std::alloc::{AllocError, Global};
use std::marker::Model;

/// What the clauses of a task say of each cell. It is seen as the pieces by which that is kept.
#[derive(Drop)]
pub struct Givens {
    pub(crate) cells: RangeMap<Given>,
}

impl Model for Givens {
    ghost use Rattle.std.specs.Prelude.{List as Items};
    ghost use Rattle.oss_needs.specs.declared.clause.Given.{Given as Said};
    ghost use Rattle.oss_ranges.specs.declared.piece.Piece.{Piece};

    ghost Value = { Items (Piece Said) };

    ghost view = { λ g. g.cells.pieces };
}

impl Givens {
    /// What these clauses of a pragma say; of a final task a weak clause counts as strong. It costs the runs of alike cells in their
    /// ranges. It is an error if memory is wanted.
    pub fn of(alloc: Global, clauses: &[Access], is_final: bool) -> Result<Givens, AllocError>
        ensures { IfOk result (AreGiven is_final clauses.now) }
    {
        let mut cells = RangeMap::new(alloc);
        match say_all(&mut cells, clauses, is_final) {
            Ok(()) => Ok(Givens { cells }),
            Err(full) => {
                drop(cells);
                Err(full)
            }
        }
    }

    /// What they say of one cell. It takes no memory.
    pub fn at(&self, cell: u32) -> Given
        ensures { result ≡ given_at self.now cell }
    {
        or_nothing(self.cells.get(cell))
    }
}

/// What is kept of a cell; nothing if nothing is.
pub(crate) fn or_nothing(given: Option<Given>) -> Given
    ensures { result ≡ or_no_word given }
{
    match given {
        Some(given) => given,
        None => Given::Nothing,
    }
}

/// Says all clauses, the last one first.
fn say_all(
    cells: &mut RangeMap<Given>,
    clauses: &[Access],
    is_final: bool,
) -> Result<(), AllocError>
    requires none { cells.old.pieces ≡ [] }
    ensures given { OnOk result (AreGiven is_final clauses.now cells.new.pieces) }
{
    let mut left = clauses.len();
    while left > 0 {
        left -= 1;
        let clause = clauses[left];
        say(cells, clause.range, Clause::of(clause, is_final))?;
    }
    Ok(())
}

/// Says one clause of the cells of its range.
fn say(cells: &mut RangeMap<Given>, range: Range, clause: Clause) -> Result<(), AllocError>
    ensures { OnOk result (IsSaid clause range.lo range.hi cells.old.pieces cells.new.pieces) }
{
    let mut from = range.lo;
    while from < range.hi {
        let (given, to) = cells.run_from(from, range.hi);
        cells.assign(Range { lo: from, hi: to }, or_nothing(given).with(clause))?;
        from = to;
    }
    Ok(())
}
