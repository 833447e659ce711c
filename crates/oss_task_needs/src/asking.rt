//! What a task asks of each cell.

ghost use Rattle.std.specs.Prelude.{◌∷◌, ℕ, IfOk, List as Items, OnErr, OnOk};
ghost use Rattle.oss_needs.specs.declared.demand.Demand.{Demand as Asking};
ghost use Rattle.oss_needs.specs.Needs.{IsNeed};
ghost use Rattle.oss_ranges.specs.Cells.{value_at};
ghost use Rattle.oss_task_needs.specs.Asking.{AreKept, Asked, IsAsked, IsAskedFor, IsKept, asks, asks_for, nothing_asked};

use crate::runs::CELLS;
use oss_needs::{Clause, Demand, Need};
use oss_ranges::RangeMap;
use oss_syntax::Range;
use std::alloc::{AllocError, Global};
use std::marker::Model;

/// What a task asks of each cell. It is seen as the pieces by which that is kept.
#[derive(Drop)]
pub struct TaskNeeds {
    alloc: Global,
    pub(crate) cells: RangeMap<Need>,
}

impl Model for TaskNeeds {
    ghost use Rattle.std.specs.Prelude.{List as Items};
    ghost use Rattle.oss_needs.specs.declared.need.Need.{Need as Kept};
    ghost use Rattle.oss_ranges.specs.declared.piece.Piece.{Piece};

    ghost Value = { Items (Piece Kept) };

    ghost view = { λ n. n.cells.pieces };
}

impl TaskNeeds {
    /// Nothing is asked. It takes no memory.
    pub fn new(alloc: Global) -> TaskNeeds
        ensures { AreKept nothing_asked (value_at result) }
    {
        TaskNeeds {
            alloc,
            cells: RangeMap::new(alloc),
        }
    }

    /// An act of the task asks this of each cell of the range. It costs the runs of alike cells in the range. It is an error if
    /// memory is wanted; nothing is kept then.
    pub fn ask(&mut self, range: Range, demand: Demand) -> Result<(), AllocError>
        ensures asked { OnOk result ((asked : Asked) → AreKept asked (value_at self.old) →
            AreKept (asks demand range.lo range.hi asked) (value_at self.new)) }
        ensures let_go { OnErr result (AreKept nothing_asked (value_at self.new)) }
    {
        match ask_runs(&mut self.cells, range, demand) {
            Ok(()) => Ok(()),
            Err(full) => {
                *self = TaskNeeds::new(self.alloc);
                Err(full)
            }
        }
    }

    /// The task creates one whose clauses, mended, say this of each cell. It costs the runs of alike cells in them. It is an error if
    /// memory is wanted; nothing is kept then.
    pub fn ask_for(&mut self, clauses: &RangeMap<Clause>) -> Result<(), AllocError>
        ensures asked { OnOk result ((asked : Asked) → AreKept asked (value_at self.old) →
            AreKept (asks_for (value_at clauses.now.pieces) asked) (value_at self.new)) }
        ensures let_go { OnErr result (AreKept nothing_asked (value_at self.new)) }
    {
        match ask_for_runs(&mut self.cells, clauses) {
            Ok(()) => Ok(()),
            Err(full) => {
                *self = TaskNeeds::new(self.alloc);
                Err(full)
            }
        }
    }
}

/// What is kept of a cell with this demand behind all others.
fn with_demand(need: Option<Need>, demand: Demand) -> Need
    ensures { (ds : Items Asking) → IsKept ds need → IsNeed (demand ∷ ds) result }
{
    match need {
        Some(need) => need.with(demand),
        None => Need::none().with(demand),
    }
}

/// Keeps the demand of each run of alike cells.
fn ask_runs(cells: &mut RangeMap<Need>, range: Range, demand: Demand) -> Result<(), AllocError>
    ensures { OnOk result (IsAsked demand range.lo range.hi cells.old.pieces cells.new.pieces) }
{
    let mut from = range.lo;
    while from < range.hi {
        let (need, to) = cells.run_from(from, range.hi);
        cells.assign(Range { lo: from, hi: to }, with_demand(need, demand))?;
        from = to;
    }
    Ok(())
}

/// Keeps the creation of each run of cells of which the clauses say the same.
fn ask_for_runs(cells: &mut RangeMap<Need>, clauses: &RangeMap<Clause>) -> Result<(), AllocError>
    ensures { OnOk result ((asked : Asked) → AreKept asked (value_at cells.old.pieces) →
        AreKept (asks_for (value_at clauses.now.pieces) asked) (value_at cells.new.pieces)) }
{
    // (it tells that no cell from here on has a clause)
    let _past = clauses.run_from(0, CELLS);
    let mut from = 0;
    while from < CELLS {
        let (clause, to) = clauses.run_from(from, CELLS);
        if let Some(clause) = clause {
            ask_runs(cells, Range { lo: from, hi: to }, Demand::Create(clause))?;
        }
        from = to;
    }
    Ok(())
}
