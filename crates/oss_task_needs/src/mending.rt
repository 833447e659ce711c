//! What clauses lack, and what they say once that is mended.

ghost use Rattle.std.specs.Prelude.{◌≡◌, [], IfOk, List as Items, OnOk, Some};
ghost use Rattle.oss_needs.specs.declared.demand.Demand.{Demand as Asking};
ghost use Rattle.oss_needs.specs.Lacks.{lack_of, mended};
ghost use Rattle.oss_ranges.specs.Cells.{Assigns, value_at};
ghost use Rattle.oss_task_needs.specs.Asking.{AreKept, Asked, IsKept};
ghost use Rattle.oss_task_needs.specs.Mends.{IsMending, LacksBefore, MendsBefore, kept_lack};
ghost use Rattle.oss_task_needs.specs.Saying.{given_at};

use crate::asking::TaskNeeds;
use crate::givens::{Givens, or_nothing};
use crate::runs::{CELLS, put};
use oss_needs::{Clause, Given, Lack, Need};
use oss_ranges::RangeMap;
use oss_syntax::Range;
use std::alloc::{AllocError, Global};

/// What the clauses of a task lack of each cell, where they lack something, and what they say of each once that is mended, where they say
/// something.
#[derive(Drop)]
pub struct Mending {
    pub clauses: RangeMap<Clause>,
    pub lacks: RangeMap<Lack>,
}

impl Mending {
    /// For a task whose clauses say this, and which asks this. It costs the runs of alike cells. It is an error if memory is wanted.
    pub fn of(alloc: Global, givens: &Givens, needs: &TaskNeeds) -> Result<Mending, AllocError>
        ensures { IfOk result (λ mending. (asked : Asked) → AreKept asked (value_at needs.now) →
            IsMending (given_at givens.now) asked mending) }
    {
        let mut clauses = RangeMap::new(alloc);
        let mut lacks = RangeMap::new(alloc);
        match mend_all(&mut clauses, &mut lacks, &givens.cells, &needs.cells) {
            Ok(()) => Ok(Mending { clauses, lacks }),
            Err(full) => {
                drop(clauses);
                drop(lacks);
                Err(full)
            }
        }
    }
}

/// Mends run after run of alike cells.
fn mend_all(
    clauses: &mut RangeMap<Clause>,
    lacks: &mut RangeMap<Lack>,
    givens: &RangeMap<Given>,
    needs: &RangeMap<Need>,
) -> Result<(), AllocError>
    requires clauses { clauses.old.pieces ≡ [] }
    requires lacks { lacks.old.pieces ≡ [] }
    ensures clauses { OnOk result (MendsBefore (given_at givens.now.pieces) (value_at needs.now.pieces) 1048576
        clauses.new.pieces) }
    ensures lacks { OnOk result (LacksBefore (given_at givens.now.pieces) (value_at needs.now.pieces) 1048576
        lacks.new.pieces) }
{
    let mut from = 0;
    while from < CELLS {
        let (given, alike) = givens.run_from(from, CELLS);
        let (need, end) = needs.run_from(from, alike);
        let run = Range { lo: from, hi: end };
        mend_run(clauses, lacks, run, or_nothing(given), or_none(need))?;
        from = end;
    }
    Ok(())
}

/// Mends a run of alike cells.
fn mend_run(
    clauses: &mut RangeMap<Clause>,
    lacks: &mut RangeMap<Lack>,
    run: Range,
    given: Given,
    need: Need,
) -> Result<(), AllocError>
    ensures clauses { OnOk result ((ds : Items Asking) → IsKept ds (Some need) →
        Assigns run.lo run.hi (mended given ds) clauses.old.pieces clauses.new.pieces) }
    ensures lacks { OnOk result ((ds : Items Asking) → IsKept ds (Some need) →
        Assigns run.lo run.hi (kept_lack (lack_of given ds)) lacks.old.pieces lacks.new.pieces) }
{
    put(clauses, run, need.mended(given))?;
    put(lacks, run, kept(need.lack(given)))
}

/// What is asked of a cell of which this is kept.
fn or_none(need: Option<Need>) -> Need
    ensures { (ds : Items Asking) → IsKept ds need → IsKept ds (Some result) }
{
    match need {
        Some(need) => need,
        None => Need::none(),
    }
}

/// What is kept of a lack.
fn kept(lack: Lack) -> Option<Lack>
    ensures { result ≡ kept_lack lack }
{
    match lack {
        Lack::Nothing => None,
        Lack::Adds(clause) => Some(Lack::Adds(clause)),
        Lack::Replaces(clause) => Some(Lack::Replaces(clause)),
    }
}
