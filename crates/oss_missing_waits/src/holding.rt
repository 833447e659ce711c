//! An open task of the second walk, and what each event makes of it.

ghost use Rattle.std.specs.Prelude.{◌==◌, ◌≡◌, ℕ, List as Items, Option as Maybe, OnOk, is_some};
ghost use Rattle.oss_syntax.specs.declared.tree.program.Item.{Item};
ghost use Rattle.oss_model.specs.Context.{in_clauses};
ghost use Rattle.oss_ranges.specs.Cells.{value_at};
ghost use Rattle.oss_needs.specs.declared.clause.Clause.{Clause as Said};
ghost use Rattle.oss_lent_cells.specs.Kept.{in_ranges};
ghost use Rattle.oss_lent_cells.specs.Lent.{all_counted, nothing_lent};
ghost use Rattle.oss_missing_waits.specs.Holding.{IsUse, lent_when, new_task, releases, told_wait, with_lent};
ghost use Rattle.oss_missing_waits.specs.Kept.{IsHolding, IsToldUse, IsUseThen, Leads, LeadsTo, touch_of, touched_under, waits_for};

use crate::hindering::hinderer;
use crate::using::{cell_of, release_all, used_by_clauses, used_by_map, used_by_ranges, used_cell};
use oss_explanation::Touching;
use oss_lent_cells::{Child, Holder, LentCells};
use oss_missing_lines::{Late, LateUse, MissingWait, word_of_clause};
use oss_needs::Clause;
use oss_pieces::{CellSet, Layout};
use oss_ranges::RangeMap;
use oss_syntax::{Access, List, Range};
use std::alloc::{AllocError, Global};
use std::collections::BTreeSet;

/// An open task: what it has lent to its children, what it has released, and what was told of it, in the order of the run.
pub(crate) struct HoldingTask {
    alloc: Global,
    pub(crate) lent: LentCells,
    pub(crate) released: CellSet,
    pub(crate) told: List<Late>,
    /// The lines on which a missing wait was told.
    pub(crate) waits: BTreeSet<u32>,
    /// The lines on which a use behind a release was told.
    pub(crate) uses: BTreeSet<u32>,
}

// By hand, so that who lets one go calls this, and does not take it apart at each exit.
impl Drop for HoldingTask {
    fn drop(self) {
        let HoldingTask {
            alloc: _,
            lent,
            released,
            told,
            waits,
            uses,
        } = self;
        drop(lent);
        drop(released);
        drop(told);
        drop(waits);
        drop(uses);
    }
}

impl HoldingTask {
    /// A task before its first act.
    pub(crate) fn new(alloc: Global) -> HoldingTask
        ensures { (all : Items Item) (path : Items ℕ) (line : ℕ) (clauses : ℕ → Maybe Said) →
            IsHolding all (new_task path line clauses) result }
    {
        let lent = LentCells::new(alloc);
        let released = CellSet::new(alloc);
        let told = List::new(alloc);
        let waits = BTreeSet::new(alloc);
        let uses = BTreeSet::new(alloc);
        HoldingTask {
            alloc,
            lent,
            released,
            told,
            waits,
            uses,
        }
    }

    /// The lines that were told of it.
    pub(crate) fn into_told(self) -> List<Late>
        ensures { result ≡ self.told }
    {
        let HoldingTask {
            alloc: _,
            lent,
            released,
            told,
            waits,
            uses,
        } = self;
        drop(lent);
        drop(released);
        drop(waits);
        drop(uses);
        told
    }

    /// It touches a cell on this line, which it has by this clause.
    pub(crate) fn touch(
        &mut self,
        layout: &Layout,
        touch: Touching,
        cell: u32,
        line: u32,
        clause: Option<Clause>,
    ) -> Result<(), AllocError>
        ensures { OnOk result (Leads layout.now
            (IsUseThen (λ c. cell == c) line (touched_under clause (touch_of touch) cell line)) self.old self.new) }
    {
        self.use_cell(layout, cell, line)?;
        self.touch_lent(touch, cell, line, clause)?;
        Ok(())
    }

    /// It creates a child, which has cells by these clauses, and lends it these, or does not.
    pub(crate) fn create(
        &mut self,
        layout: &Layout,
        clauses: &RangeMap<Clause>,
        child: Child,
        lends: bool,
    ) -> Result<(), AllocError>
        ensures { OnOk result (Leads layout.now
            (IsUseThen (λ c. is_some (all_counted child.is_final (value_at clauses.now.pieces) c)) child.line
            (lent_when lends child.number child.line (all_counted child.is_final (value_at clauses.now.pieces))))
            self.old self.new) }
    {
        self.use_map(layout, clauses, child.line)?;
        self.lend(clauses, child, lends)?;
        Ok(())
    }

    /// It releases the cells of these clauses on this line.
    pub(crate) fn release(
        &mut self,
        layout: &Layout,
        clauses: &[Access],
        line: u32,
    ) -> Result<(), AllocError>
        ensures { OnOk result (Leads layout.now (IsUseThen (in_clauses clauses.now) line (releases clauses.now))
            self.old self.new) }
    {
        self.use_clauses(layout, clauses, line)?;
        self.give_up(clauses)?;
        Ok(())
    }

    /// It waits on this line for its children's accesses to the cells of these ranges.
    pub(crate) fn wait_on(
        &mut self,
        layout: &Layout,
        named: &[Range],
        line: u32,
    ) -> Result<(), AllocError>
        ensures { OnOk result (Leads layout.now (IsUseThen (in_ranges named.now) line (waits_for named.now))
            self.old self.new) }
    {
        self.use_ranges(layout, named, line)?;
        self.take_back(named)?;
        Ok(())
    }

    /// It waits for all its children.
    pub(crate) fn wait(&mut self)
        ensures { LeadsTo (with_lent nothing_lent) self.old self.new }
    {
        self.lent.wait();
    }

    /// It uses a cell.
    fn use_cell(&mut self, layout: &Layout, cell: u32, line: u32) -> Result<(), AllocError>
        ensures { OnOk result (Leads layout.now (IsUse (λ c. cell == c) line) self.old self.new) }
    {
        let used = used_cell(self.alloc, &self.released, cell)?;
        self.tell_use(layout, &used, line)?;
        Ok(())
    }

    /// It uses the cells of these clauses.
    fn use_clauses(
        &mut self,
        layout: &Layout,
        clauses: &[Access],
        line: u32,
    ) -> Result<(), AllocError>
        ensures { OnOk result (Leads layout.now (IsUse (in_clauses clauses.now) line) self.old self.new) }
    {
        let used = used_by_clauses(self.alloc, &self.released, clauses)?;
        self.tell_use(layout, &used, line)?;
        Ok(())
    }

    /// It uses the cells of these ranges.
    fn use_ranges(&mut self, layout: &Layout, named: &[Range], line: u32) -> Result<(), AllocError>
        ensures { OnOk result (Leads layout.now (IsUse (in_ranges named.now) line) self.old self.new) }
    {
        let used = used_by_ranges(self.alloc, &self.released, named)?;
        self.tell_use(layout, &used, line)?;
        Ok(())
    }

    /// It uses the cells of which these clauses say something.
    fn use_map(
        &mut self,
        layout: &Layout,
        clauses: &RangeMap<Clause>,
        line: u32,
    ) -> Result<(), AllocError>
        ensures { OnOk result (Leads layout.now (IsUse (λ c. is_some (value_at clauses.now.pieces c)) line)
            self.old self.new) }
    {
        let used = used_by_map(self.alloc, &self.released, clauses)?;
        self.tell_use(layout, &used, line)?;
        Ok(())
    }

    /// Tells that it uses these cells on this line, which it has released, if there is one and no such use was told on the line.
    fn tell_use(&mut self, layout: &Layout, used: &CellSet, line: u32) -> Result<(), AllocError>
        ensures { OnOk result (IsToldUse layout.now used.now line self.old self.new) }
    {
        match cell_of(used) {
            None => Ok(()),
            Some(_cell) => {
                let known = self.uses.contains(&line);
                if known {
                    return Ok(());
                }
                let cells = layout.pieces(used)?;
                self.told.push(Late::Use(LateUse { cells, line }))?;
                self.uses.insert(line)?;
                Ok(())
            }
        }
    }

    /// It touches a cell which it may have lent: it waits before, if a child hinders that.
    fn touch_lent(
        &mut self,
        touch: Touching,
        cell: u32,
        line: u32,
        clause: Option<Clause>,
    ) -> Result<(), AllocError>
        ensures { OnOk result (LeadsTo (touched_under clause (touch_of touch) cell line) self.old self.new) }
    {
        match hinderer(&self.lent, clause, touch, cell) {
            Some(child) => {
                self.tell_wait(touch, cell, line, child)?;
                self.wait();
                Ok(())
            }
            None => Ok(()),
        }
    }

    /// Tells that a wait is missing on this line, if that was not told.
    fn tell_wait(
        &mut self,
        touch: Touching,
        cell: u32,
        line: u32,
        child: Holder,
    ) -> Result<(), AllocError>
        ensures { OnOk result (LeadsTo (told_wait (touch_of touch) cell line child) self.old self.new) }
    {
        let known = self.waits.contains(&line);
        if known {
            return Ok(());
        }
        let word = word_of_clause(child.clause);
        self.told.push(Late::Wait(MissingWait {
            touch,
            cell,
            line,
            child: child.number,
            created: child.line,
            word,
        }))?;
        self.waits.insert(line)?;
        Ok(())
    }

    /// Lends a child its cells, or does not.
    fn lend(
        &mut self,
        clauses: &RangeMap<Clause>,
        child: Child,
        lends: bool,
    ) -> Result<(), AllocError>
        ensures { OnOk result (LeadsTo
            (lent_when lends child.number child.line (all_counted child.is_final (value_at clauses.now.pieces)))
            self.old self.new) }
    {
        if lends {
            self.lent.lend(clauses, child)?;
            Ok(())
        } else {
            Ok(())
        }
    }

    /// The cells of these clauses are released.
    fn give_up(&mut self, clauses: &[Access]) -> Result<(), AllocError>
        ensures { OnOk result (LeadsTo (releases clauses.now) self.old self.new) }
    {
        release_all(&mut self.released, clauses)?;
        Ok(())
    }

    /// The cells of these ranges are no longer lent.
    fn take_back(&mut self, named: &[Range]) -> Result<(), AllocError>
        ensures { OnOk result (LeadsTo (waits_for named.now) self.old self.new) }
    {
        self.lent.wait_on(named)?;
        Ok(())
    }
}
