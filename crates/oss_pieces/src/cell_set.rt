//! Sets of cells, kept by ranges.

ghost use Rattle.std.specs.Prelude.{◌≡◌, ◌≤◌, ◌<◌, ◌||◌, ◌==◌, ℕ, false, OnOk};
ghost use Rattle.oss_ranges.specs.Cells.{is_within};
ghost use Rattle.oss_pieces.specs.CellSets.{has};

use oss_model::range_of;
use oss_ranges::RangeMap;
use oss_syntax::Range;
use std::alloc::{AllocError, Global};
use std::marker::Model;

/// A program has no cell from here on.
pub const CELLS: u32 = 1_048_576;

/// A set of cells. Neighbouring cells are kept as one range, so that a call costs what the ranges cost, however
/// many cells they have.
#[derive(Drop)]
pub struct CellSet {
    cells: RangeMap<()>,
}

impl Model for CellSet {
    ghost use Rattle.oss_pieces.specs.CellSets.{SetOfCells};

    ghost Value = { SetOfCells };

    ghost view = { λ set. set.cells.pieces };
}

impl CellSet {
    /// The set without cells. It takes no memory.
    pub fn new(alloc: Global) -> CellSet
        ensures { (c : ℕ) → has result c ≡ false }
    {
        CellSet {
            cells: RangeMap::new(alloc),
        }
    }

    /// Whether the set has a cell.
    pub fn has(&self, cell: u32) -> bool
        ensures { result ≡ has self.now cell }
    {
        self.cells.get(cell).is_some()
    }

    /// Adds the cells of a range.
    pub fn add(&mut self, range: Range) -> Result<(), AllocError>
        ensures { OnOk result ((c : ℕ) → has self.new c ≡ (is_within range.lo range.hi c || has self.old c)) }
    {
        self.cells.assign(range, ())?;
        self.cells.join_at(range.lo);
        self.cells.join_at(range.hi);
        Ok(())
    }

    /// Adds a cell, if a program may have it.
    pub fn add_cell(&mut self, cell: u32) -> Result<(), AllocError>
        ensures { OnOk result ((c : ℕ) → c < 1048576 → has self.new c ≡ (cell == c || has self.old c)) }
    {
        if cell >= CELLS || self.has(cell) {
            return Ok(());
        }
        self.add(range_of(cell))
    }

    /// Adds the cells of another set.
    pub fn add_all(&mut self, other: &CellSet) -> Result<(), AllocError>
        ensures { OnOk result ((c : ℕ) → c < 1048576 → has self.new c ≡ (has self.old c || has other.now c)) }
    {
        let mut from = 0;
        'runs: while from < CELLS {
            let (held, to) = other.run_from(from, CELLS);
            if held {
                self.add(Range { lo: from, hi: to })?;
            }
            from = to;
        }
        Ok(())
    }

    /// Whether the set has the cell `from`, and the cell up to which it has all, or none: `to` at most.
    pub fn run_from(&self, from: u32, to: u32) -> (bool, u32)
        requires { from < to }
        ensures alike { (c : ℕ) → from ≤ c → c < result.1 → has self.now c ≡ result.0 }
        ensures some { from < result.1 }
        ensures within { result.1 ≤ to }
    {
        let (value, end) = self.cells.run_from(from, to);
        (value.is_some(), end)
    }
}
