//! What a task has lent of each cell.

ghost use Rattle.std.specs.Prelude.{◌≡◌, OnOk};
ghost use Rattle.oss_ranges.specs.Cells.{value_at};
ghost use Rattle.oss_lent_cells.specs.Lent.{first_holder, first_writer, nothing_lent};
ghost use Rattle.oss_lent_cells.specs.Kept.{AreLends, AreLent, AreWaitedFor};

use crate::holder::{Child, Holder, Lent};
use crate::lending::{lend_runs, take_back};
use oss_needs::Clause;
use oss_ranges::RangeMap;
use oss_syntax::Range;
use std::alloc::{AllocError, Global};
use std::marker::Model;

/// What a task has lent of each cell to its children since it last waited for them. It is seen as the pieces by which that is kept.
#[derive(Drop)]
pub struct LentCells {
    alloc: Global,
    cells: RangeMap<Lent>,
}

impl Model for LentCells {
    ghost use Rattle.std.specs.Prelude.{List as Items};
    ghost use Rattle.oss_lent_cells.specs.declared.holder.Lent.{Lent as Kept};
    ghost use Rattle.oss_ranges.specs.declared.piece.Piece.{Piece};

    ghost Value = { Items (Piece Kept) };

    ghost view = { λ l. l.cells.pieces };
}

impl LentCells {
    /// Nothing is lent. It takes no memory.
    pub fn new(alloc: Global) -> LentCells
        ensures { AreLent nothing_lent result }
    {
        LentCells {
            alloc,
            cells: RangeMap::new(alloc),
        }
    }

    /// The child gets each cell of which its clauses say something, by that as it counts. It costs the runs of alike cells in
    /// them. It is an error if memory is wanted; this may have any cells then, and is given up.
    pub fn lend(&mut self, clauses: &RangeMap<Clause>, child: Child) -> Result<(), AllocError>
        ensures { OnOk result (AreLends child clauses.now.pieces self.old self.new) }
    {
        lend_runs(&mut self.cells, clauses, child)
    }

    /// The task waits for all its children: nothing is lent any more. It takes no memory.
    pub fn wait(&mut self)
        ensures { AreLent nothing_lent self.new }
    {
        *self = LentCells::new(self.alloc);
    }

    /// The task waits for its children's accesses to the cells of these ranges: they are no longer lent. It costs the pieces in them.
    /// It is an error if memory is wanted; this may have any cells then, and is given up.
    pub fn wait_on(&mut self, named: &[Range]) -> Result<(), AllocError>
        ensures { OnOk result (AreWaitedFor named.now self.old self.new) }
    {
        take_back(&mut self.cells, named)
    }

    /// The first child that has the cell. It takes no memory.
    pub fn first_holder(&self, cell: u32) -> Option<Holder>
        ensures { result ≡ first_holder (value_at self.now cell) }
    {
        match self.cells.get(cell) {
            Some(lent) => Some(lent.first),
            None => None,
        }
    }

    /// The first child that has the cell and may do more than read it. It takes no memory.
    pub fn first_writer(&self, cell: u32) -> Option<Holder>
        ensures { result ≡ first_writer (value_at self.now cell) }
    {
        match self.cells.get(cell) {
            Some(lent) => lent.writer,
            None => None,
        }
    }
}
