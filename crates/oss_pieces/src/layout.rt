//! Where the globals of a program lie, in a table, so that what is asked of a few cells does not go over all globals.

ghost use Rattle.std.specs.Prelude.{◌≡◌, ◌≤◌, ◌<◌, ℕ, List as Items, length, slice_get, IfOk, IfSome};
ghost use Rattle.oss_syntax.specs.declared.tree.program.Item.{Item as Meant};
ghost use Rattle.oss_grammar.specs.Layout.{cells_in};
ghost use Rattle.oss_pieces.specs.CellSets.{has};
ghost use Rattle.oss_pieces.specs.declared.shape.Shape.{Shape as Kept};
ghost use Rattle.oss_pieces.specs.Layouts.{AreLaid, ArePiecesIn, grids, grids_from};
ghost use Rattle.oss_pieces.specs.Pieces.{ArePieces};

use crate::cell_set::{CELLS, CellSet};
use crate::finding::{add_pieces_of, next_cell};
use crate::piece::Piece;
use crate::shape::Shape;
use oss_syntax::{Item, List, Program};
use std::alloc::{AllocError, Global};
use std::marker::Model;

/// Where the globals of a program lie.
pub struct Layout {
    alloc: Global,
    /// In text order: each begins where the one before it ends.
    shapes: Vec<Shape>,
}

// By hand, so that who lets one go calls this, and does not take it apart at each exit.
impl Drop for Layout {
    fn drop(self) {
        let Layout { alloc: _, shapes } = self;
        drop(shapes);
    }
}

impl Model for Layout {
    ghost use Rattle.std.specs.Prelude.{List as Items};
    ghost use Rattle.oss_pieces.specs.Layouts.{AreLaid, grids};
    ghost use Rattle.oss_pieces.specs.Rows.{Grid};

    ghost Value = { Items Grid };

    ghost view = { λ l. grids l.shapes.items };

    ghost invariant = { λ l. AreLaid 0 (grids l.shapes.items) };
}

impl Layout {
    /// Where the globals of this program lie. Out of memory is the one error.
    pub fn of(alloc: Global, program: &Program) -> Result<Layout, AllocError>
        requires { cells_in program.now.items ≤ 1048576 }
        ensures { IfOk result (λ layout. layout ≡ grids_from program.now.items 0) }
    {
        let shapes = shapes_of(alloc, program)?;
        Ok(Layout { alloc, shapes })
    }

    /// The pieces of a set of cells over the globals of the program, in rising order: those that `pieces` finds. It costs what
    /// the ranges of the set and the pieces do, and a search in the set for each of these and in the table for each of the
    /// globals that have a piece. Out of memory is the one error.
    pub fn pieces(&self, set: &CellSet) -> Result<List<Piece>, AllocError>
        ensures { IfOk result (λ found. (all : Items Meant) → self.now ≡ grids_from all 0 →
            ArePieces (has set.now) all 0 0 found) }
    {
        pieces_in(self.alloc, self.shapes.as_slice(), set)
    }
}

/// The shapes of the globals, in text order.
fn shapes_of(alloc: Global, program: &Program) -> Result<Vec<Shape>, AllocError>
    requires { cells_in program.now.items ≤ 1048576 }
    ensures { IfOk result (λ shapes. grids shapes.items ≡ grids_from program.now.items 0) }
{
    let mut shapes = Vec::new(alloc);
    let mut start = 0;
    for item in program.items.as_slice() {
        if let Item::Global(global) = item {
            let shape = Shape::of(global, start);
            shapes.push(shape)?;
            start = shape.end();
        }
    }
    Ok(shapes)
}

/// The pieces of a set of cells over globals that lie so.
fn pieces_in(alloc: Global, shapes: &[Shape], set: &CellSet) -> Result<List<Piece>, AllocError>
    requires { AreLaid 0 (grids shapes.now) }
    ensures { IfOk result (λ found. ArePiecesIn (has set.now) (grids shapes.now) 0 found) }
{
    let mut found = Vec::new(alloc);
    let mut number = 0;
    while number < shapes.len() {
        let begin = next_cell(set, shapes[number].start, CELLS);
        if begin == CELLS {
            break;
        }
        number = global_of(shapes, number, begin);
        add_pieces_of(set, shapes[number], number, &mut found)?;
        number += 1;
    }
    Ok(List::from_vec(found))
}

/// The last global that begins at this cell or before it, found by halving. Condition: the one with the number `from` does.
fn global_of(shapes: &[Shape], from: usize, cell: u32) -> usize
    requires begins { IfSome (slice_get shapes.now from) (λ shape. shape.start ≤ cell) }
    requires there { from < length shapes.now }
    ensures from { from ≤ result }
    ensures there { result < length shapes.now }
    ensures begins { IfSome (slice_get shapes.now result) (λ shape. shape.start ≤ cell) }
{
    let mut low = from;
    let mut high = shapes.len();
    while high - low > 1 {
        let middle = low + (high - low) / 2;
        if shapes[middle].start <= cell {
            low = middle;
        } else {
            high = middle;
        }
    }
    low
}
