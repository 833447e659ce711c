//! The pieces of a set of cells.

ghost use Rattle.std.specs.Prelude.{◌≡◌, ◌≤◌, ◌<◌, ℕ, ◌+◌, ◌-◌, ◌*◌, ◌++◌, List as Items, IfOk, OnOk, MatchOption, true, false};
ghost use Rattle.oss_grammar.specs.Layout.{cells_in, cells_of};
ghost use Rattle.oss_pieces.specs.CellSets.{has};
ghost use Rattle.oss_pieces.specs.Pieces.{ArePieces, ArePiecesTo, IsAdded, IsPastWhole};
ghost use Rattle.oss_pieces.specs.Rows.{HasRun, grid, row_begin, row_end};

use crate::cell_set::CellSet;
use crate::piece::{Piece, Span};
use crate::shape::Shape;
use oss_syntax::{Item, List, Program};
use std::alloc::{AllocError, Global};

/// The pieces of a set of cells over the globals of the program, in rising order. It costs what the globals, the ranges of
/// the set and the pieces do, and a search in the set for each of these. Out of memory is the one error.
pub fn pieces(alloc: Global, program: &Program, set: &CellSet) -> Result<List<Piece>, AllocError>
    requires { cells_in program.now.items ≤ 1048576 }
    ensures { IfOk result (λ found. ArePieces (has set.now) program.now.items 0 0 found) }
{
    let mut found = Vec::new(alloc);
    let mut number = 0;
    let mut start = 0;
    for item in program.items.as_slice() {
        if let Item::Global(global) = item {
            let shape = Shape::of(global, start);
            add_pieces_of(set, shape, number, &mut found)?;
            number += 1;
            start = shape.end();
        }
    }
    Ok(List::from_vec(found))
}

/// Adds the pieces of one global. Rows that the set has whole, one behind the other, cost no more than one.
pub(crate) fn add_pieces_of(
    set: &CellSet,
    shape: Shape,
    number: usize,
    found: &mut Vec<Piece>,
) -> Result<(), AllocError>
    ensures { OnOk result ((own : Items Piece) × ArePiecesTo (grid shape) number (has set.now) (shape.start + shape.cells) own
        × (found.new.items ≡ found.old.items ++ own)) }
{
    let mut at = shape.start;
    while at < shape.end() {
        let begin = next_cell(set, at, shape.end());
        if begin == shape.end() {
            break;
        }
        let to = add_piece_at(set, shape, number, begin, found)?;
        at = past_whole_rows(set, shape, begin, to);
    }
    Ok(())
}

/// Adds the piece that begins at this cell of the set, if one does, and answers the cell after the run that
/// begins there. The cell before it in its row, if there is one, is not in the set.
fn add_piece_at(
    set: &CellSet,
    shape: Shape,
    number: usize,
    begin: u32,
    found: &mut Vec<Piece>,
) -> Result<u32, AllocError>
    requires from { shape.start ≤ begin }
    requires to { begin < shape.start + shape.cells }
    requires marked { has set.now begin ≡ true }
    requires first { (r : ℕ) → row_begin (grid shape) r < begin → begin < row_end (grid shape) r → has set.now (begin - 1) ≡ false }
    ensures { IfOk result (λ to. IsAdded (grid shape) number (has set.now) begin to found.old.items found.new.items) }
{
    let row = shape.row_of(begin);
    let (row_begin, row_end) = shape.row(row);
    let to = run_end(set, begin, row_end);
    let columns = Span {
        first: begin - row_begin,
        last: to - 1 - row_begin,
    };
    let goes_on = row > 0 && has_run(set, shape, row - 1, columns);
    if !goes_on {
        let rows = Span {
            first: row,
            last: last_row(set, shape, row, columns),
        };
        found.push(Piece {
            global: number,
            rows,
            columns,
        })?;
    }
    Ok(to)
}

/// The cell behind the rows that the set has whole and that follow the run from `begin` to `to`, if that is a whole row too;
/// else `to`.
fn past_whole_rows(set: &CellSet, shape: Shape, begin: u32, to: u32) -> u32
    requires some { begin ≤ to }
    requires within { to ≤ shape.start + shape.cells }
    ensures { IsPastWhole (grid shape) (has set.now) begin to result }
{
    if to - begin < shape.width {
        return to;
    }
    let end = run_end(set, to, shape.end());
    end - (end - to) % shape.width
}

/// The last row of those from this one on that have a run with these columns, one after the other.
fn last_row(set: &CellSet, shape: Shape, row: u32, columns: Span) -> u32
    requires { HasRun (grid shape) (has set.now) row columns.first columns.last }
    ensures from { row ≤ result }
    ensures each { (r : ℕ) → row ≤ r → r ≤ result → HasRun (grid shape) (has set.now) r columns.first columns.last }
    ensures below { HasRun (grid shape) (has set.now) (result + 1) columns.first columns.last → ⊥ }
{
    if columns.first == 0 && columns.last == shape.width - 1 {
        return last_whole_row(set, shape, row);
    }
    last_row_alike(set, shape, row, columns)
}

/// The same of rows that the set has whole, by a search for the end of the cells that it has.
fn last_whole_row(set: &CellSet, shape: Shape, row: u32) -> u32
    requires { HasRun (grid shape) (has set.now) row 0 (shape.width - 1) }
    ensures from { row ≤ result }
    ensures each { (r : ℕ) → row ≤ r → r ≤ result → HasRun (grid shape) (has set.now) r 0 (shape.width - 1) }
    ensures below { HasRun (grid shape) (has set.now) (result + 1) 0 (shape.width - 1) → ⊥ }
{
    let (_, to) = shape.row(row);
    let end = run_end(set, to, shape.end());
    row + (end - to) / shape.width
}

/// The same, row by row.
fn last_row_alike(set: &CellSet, shape: Shape, row: u32, columns: Span) -> u32
    requires { HasRun (grid shape) (has set.now) row columns.first columns.last }
    ensures from { row ≤ result }
    ensures each { (r : ℕ) → row ≤ r → r ≤ result → HasRun (grid shape) (has set.now) r columns.first columns.last }
    ensures below { HasRun (grid shape) (has set.now) (result + 1) columns.first columns.last → ⊥ }
{
    let mut last = row;
    while shape.has_next(last) && has_run(set, shape, last + 1, columns) {
        last += 1;
    }
    last
}

/// Whether a row has a run with these columns.
fn has_run(set: &CellSet, shape: Shape, row: u32, columns: Span) -> bool
    requires there { row * shape.width < shape.cells }
    requires inside { columns.first < shape.width }
    ensures yes { result ≡ true → HasRun (grid shape) (has set.now) row columns.first columns.last }
    ensures no { result ≡ false → HasRun (grid shape) (has set.now) row columns.first columns.last → ⊥ }
{
    let (begin, end) = shape.row(row);
    let from = begin + columns.first;
    if from >= end || (from > begin && set.has(from - 1)) {
        return false;
    }
    let to = run_end(set, from, end);
    to > from && to - 1 - begin == columns.last
}

/// The first cell of the set from `from` on; `to` if there is none before it.
pub(crate) fn next_cell(set: &CellSet, from: u32, to: u32) -> u32
    requires { from ≤ to }
    ensures from { from ≤ result }
    ensures to { result ≤ to }
    ensures none { (c : ℕ) → from ≤ c → c < result → has set.now c ≡ false }
    ensures found { result < to → has set.now result ≡ true }
{
    let mut at = from;
    'runs: while at < to {
        let (held, end) = set.run_from(at, to);
        if held {
            return at;
        }
        at = end;
    }
    at
}

/// The first cell from `from` on that is not in the set; `to` if there is none before it.
fn run_end(set: &CellSet, from: u32, to: u32) -> u32
    requires { from ≤ to }
    ensures from { from ≤ result }
    ensures to { result ≤ to }
    ensures all { (c : ℕ) → from ≤ c → c < result → has set.now c ≡ true }
    ensures ended { result < to → has set.now result ≡ false }
{
    let mut at = from;
    'runs: while at < to {
        let (held, end) = set.run_from(at, to);
        if !held {
            return at;
        }
        at = end;
    }
    at
}
