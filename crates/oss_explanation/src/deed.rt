//! What the task was about to do, in a sentence.

ghost use Rattle.std.specs.Prelude.{◌≡◌, ◌++◌, [], OnOk};
ghost use Rattle.oss_pieces.specs.Names.{cell_name};
ghost use Rattle.oss_explanation.specs.Sentences.{are_several as are_many, at_line, cells_text, deed_text, are_words, failing_text, is_wide as has_many, stop};
ghost use Rattle.oss_explanation.specs.Words.{op_text, task_text, who_text};
ghost use Rattle.oss_explanation.specs.declared.explained.Deed.TheVariants as deeds;

use crate::explained::{Deed, Failing};
use crate::names::{add, add_number, add_op, add_task};
use oss_model::Point;
use oss_pieces::{Piece, Span, add_cell_name, add_pieces};
use oss_syntax::{Op, Program};
use std::alloc::{AllocError, Global};

/// How the cells of a directive fail.
#[derive(Clone, Copy)]
pub(crate) enum Are {
    Mixed,
    Released,
    NotCovered,
}

/// Explanations show at most so many pieces of a set of cells.
const MOST: usize = 8;

/// Adds what the task does, without its name and the line. The task that it would create next has this point.
pub(crate) fn add_deed(
    alloc: Global,
    program: &Program,
    next: &Point,
    deed: &Deed,
    text: &mut Vec<u8>,
) -> Result<(), AllocError>
    ensures { OnOk result (text.new.items ≡ text.old.items ++ deed_text program.now.items next.now deed.now) }
{
    match deed {
        Deed::Ticks => add(text, b" makes a tick"),
        Deed::Reads(cell) => add_touch(alloc, program, b" reads ", *cell, text),
        Deed::Writes(cell) => add_touch(alloc, program, b" writes ", *cell, text),
        Deed::Folds(cell, op) => add_fold(alloc, program, *cell, *op, text),
        Deed::Begins => add(text, b" creates a task"),
        Deed::Creates => add_creation(alloc, next, text),
        Deed::Releases(cells) => add_directive(
            alloc,
            program,
            b" releases ",
            cells.as_slice(),
            text,
        ),
        Deed::WaitsOn(cells) => add_directive(
            alloc,
            program,
            b" waits on ",
            cells.as_slice(),
            text,
        ),
        Deed::Calls => add(text, b" calls a function"),
        Deed::Divides => add(text, b" divides by 0"),
        Deed::Shifts => add(text, b" shifts out of range"),
        Deed::Misses => add(text, b" names a cell or a section outside of its global"),
    }
}

/// Adds a touch of a cell.
fn add_touch(
    alloc: Global,
    program: &Program,
    touches: &[u8],
    cell: u32,
    text: &mut Vec<u8>,
) -> Result<(), AllocError>
    ensures { OnOk result (text.new.items ≡ text.old.items ++ touches.now ++ cell_name program.now.items cell) }
{
    add(text, touches)?;
    add_cell_name(alloc, program, cell, text)
}

/// Adds a fold into a cell.
fn add_fold(
    alloc: Global,
    program: &Program,
    cell: u32,
    op: Op,
    text: &mut Vec<u8>,
) -> Result<(), AllocError>
    ensures { OnOk result (text.new.items ≡ text.old.items ++ deed_text program.now.items [] (deeds.Folds cell op)) }
{
    add(text, b" folds into ")?;
    add_cell_name(alloc, program, cell, text)?;
    add(text, b" by ")?;
    add_op(op, text)?;
    add(text, b"=")
}

/// Adds the creation of a task.
fn add_creation(alloc: Global, next: &Point, text: &mut Vec<u8>) -> Result<(), AllocError>
    ensures { OnOk result (text.new.items ≡ text.old.items ++ deed_text [] next.now deeds.Creates) }
{
    add(text, b" creates ")?;
    add_task(alloc, next, text)
}

/// Adds a directive that names these cells.
fn add_directive(
    alloc: Global,
    program: &Program,
    names: &[u8],
    cells: &[Piece],
    text: &mut Vec<u8>,
) -> Result<(), AllocError>
    ensures { OnOk result (text.new.items ≡ text.old.items ++ names.now ++ cells_text program.now.items cells.now) }
{
    add(text, names)?;
    add_cells(alloc, program, cells, text)
}

/// Adds at most eight pieces, and how many cells the others have.
pub(crate) fn add_cells(
    alloc: Global,
    program: &Program,
    cells: &[Piece],
    text: &mut Vec<u8>,
) -> Result<(), AllocError>
    ensures { OnOk result (text.new.items ≡ text.old.items ++ cells_text program.now.items cells.now) }
{
    add_pieces(alloc, program, cells, MOST, text)
}

/// Adds all cells that fail, if there is more than one.
pub(crate) fn add_failing(
    alloc: Global,
    program: &Program,
    are: Are,
    cells: &Failing,
    text: &mut Vec<u8>,
) -> Result<(), AllocError>
    ensures { OnOk result (text.new.items ≡ text.old.items ++ failing_text program.now.items are cells.now.all) }
{
    let all = cells.all.as_slice();
    if are_several(all) {
        return add_all_failing(alloc, program, are, all, text);
    }
    Ok(())
}

/// Adds the cells that fail.
fn add_all_failing(
    alloc: Global,
    program: &Program,
    are: Are,
    cells: &[Piece],
    text: &mut Vec<u8>,
) -> Result<(), AllocError>
    ensures { OnOk result (text.new.items ≡ text.old.items
        ++ (are_words are ++ cells_text program.now.items cells.now ++ stop)) }
{
    add(text, words(are))?;
    add_cells(alloc, program, cells, text)?;
    add(text, b".\n")
}

/// The words before cells that fail so.
fn words(are: Are) -> &'static [u8]
    ensures { result.now ≡ are_words are }
{
    match are {
        Are::Mixed => b"Mixed are ",
        Are::Released => b"Released are ",
        Are::NotCovered => b"Not covered are ",
    }
}

/// Whether pieces have more than one cell.
fn are_several(cells: &[Piece]) -> bool
    ensures { result ≡ are_many cells.now }
{
    match cells.split_first() {
        None => false,
        Some((first, more)) => { !more.is_empty() || is_wide(first.rows) || is_wide(first.columns) }
    }
}

/// Whether a span has more than one row or column.
fn is_wide(span: Span) -> bool
    ensures { result ≡ has_many span }
{
    span.first != span.last
}

/// Adds the line on which something stands, and the end of its sentence.
pub(crate) fn add_at_line(alloc: Global, line: u32, text: &mut Vec<u8>) -> Result<(), AllocError>
    ensures { OnOk result (text.new.items ≡ text.old.items ++ at_line line) }
{
    add(text, b" at line ")?;
    add_number(alloc, line, text)?;
    add(text, b".\n")
}
