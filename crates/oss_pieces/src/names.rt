//! How cells and pieces are written.

ghost use Rattle.std.specs.Prelude.{◌≡◌, ◌≤◌, ◌<◌, ◌+◌, ◌++◌, OnOk};
ghost use Rattle.oss_pieces.specs.Begins.{name_in};
ghost use Rattle.oss_pieces.specs.Names.{all_in, cell_name, cells_in_pieces, further_pieces, index_text, is_whole, joined_pieces, left_out, more_cells, piece_of_global, piece_text, pieces_text, place_text, size_in, span_text};
ghost use Rattle.oss_pieces.specs.Rows.{width_of};

use crate::globals::{Globals, Spot};
use crate::piece::{Piece, Span};
use oss_syntax::{GlobalDef, Item, Program};
use std::alloc::{AllocError, Global};

/// Adds the name of a cell to a text, as `x`, `a[3]` or `m[1][2]`. It costs what the globals before the cell do. Out of memory
/// is the one error.
pub fn add_cell_name(
    alloc: Global,
    program: &Program,
    cell: u32,
    text: &mut Vec<u8>,
) -> Result<(), AllocError>
    ensures { OnOk result (text.new.items ≡ text.old.items ++ cell_name program.now.items cell) }
{
    let mut place = u64::from(cell);
    for item in program.items.as_slice() {
        if let Item::Global(global) = item {
            let cells = global.cells.unwrap_or(1);
            if place < cells {
                return add_name_in(alloc, global, place, text);
            }
            place -= cells;
        }
    }
    Ok(())
}

/// The same where the globals stand in a table: it costs a search in the table, and not the globals. Out of memory is the
/// one error.
pub fn add_cell_name_among(
    alloc: Global,
    globals: &Globals<'_>,
    cell: u32,
    text: &mut Vec<u8>,
) -> Result<(), AllocError>
    ensures { OnOk result (text.new.items ≡ text.old.items ++ cell_name globals.now cell) }
{
    match globals.spot_of(cell) {
        Some(spot) => add_spot(alloc, spot, text),
        None => Ok(()),
    }
}

/// Adds the name of the cell at a place of a global, if the global has so many.
fn add_spot(alloc: Global, spot: Spot<'_>, text: &mut Vec<u8>) -> Result<(), AllocError>
    ensures { OnOk result (text.new.items ≡ text.old.items ++ name_in spot.entry.global.now spot.entry.place) }
{
    if spot.place < spot.global.cells.unwrap_or(1) {
        return add_name_in(alloc, spot.global, spot.place, text);
    }
    Ok(())
}

/// Adds the name of a global, and the place of one of its cells in it.
fn add_name_in(
    alloc: Global,
    global: &GlobalDef,
    place: u64,
    text: &mut Vec<u8>,
) -> Result<(), AllocError>
    ensures { OnOk result (text.new.items ≡ text.old.items ++ (global.now.name
        ++ place_text global.now.cells global.now.columns (width_of global.now) place)) }
{
    text.extend_from_slice(global.name.as_slice())?;
    if global.cells.is_none() {
        return Ok(());
    }
    if global.columns.is_none() {
        return add_index(alloc, place, text);
    }
    let width = width(global);
    add_index(alloc, place / width, text)?;
    add_index(alloc, place % width, text)
}

/// How many cells a row of a global has.
fn width(global: &GlobalDef) -> u64
    ensures same { result ≡ width_of global.now }
    ensures some { 0 < result }
{
    let cells = global.cells.unwrap_or(1);
    let columns = global.columns.unwrap_or(cells);
    columns.min(cells).max(1)
}

/// Adds an index.
fn add_index(alloc: Global, index: u64, text: &mut Vec<u8>) -> Result<(), AllocError>
    ensures { OnOk result (text.new.items ≡ text.old.items ++ index_text index) }
{
    let number = format!(in alloc; "{index}")?;
    text.push(b'[')?;
    text.extend_from_slice(number.as_bytes())?;
    text.push(b']')?;
    Ok(())
}

/// Adds the first `most` pieces to a text, with a comma between them, and how many cells the others have. It costs what
/// the globals of the program do, and the pieces. Out of memory is the one error.
pub fn add_pieces(
    alloc: Global,
    program: &Program,
    pieces: &[Piece],
    most: usize,
    text: &mut Vec<u8>,
) -> Result<(), AllocError>
    ensures { OnOk result (text.new.items ≡ text.old.items ++ pieces_text program.now.items most pieces.now) }
{
    let globals = Globals::of(alloc, program.items.as_slice())?;
    add_pieces_among(alloc, &globals, pieces, most, text)
}

/// The same where the globals stand in a table: it costs what the pieces do, and not the globals. Out of memory is the
/// one error.
pub fn add_pieces_among(
    alloc: Global,
    globals: &Globals<'_>,
    pieces: &[Piece],
    most: usize,
    text: &mut Vec<u8>,
) -> Result<(), AllocError>
    ensures { OnOk result (text.new.items ≡ text.old.items ++ pieces_text globals.now most pieces.now) }
{
    let (shown, others) = pieces.split_at(pieces.len().min(most));
    add_joined(alloc, globals, shown, text)?;
    add_left_out(alloc, cells_of_pieces(others), text)
}

/// Adds pieces, with a comma between them.
fn add_joined(
    alloc: Global,
    globals: &Globals<'_>,
    pieces: &[Piece],
    text: &mut Vec<u8>,
) -> Result<(), AllocError>
    ensures { OnOk result (text.new.items ≡ text.old.items ++ joined_pieces globals.now pieces.now) }
{
    match pieces.split_first() {
        Some((first, others)) => {
            add_piece(alloc, globals, first, text)?;
            add_further(alloc, globals, others, text)
        }
        None => Ok(()),
    }
}

/// Adds pieces, with a comma before each.
fn add_further(
    alloc: Global,
    globals: &Globals<'_>,
    pieces: &[Piece],
    text: &mut Vec<u8>,
) -> Result<(), AllocError>
    ensures { OnOk result (text.new.items ≡ text.old.items ++ further_pieces globals.now pieces.now) }
{
    for piece in pieces {
        text.extend_from_slice(b", ")?;
        add_piece(alloc, globals, piece, text)?;
    }
    Ok(())
}

/// Adds a piece.
fn add_piece(
    alloc: Global,
    globals: &Globals<'_>,
    piece: &Piece,
    text: &mut Vec<u8>,
) -> Result<(), AllocError>
    ensures { OnOk result (text.new.items ≡ text.old.items ++ piece_text globals.now piece.now) }
{
    match globals.numbered(piece.global) {
        Some(global) => add_piece_of(alloc, global, piece, text),
        None => Ok(()),
    }
}

/// Adds a piece of this global.
fn add_piece_of(
    alloc: Global,
    global: &GlobalDef,
    piece: &Piece,
    text: &mut Vec<u8>,
) -> Result<(), AllocError>
    ensures { OnOk result (text.new.items ≡ text.old.items ++ piece_of_global global.now piece.now) }
{
    text.extend_from_slice(global.name.as_slice())?;
    if has_all(global, piece) || global.cells.is_none() {
        return Ok(());
    }
    if global.columns.is_none() {
        return add_span(alloc, piece.columns, text);
    }
    add_span(alloc, piece.rows, text)?;
    if is_all(piece.columns, width(global)) {
        return Ok(());
    }
    add_span(alloc, piece.columns, text)
}

/// Whether a piece has all cells of a global, which has more than one.
fn has_all(global: &GlobalDef, piece: &Piece) -> bool
    ensures { result ≡ is_whole global.now piece.now }
{
    let cells = global.cells.unwrap_or(1);
    let width = width(global);
    let rows = u128::from(piece.rows.last) + 1;
    1 < cells
        && is_all(piece.columns, width)
        && piece.rows.first == 0
        && rows * u128::from(width) == u128::from(cells)
}

/// Whether a span is all of so many.
fn is_all(span: Span, count: u64) -> bool
    ensures { result ≡ all_in span count }
{
    span.first == 0 && u64::from(span.last) + 1 == count
}

/// Adds one index, or the first and the last of several.
fn add_span(alloc: Global, span: Span, text: &mut Vec<u8>) -> Result<(), AllocError>
    ensures { OnOk result (text.new.items ≡ text.old.items ++ span_text span) }
{
    let Span { first, last } = span;
    if first == last {
        return add_index(alloc, u64::from(first), text);
    }
    let both = format!(in alloc; "{first}:{last}")?;
    text.push(b'[')?;
    text.extend_from_slice(both.as_bytes())?;
    text.push(b']')?;
    Ok(())
}

/// How many cells these pieces have.
fn cells_of_pieces(pieces: &[Piece]) -> u128
    ensures { result ≡ cells_in_pieces pieces.now }
{
    let mut cells: u128 = 0;
    for piece in pieces {
        cells += u128::from(size_of(piece.rows)) * u128::from(size_of(piece.columns));
    }
    cells
}

/// How many there are from the first to the last.
fn size_of(span: Span) -> u64
    ensures same { result ≡ size_in span }
    ensures small { result ≤ 4294967296 }
{
    (u64::from(span.last) + 1).saturating_sub(u64::from(span.first))
}

/// Adds how many cells are left out: nothing if none is.
fn add_left_out(alloc: Global, cells: u128, text: &mut Vec<u8>) -> Result<(), AllocError>
    ensures { OnOk result (text.new.items ≡ text.old.items ++ left_out cells) }
{
    if cells == 0 {
        return Ok(());
    }
    let number = format!(in alloc; "{cells}")?;
    text.extend_from_slice(b", ")?;
    text.extend_from_slice(number.as_bytes())?;
    text.extend_from_slice(counted_cells(cells))
}

/// What so many cells are called.
fn counted_cells(cells: u128) -> &'static [u8]
    ensures { result.now ≡ more_cells cells }
{
    if cells == 1 {
        b" more cell"
    } else {
        b" more cells"
    }
}
