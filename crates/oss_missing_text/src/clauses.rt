//! Clauses with the cells that they name.

ghost use Rattle.std.specs.Prelude.{◌≡◌, ◌≤◌, ◌++◌, take, drop, OnOk};
ghost use Rattle.oss_pieces.specs.Names.{cells_in_pieces, joined_pieces, more_cells, size_in};
ghost use Rattle.oss_missing_text.specs.Clauses.{and_more, clause_text, use_head, word_head};

use crate::names::{MOST_PIECES, Names};
use crate::words::{add, add_op, add_strength};
use oss_explanation::{Use, Word};
use oss_pieces::{Piece, Span};
use std::alloc::{AllocError, Global};

/// Adds a clause: its first pieces, and behind it how many cells the others have.
pub(crate) fn add_clause(
    alloc: Global,
    names: &Names<'_>,
    word: Word,
    cells: &[Piece],
    text: &mut Vec<u8>,
) -> Result<(), AllocError>
    ensures { OnOk result (text.new.items ≡ text.old.items ++ clause_text names.now word cells.now) }
{
    add_head(word, text)?;
    add_shown(alloc, names, cells, text)?;
    add(text, b")")?;
    add_left(alloc, cells, text)
}

/// Adds the word of a clause, up to its cells.
fn add_head(word: Word, text: &mut Vec<u8>) -> Result<(), AllocError>
    ensures { OnOk result (text.new.items ≡ text.old.items ++ word_head word) }
{
    add_strength(word.strong, text)?;
    add_use(word.named, text)
}

/// Adds what a clause says, up to its cells.
fn add_use(named: Use, text: &mut Vec<u8>) -> Result<(), AllocError>
    ensures { OnOk result (text.new.items ≡ text.old.items ++ use_head named) }
{
    match named {
        Use::In => add(text, b"in("),
        Use::Out => add(text, b"out("),
        Use::Inout => add(text, b"inout("),
        Use::Reduction(op) => {
            add(text, b"reduction(")?;
            add_op(op, text)?;
            add(text, b": ")
        }
    }
}

/// Adds the first pieces.
fn add_shown(
    alloc: Global,
    names: &Names<'_>,
    cells: &[Piece],
    text: &mut Vec<u8>,
) -> Result<(), AllocError>
    ensures { OnOk result (text.new.items ≡ text.old.items ++ joined_pieces names.now (take 8 cells.now)) }
{
    let (shown, _) = cells.split_at(cells.len().min(MOST_PIECES));
    names.add_few(alloc, shown, text)
}

/// Adds how many cells the pieces behind the first ones have.
fn add_left(alloc: Global, cells: &[Piece], text: &mut Vec<u8>) -> Result<(), AllocError>
    ensures { OnOk result (text.new.items ≡ text.old.items ++ and_more (cells_in_pieces (drop 8 cells.now))) }
{
    let (_, others) = cells.split_at(cells.len().min(MOST_PIECES));
    add_more(alloc, cells_of_pieces(others), text)
}

/// How many cells these pieces have.
fn cells_of_pieces(pieces: &[Piece]) -> u128
    ensures { result ≡ cells_in_pieces pieces.now }
{
    let mut cells: u128 = 0;
    for piece in pieces {
        cells += u128::from(size_of(piece.rows)) * u128::from(size_of(piece.columns));
    }
    cells
}

/// How many there are from the first to the last.
fn size_of(span: Span) -> u64
    ensures same { result ≡ size_in span }
    ensures small { result ≤ 4294967296 }
{
    (u64::from(span.last) + 1).saturating_sub(u64::from(span.first))
}

/// Adds how many cells are left out: nothing if none is.
fn add_more(alloc: Global, cells: u128, text: &mut Vec<u8>) -> Result<(), AllocError>
    ensures { OnOk result (text.new.items ≡ text.old.items ++ and_more cells) }
{
    if cells == 0 {
        return Ok(());
    }
    let number = format!(in alloc; "{cells}")?;
    add(text, b" and ")?;
    add(text, number.as_bytes())?;
    add(text, counted_cells(cells))
}

/// What so many cells are called.
fn counted_cells(cells: u128) -> &'static [u8]
    ensures { result.now ≡ more_cells cells }
{
    if cells == 1 {
        b" more cell"
    } else {
        b" more cells"
    }
}
