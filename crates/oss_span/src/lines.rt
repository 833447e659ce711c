//! The text of a chain.

ghost use Rattle.std.specs.Prelude.{◌≡◌, ◌++◌, ◌∷◌, [], IfOk, OnOk};
ghost use Rattle.std.specs.Fmt.{decimal};
ghost use Rattle.oss_model.specs.Points.{text_of};
ghost use Rattle.oss_span.specs.Lines.{chain_text, link_line};

use crate::link::Link;
use oss_model::{Point, point_text};
use oss_syntax::{Bytes, List};
use std::alloc::{AllocError, Global};

/// The text of a chain: a line for each link, the first one first. `acts POINT A N` are `N` acts of the task
/// with this point that follow each other, the first of which is its act `A`, from 0; `let POINT C` is that the
/// task gives up the cell `C`, and `join POINT C` that its private slot is joined to it. Each line ends with a
/// newline. Want of memory is the one error.
pub fn chain_lines(alloc: Global, chain: &List<Link>) -> Result<Bytes, AllocError>
    ensures { IfOk result (λ text. text ≡ chain_text chain.now) }
{
    let mut text = Vec::new(alloc);
    for link in chain.as_slice() {
        write_link(alloc, link, &mut text)?;
    }
    Ok(Bytes::from_vec(text))
}

/// Writes the line of a link.
fn write_link(alloc: Global, link: &Link, text: &mut Vec<u8>) -> Result<(), AllocError>
    ensures { OnOk result (text.new.items ≡ text.old.items ++ link_line link.now) }
{
    match link {
        Link::Acts(point, first, count) => {
            text.extend_from_slice(b"acts ")?;
            write_acts(alloc, point, *first, *count, text)
        }
        Link::Let(point, cell) => {
            text.extend_from_slice(b"let ")?;
            write_cell(alloc, point, *cell, text)
        }
        Link::Join(point, cell) => {
            text.extend_from_slice(b"join ")?;
            write_cell(alloc, point, *cell, text)
        }
    }
}

/// Writes the point and both numbers, and ends the line.
fn write_acts(
    alloc: Global,
    point: &Point,
    first: u64,
    count: u64,
    text: &mut Vec<u8>,
) -> Result<(), AllocError>
    ensures { OnOk result (text.new.items ≡ text.old.items ++ text_of point.now ++ 32 ∷ decimal first ++ 32 ∷
        decimal count ++ 10 ∷ []) }
{
    write_point(alloc, point, text)?;
    write_number(alloc, first, text)?;
    write_number(alloc, count, text)?;
    text.push(b'\n')?;
    Ok(())
}

/// Writes a number behind a blank.
fn write_number(alloc: Global, number: u64, text: &mut Vec<u8>) -> Result<(), AllocError>
    ensures { OnOk result (text.new.items ≡ text.old.items ++ 32 ∷ decimal number) }
{
    let digits = format!(in alloc; " {number}")?;
    text.extend_from_slice(digits.as_bytes())
}

/// Writes the point and the cell, and ends the line.
fn write_cell(alloc: Global, point: &Point, cell: u32, text: &mut Vec<u8>) -> Result<(), AllocError>
    ensures { OnOk result (text.new.items ≡ text.old.items ++ text_of point.now ++ 32 ∷ decimal cell ++ 10 ∷ []) }
{
    write_point(alloc, point, text)?;
    let end = format!(in alloc; " {cell}\n")?;
    text.extend_from_slice(end.as_bytes())
}

/// Writes the point of a task.
fn write_point(alloc: Global, point: &Point, text: &mut Vec<u8>) -> Result<(), AllocError>
    ensures { OnOk result (text.new.items ≡ text.old.items ++ text_of point.now) }
{
    let at = point_text(alloc, point.as_slice())?;
    text.extend_from_slice(at.as_slice())
}
