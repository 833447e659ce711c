//! The cells at the start, and where the globals lie.
ghost use Rattle.std.specs.Prelude.{◌≡◌, ◌++◌, ◌+◌, IfOk, IsOk, OnOk, replicate};
ghost use Rattle.oss_grammar.specs.Layout.{cells_of};
ghost use Rattle.oss_meaning.specs.Pointers.{extents_of};
ghost use Rattle.oss_meaning.specs.Results.{first_cells};
ghost use Rattle.oss_code.specs.Globals.{extent_of, extents_in};
ghost use Rattle.oss_lower_laws.specs.Programs.{IsTold};

use oss_code::GlobalPlace;
use oss_syntax::{GlobalDef, Item, Range};
use oss_values::keep;
use std::alloc::{AllocError, Global};

/// The cells at the start: each keeps what its type can of its first value.
pub(crate) fn first_cells(alloc: Global, items: &[Item]) -> Result<Vec<u64>, AllocError>
    ensures { IfOk result (λ cells. cells.items ≡ first_cells items.now) }
{
    let mut cells = Vec::new(alloc);
    for item in items {
        match item {
            Item::Global(global) => {
                fill(
                    &mut cells,
                    count_of(global),
                    keep(global.kind, global.first),
                )?;
            }
            Item::Function(_) => {}
        }
    }
    Ok(cells)
}

/// Adds so many cells with one number.
fn fill(cells: &mut Vec<u64>, count: u64, number: u64) -> Result<(), AllocError>
    ensures { OnOk result (cells.new.items ≡ cells.old.items ++ replicate count number) }
{
    for made in 0..count {
        cells.push(number)?;
    }
    Ok(())
}

/// How many cells a global has.
fn count_of(global: &GlobalDef) -> u64
    ensures { result ≡ cells_of global.now.cells }
{
    match global.cells {
        Some(count) => count,
        None => 1,
    }
}

/// Where the globals lie, in text order. Those that have no cells, or rows of none, or more than 1,048,576 in
/// all, have no room.
pub(crate) fn places(alloc: Global, items: &[Item]) -> Result<Vec<GlobalPlace>, AllocError>
    ensures { IfOk result (λ places. extents_in places.items ≡ extents_of items.now) }
{
    let mut places = Vec::new(alloc);
    let mut start = 0u32;
    for item in items {
        match item {
            Item::Global(global) => {
                let place = place_from(start, global)?;
                start = place.range.hi;
                places.push(place)?;
            }
            Item::Function(_) => {}
        }
    }
    Ok(places)
}

/// Where a global lies whose first cell is this one. It takes no memory, and is told as want of it where the place
/// cannot be told in numbers of 32 bits, as it can of each program of a text (`accepted_places_are_told`).
fn place_from(start: u32, global: &GlobalDef) -> Result<GlobalPlace, AllocError>
    ensures extent { IfOk result (λ place. extent_of place ≡
        (record { start = start; count = cells_of global.now.cells; columns = global.now.columns })) }
    ensures end { IfOk result (λ place. place.range.hi ≡ start + cells_of global.now.cells) }
    ensures fits { IsTold start global.now → IsOk result }
{
    let count = count_of(global);
    if count == 0 || count > 1048576 || start > 1048576 - count as u32 {
        return Err(AllocError);
    }
    let range = Range {
        lo: start,
        hi: start + count as u32,
    };
    match global.columns {
        None => Ok(GlobalPlace {
            range,
            columns: None,
        }),
        Some(columns) => {
            if columns == 0 || columns > 1048576 {
                return Err(AllocError);
            }
            Ok(GlobalPlace {
                range,
                columns: Some(columns as u32),
            })
        }
    }
}
