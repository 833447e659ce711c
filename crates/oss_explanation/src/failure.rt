//! What failed in the program's own meaning, in a sentence, and what there is in its place.

ghost use Rattle.std.specs.Prelude.{◌≡◌, ◌<◌, ◌++◌, [], OnOk, codes};
ghost use Rattle.std.specs.Fmt.{signed_decimal};
ghost use Rattle.oss_grammar.specs.Layout.{cells_of};
ghost use Rattle.oss_pieces.specs.Names.{index_text};
ghost use Rattle.oss_pieces.specs.Rows.{width_of};
ghost use Rattle.oss_explanation.specs.Failures.{bounds_of, bounds_text, counted_text, elements_text, failure_text, grid_text, has_rows, limit_text, miss_text, named_outside, nowhere_text, place_before, place_in_rows, place_named, places_text, rows_of, rows_text, several_from, several_to, signed_index, stretch_text, turns_named};
ghost use Rattle.oss_explanation.specs.Sentences.{stop};

use crate::names::add;
use oss_machine::{Failure, Miss, Stretch};
use oss_syntax::{GlobalDef, Item, Program};
use std::alloc::{AllocError, Global};

/// Adds what the task does, without its name and the line.
pub(crate) fn add_failure(
    alloc: Global,
    program: &Program,
    failure: Failure,
    text: &mut Vec<u8>,
) -> Result<(), AllocError>
    ensures { OnOk result (text.new.items ≡ text.old.items ++ failure_text program.now.items failure) }
{
    match failure {
        Failure::Shift(number) => {
            add(text, b" shifts by ")?;
            add_signed(alloc, number, text)
        }
        Failure::Turns(number) => add_turns(alloc, number, text),
        Failure::Nowhere => add_nowhere(has_rows(program), b" uses an unset pointer", text),
        Failure::NoSection => add_nowhere(
            has_rows(program),
            b" names a section by an unset pointer",
            text,
        ),
        Failure::Outside(global, miss) => add_outside(alloc, program, global, miss, text),
    }
}

/// Adds that a multidependency of so many turns is named.
fn add_turns(alloc: Global, number: i64, text: &mut Vec<u8>) -> Result<(), AllocError>
    ensures { OnOk result (text.new.items ≡ text.old.items ++ failure_text [] (Failure.Turns number)) }
{
    add_turns_named(text)?;
    add_signed(alloc, number, text)?;
    add(text, b" turns")
}

/// Adds that a multidependency is named, before the number of its turns.
#[tactic(auto, unfolding(crate::specs::Failures::turns_named))]
fn add_turns_named(text: &mut Vec<u8>) -> Result<(), AllocError>
    ensures { OnOk result (text.new.items ≡ text.old.items ++ turns_named) }
{
    add(text, b" names a multidependency of ")
}

/// Adds the rule that is broken, and what there is.
pub(crate) fn add_limit(
    alloc: Global,
    program: &Program,
    failure: Failure,
    text: &mut Vec<u8>,
) -> Result<(), AllocError>
    ensures { OnOk result (text.new.items ≡ text.old.items ++ limit_text program.now.items failure) }
{
    match failure {
        Failure::Shift(_) => add(text, b"A shift is by 0 to 63.\n"),
        Failure::Turns(_) => add(text, b"A multidependency has 0 to 1048576 turns.\n"),
        Failure::Nowhere => Ok(()),
        Failure::NoSection => Ok(()),
        Failure::Outside(global, miss) => add_bounds_of(alloc, program, global, miss, text),
    }
}

/// Whether a global has two dimensions.
fn has_rows(program: &Program) -> bool
    ensures { result ≡ has_rows program.now.items }
{
    for item in program.items.as_slice() {
        if let Item::Global(global) = item {
            match global.columns {
                Some(_) => return true,
                None => {}
            }
        }
    }
    false
}

/// Adds what is done with a pointer that points nowhere: that it was never set is told where no global has two
/// dimensions.
fn add_nowhere(rows: bool, unset: &[u8], text: &mut Vec<u8>) -> Result<(), AllocError>
    ensures { OnOk result (text.new.items ≡ text.old.items ++ nowhere_text rows unset.now) }
{
    if rows {
        return add(text, b" names a cell or a section outside of its global");
    }
    add(text, unset)
}

/// Adds what was named of the global with this number.
fn add_outside(
    alloc: Global,
    program: &Program,
    number: u32,
    miss: Miss,
    text: &mut Vec<u8>,
) -> Result<(), AllocError>
    ensures { OnOk result (text.new.items ≡ text.old.items ++ named_outside program.now.items number miss) }
{
    let mut left = number;
    for item in program.items.as_slice() {
        if let Item::Global(global) = item {
            if left == 0 {
                return add_miss(alloc, global, miss, text);
            }
            left -= 1;
        }
    }
    Ok(())
}

/// Adds what the section has, if it is one, and what the global with this number has.
fn add_bounds_of(
    alloc: Global,
    program: &Program,
    number: u32,
    miss: Miss,
    text: &mut Vec<u8>,
) -> Result<(), AllocError>
    ensures { OnOk result (text.new.items ≡ text.old.items ++ bounds_of program.now.items number miss) }
{
    let mut left = number;
    for item in program.items.as_slice() {
        if let Item::Global(global) = item {
            if left == 0 {
                return add_bounds(alloc, global, miss, text);
            }
            left -= 1;
        }
    }
    Ok(())
}

/// Adds what was named of a global.
fn add_miss(
    alloc: Global,
    global: &GlobalDef,
    miss: Miss,
    text: &mut Vec<u8>,
) -> Result<(), AllocError>
    ensures { OnOk result (text.new.items ≡ text.old.items ++ miss_text global.now miss) }
{
    match miss {
        Miss::Place(index) => {
            add_use_of(global, text)?;
            add_place(alloc, global, index, text)
        }
        Miss::Row(row) => {
            add_use_of(global, text)?;
            add_signed_index(alloc, row, text)
        }
        Miss::Element(row, column) => {
            add_use_of(global, text)?;
            add_signed_index(alloc, row, text)?;
            add_signed_index(alloc, column, text)
        }
        _ => {
            add(text, b" names a section of ")?;
            add(text, global.name.as_slice())
        }
    }
}

/// Adds that a place of a global is used, without the place.
fn add_use_of(global: &GlobalDef, text: &mut Vec<u8>) -> Result<(), AllocError>
    ensures { OnOk result (text.new.items ≡ text.old.items ++ codes " uses the place " ++ global.now.name) }
{
    add(text, b" uses the place ")?;
    add(text, global.name.as_slice())
}

/// Adds a place of a global, counted from its first cell.
fn add_place(
    alloc: Global,
    global: &GlobalDef,
    index: i64,
    text: &mut Vec<u8>,
) -> Result<(), AllocError>
    ensures { OnOk result (text.new.items ≡ text.old.items ++ place_named global.now global.now.columns index) }
{
    match global.columns {
        None => add_signed_index(alloc, index, text),
        Some(_) => add_place_in_rows(alloc, width(global), index, text),
    }
}

/// Adds the row and the column of a place.
fn add_place_in_rows(
    alloc: Global,
    width: u64,
    index: i64,
    text: &mut Vec<u8>,
) -> Result<(), AllocError>
    requires { 0 < width }
    ensures { OnOk result (text.new.items ≡ text.old.items ++ place_in_rows width index) }
{
    let cells = index.unsigned_abs();
    if index < 0 {
        return add_place_before(alloc, width, cells, text);
    }
    add_index(alloc, cells / width, text)?;
    add_index(alloc, cells % width, text)
}

/// Adds the row and the column of a place so many cells before the array.
fn add_place_before(
    alloc: Global,
    width: u64,
    cells: u64,
    text: &mut Vec<u8>,
) -> Result<(), AllocError>
    requires some { 0 < width }
    requires before { 0 < cells }
    ensures { OnOk result (text.new.items ≡ text.old.items ++ place_before width cells) }
{
    let last = cells - 1;
    let row = u128::from(last / width) + 1;
    let digits = format!(in alloc; "{row}")?;
    add(text, b"[-")?;
    add(text, digits.as_bytes())?;
    add(text, b"]")?;
    add_index(alloc, width - 1 - last % width, text)
}

/// How many cells a row of a global has.
fn width(global: &GlobalDef) -> u64
    ensures same { result ≡ width_of global.now }
    ensures some { 0 < result }
{
    let cells = global.cells.unwrap_or(1);
    let columns = global.columns.unwrap_or(cells);
    columns.min(cells).max(1)
}

/// How many rows a global has.
fn rows(global: &GlobalDef) -> u64
    ensures { result ≡ rows_of global.now }
{
    global.cells.unwrap_or(1) / width(global)
}

/// Adds what the section has, if it is one, and what the global has.
fn add_bounds(
    alloc: Global,
    global: &GlobalDef,
    miss: Miss,
    text: &mut Vec<u8>,
) -> Result<(), AllocError>
    ensures { OnOk result (text.new.items ≡ text.old.items ++ bounds_text global.now miss) }
{
    match miss {
        Miss::Place(_) => add_places(alloc, global, text),
        Miss::Row(_) => add_rows(alloc, global, text),
        Miss::Element(_, _) => add_grid(alloc, global, text),
        Miss::Elements(stretch) => {
            add_stretch(alloc, b"element", stretch, text)?;
            add_elements(alloc, global, text)
        }
        Miss::Rows(stretch) => {
            add_stretch(alloc, b"row", stretch, text)?;
            add_rows(alloc, global, text)
        }
        Miss::Grid(down, across) => {
            add_stretch(alloc, b"row", down, text)?;
            add_stretch(alloc, b"column", across, text)?;
            add_grid(alloc, global, text)
        }
    }
}

/// Adds what a global has where a place is counted from its first cell.
fn add_places(alloc: Global, global: &GlobalDef, text: &mut Vec<u8>) -> Result<(), AllocError>
    ensures { OnOk result (text.new.items ≡ text.old.items ++ places_text global.now global.now.columns) }
{
    match global.columns {
        None => add_elements(alloc, global, text),
        Some(_) => add_grid(alloc, global, text),
    }
}

/// Adds the elements of a global.
fn add_elements(alloc: Global, global: &GlobalDef, text: &mut Vec<u8>) -> Result<(), AllocError>
    ensures { OnOk result (text.new.items ≡ text.old.items ++ elements_text global.now) }
{
    add(text, global.name.as_slice())?;
    add(text, b" has ")?;
    add_counted(alloc, b"element", global.cells.unwrap_or(1), text)?;
    add(text, b".\n")
}

/// Adds the rows of a global.
fn add_rows(alloc: Global, global: &GlobalDef, text: &mut Vec<u8>) -> Result<(), AllocError>
    ensures { OnOk result (text.new.items ≡ text.old.items ++ rows_text global.now) }
{
    add(text, global.name.as_slice())?;
    add(text, b" has ")?;
    add_counted(alloc, b"row", rows(global), text)?;
    add(text, b".\n")
}

/// Adds the rows and the columns of a global.
fn add_grid(alloc: Global, global: &GlobalDef, text: &mut Vec<u8>) -> Result<(), AllocError>
    ensures { OnOk result (text.new.items ≡ text.old.items ++ grid_text global.now) }
{
    add(text, global.name.as_slice())?;
    add(text, b" has ")?;
    add_counted(alloc, b"row", rows(global), text)?;
    add(text, b" and ")?;
    add_counted(alloc, b"column", width(global), text)?;
    add(text, b".\n")
}

/// Adds so many elements, rows or columns, counted from 0.
fn add_counted(alloc: Global, one: &[u8], count: u64, text: &mut Vec<u8>) -> Result<(), AllocError>
    ensures { OnOk result (text.new.items ≡ text.old.items ++ counted_text one.now count) }
{
    add(text, b"the ")?;
    add(text, one)?;
    if count == 1 {
        return add(text, b" 0");
    }
    add(text, b"s 0 to ")?;
    let last = count.saturating_sub(1);
    let digits = format!(in alloc; "{last}")?;
    add(text, digits.as_bytes())
}

/// Adds what a section has of one dimension.
fn add_stretch(
    alloc: Global,
    one: &[u8],
    stretch: Stretch,
    text: &mut Vec<u8>,
) -> Result<(), AllocError>
    ensures { OnOk result (text.new.items ≡ text.old.items ++ stretch_text one.now stretch) }
{
    match stretch {
        Stretch::Few(count) => add_few(alloc, one, count, text),
        Stretch::One(index) => add_one(alloc, one, index, text),
        Stretch::Several(first, last) => add_several(alloc, one, first, last, text),
    }
}

/// Adds that a section has so many elements, 0 or fewer.
fn add_few(alloc: Global, one: &[u8], count: i128, text: &mut Vec<u8>) -> Result<(), AllocError>
    ensures { OnOk result (text.new.items ≡ text.old.items ++ stretch_text one.now (Stretch.Few count)) }
{
    add(text, b"It has ")?;
    add_long(alloc, count, text)?;
    add(text, b" ")?;
    add(text, one)?;
    add(text, b"s.\n")
}

/// Adds that a section has one element.
fn add_one(alloc: Global, one: &[u8], index: i64, text: &mut Vec<u8>) -> Result<(), AllocError>
    ensures { OnOk result (text.new.items ≡ text.old.items ++ stretch_text one.now (Stretch.One index)) }
{
    add(text, b"It has the ")?;
    add(text, one)?;
    add(text, b" ")?;
    add_signed(alloc, index, text)?;
    add(text, b".\n")
}

/// Adds that a section has the elements from one to another.
fn add_several(
    alloc: Global,
    one: &[u8],
    first: i64,
    last: i128,
    text: &mut Vec<u8>,
) -> Result<(), AllocError>
    ensures { OnOk result (text.new.items ≡ text.old.items ++ stretch_text one.now (Stretch.Several first last)) }
{
    add_several_from(alloc, one, first, text)?;
    add_several_to(alloc, last, text)
}

/// Adds the first of several elements that a section has.
#[tactic(auto, unfolding(crate::specs::Failures::several_from))]
fn add_several_from(
    alloc: Global,
    one: &[u8],
    first: i64,
    text: &mut Vec<u8>,
) -> Result<(), AllocError>
    ensures { OnOk result (text.new.items ≡ text.old.items ++ several_from one.now first) }
{
    add(text, b"It has the ")?;
    add(text, one)?;
    add(text, b"s ")?;
    add_signed(alloc, first, text)
}

/// Adds the last of several elements that a section has.
#[tactic(auto, unfolding(crate::specs::Failures::several_to))]
fn add_several_to(alloc: Global, last: i128, text: &mut Vec<u8>) -> Result<(), AllocError>
    ensures { OnOk result (text.new.items ≡ text.old.items ++ several_to last) }
{
    add(text, b" to ")?;
    add_long(alloc, last, text)?;
    add(text, b".\n")
}

/// Adds an index, which may be negative.
fn add_signed_index(alloc: Global, index: i64, text: &mut Vec<u8>) -> Result<(), AllocError>
    ensures { OnOk result (text.new.items ≡ text.old.items ++ signed_index index) }
{
    add(text, b"[")?;
    add_signed(alloc, index, text)?;
    add(text, b"]")
}

/// Adds an index.
fn add_index(alloc: Global, index: u64, text: &mut Vec<u8>) -> Result<(), AllocError>
    ensures { OnOk result (text.new.items ≡ text.old.items ++ index_text index) }
{
    let digits = format!(in alloc; "{index}")?;
    add(text, b"[")?;
    add(text, digits.as_bytes())?;
    add(text, b"]")
}

/// Adds a number.
fn add_signed(alloc: Global, number: i64, text: &mut Vec<u8>) -> Result<(), AllocError>
    ensures { OnOk result (text.new.items ≡ text.old.items ++ signed_decimal number) }
{
    let digits = format!(in alloc; "{number}")?;
    add(text, digits.as_bytes())
}

/// Adds a number that may have more than 64 bits.
fn add_long(alloc: Global, number: i128, text: &mut Vec<u8>) -> Result<(), AllocError>
    ensures { OnOk result (text.new.items ≡ text.old.items ++ signed_decimal number) }
{
    let digits = format!(in alloc; "{number}")?;
    add(text, digits.as_bytes())
}
