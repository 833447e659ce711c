//! What the globals hold when a run has ended.

ghost use Rattle.std.specs.Prelude.{◌≡◌, ◌++◌, IfOk, OnOk, min, length};
ghost use Rattle.oss_grammar.specs.Formats.{written_pieces};
ghost use Rattle.oss_grammar.specs.Layout.{cells_of};
ghost use Rattle.oss_report.specs.Dumps.{dump_line, dump_text, spaced_values, value_text};

use oss_grammar::{Piece, write_pieces};
use oss_syntax::{Bytes, Cells, GlobalDef, Item, NumKind, Program};
use std::alloc::{AllocError, Global};

/// A line for each global in text order, `NAME = V V V` and a newline: its values in these cells, those of an
/// `unsigned long` without a sign and the others with one. The cells are those of the program. Want of memory
/// is the one error.
pub fn dump_bytes(alloc: Global, program: &Program, cells: &Cells) -> Result<Bytes, AllocError>
    ensures { IfOk result (λ text. text ≡ dump_text program.now.items cells.now) }
{
    let mut text = Vec::new(alloc);
    let mut left = cells.as_slice();
    for item in program.items.as_slice() {
        if let Item::Global(global) = item {
            let (own, behind) = left.split_at(cells_among(global, left));
            write_line(alloc, global, own, &mut text)?;
            left = behind;
        }
    }
    Ok(Bytes::from_vec(text))
}

/// How many of these cells are those of a global that begins there.
fn cells_among(global: &GlobalDef, cells: &[u64]) -> usize
    ensures { result ≡ min (cells_of global.now.cells) (length cells.now) }
{
    let most = cells.len() as u64;
    let count = match global.cells {
        None => 1,
        Some(count) => count,
    };
    count.min(most) as usize
}

/// Writes the line of a global behind the text.
fn write_line(
    alloc: Global,
    global: &GlobalDef,
    values: &[u64],
    text: &mut Vec<u8>,
) -> Result<(), AllocError>
    ensures { OnOk result (text.new.items ≡ text.old.items ++ dump_line global.now values.now) }
{
    text.extend_from_slice(global.name.as_slice())?;
    text.extend_from_slice(b" =")?;
    write_values(alloc, global.kind, values, text)?;
    text.push(b'\n')?;
    Ok(())
}

/// Writes values of this type behind the text, with a space before each.
fn write_values(
    alloc: Global,
    kind: NumKind,
    values: &[u64],
    text: &mut Vec<u8>,
) -> Result<(), AllocError>
    ensures { OnOk result (text.new.items ≡ text.old.items ++ spaced_values kind values.now) }
{
    for value in values {
        text.push(b' ')?;
        write_value(alloc, kind, *value, text)?;
    }
    Ok(())
}

/// Writes a value of this type behind the text.
fn write_value(
    alloc: Global,
    kind: NumKind,
    value: u64,
    text: &mut Vec<u8>,
) -> Result<(), AllocError>
    ensures { OnOk result (text.new.items ≡ text.old.items ++ value_text kind value) }
{
    let pieces = [match kind {
        NumKind::Ulong => Piece::Unsigned,
        NumKind::Long => Piece::Signed,
        NumKind::Int => Piece::Signed,
    }];
    let values = [value];
    write_pieces(alloc, &pieces, &values, text)
}
