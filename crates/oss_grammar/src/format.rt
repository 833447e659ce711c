//! The string of `printf` (C11 7.21.6.1): its pieces, how many arguments they take, and what they write.
ghost use Rattle.std.specs.Prelude.{◌≡◌, ◌≤◌, ◌<◌, ◌∷◌, [], ◌++◌, None, length, IfOk, OnOk, MatchOption};
ghost use Rattle.std.specs.Fmt.{decimal};
ghost use Rattle.oss_grammar.specs.Formats.{conversions_of, with_piece, pieces_of, pieces_behind_percent, pieces_behind_long, arguments_of, written_pieces, signed_text};

use oss_syntax::List;
use std::alloc::{AllocError, Global};

/// A part of the string of `printf`: a byte that is written as it stands, or the place of an argument that is written
/// as a signed or as an unsigned number.
#[derive(Clone, Copy)]
pub enum Piece {
    Plain(u8),
    Signed,
    Unsigned,
}

/// The pieces of a string of `printf` (C11 7.21.6.1), the conversions being `%d`, `%ld`, `%lu` and `%%`; `None` exactly
/// where a `%` begins something else.
pub fn pieces(alloc: Global, format: &[u8]) -> Result<Option<List<Piece>>, AllocError>
    ensures { IfOk result (λ found. found ≡ pieces_of format.now) }
{
    let mut found = Vec::new(alloc);
    let mut left = format;
    while !left.is_empty() {
        let Some((piece, behind)) = first_piece(left) else {
            return Ok(None);
        };
        found.push(piece)?;
        left = behind;
    }
    Ok(Some(List::from_vec(found)))
}

/// The piece that a string begins with, and what stands behind it; `None` where it begins with none.
fn first_piece(format: &[u8]) -> Option<(Piece, &[u8])>
    requires { 0 < length format.now }
    ensures { MatchOption result (pieces_of format.now ≡ None) (λ x.
        (pieces_of format.now ≡ with_piece x.0 (pieces_of x.1.now)) × (length x.1.now < length format.now)) }
{
    let (byte, behind) = first_byte(format)?;
    if byte == b'%' {
        return behind_percent(behind);
    }
    Some((Piece::Plain(byte), behind))
}

/// The piece that a `%` begins with this behind it, and what stands behind the piece.
fn behind_percent(format: &[u8]) -> Option<(Piece, &[u8])>
    ensures { MatchOption result (pieces_behind_percent format.now ≡ None) (λ x.
        (pieces_behind_percent format.now ≡ with_piece x.0 (pieces_of x.1.now)) ×
        (length x.1.now < length format.now)) }
{
    let (byte, behind) = first_byte(format)?;
    match byte {
        b'%' => Some((Piece::Plain(b'%'), behind)),
        b'd' => Some((Piece::Signed, behind)),
        b'l' => behind_long(behind),
        _ => None,
    }
}

/// The piece that a `%l` begins with this behind it, and what stands behind the piece.
fn behind_long(format: &[u8]) -> Option<(Piece, &[u8])>
    ensures { MatchOption result (pieces_behind_long format.now ≡ None) (λ x.
        (pieces_behind_long format.now ≡ with_piece x.0 (pieces_of x.1.now)) × (length x.1.now < length format.now)) }
{
    let (byte, behind) = first_byte(format)?;
    match byte {
        b'd' => Some((Piece::Signed, behind)),
        b'u' => Some((Piece::Unsigned, behind)),
        _ => None,
    }
}

/// The first byte of a text, and those behind it.
fn first_byte(text: &[u8]) -> Option<(u8, &[u8])>
    ensures { MatchOption result (text.now ≡ []) (λ x. text.now ≡ x.0 ∷ x.1.now) }
{
    let (byte, behind) = text.split_first()?;
    Some((*byte, behind))
}

/// How many arguments the pieces take.
pub fn arguments(pieces: &[Piece]) -> usize
    ensures { result ≡ arguments_of pieces.now }
{
    let mut count = 0usize;
    for piece in pieces {
        match piece {
            Piece::Plain(_) => {}
            Piece::Signed => count += 1,
            Piece::Unsigned => count += 1,
        }
    }
    count
}

/// How many arguments a string of `printf` takes; `None` exactly where a `%` begins no conversion of the language.
pub fn conversions(format: &[u8]) -> Option<usize>
    ensures { result ≡ conversions_of format.now }
{
    let mut count = 0usize;
    let mut left = format;
    while !left.is_empty() {
        let (piece, behind) = first_piece(left)?;
        count += arguments_taken(piece);
        left = behind;
    }
    Some(count)
}

/// How many arguments one piece takes, so that they are counted without a list of the pieces.
fn arguments_taken(piece: Piece) -> usize
    ensures value { result ≡ arguments_of (piece ∷ []) }
    ensures few { result ≤ 1 }
{
    match piece {
        Piece::Plain(_) => 0,
        Piece::Signed => 1,
        Piece::Unsigned => 1,
    }
}

/// Writes the pieces with these arguments behind `output`. After want of memory `output` has a part of it.
pub fn write_pieces(
    alloc: Global,
    pieces: &[Piece],
    values: &[u64],
    output: &mut Vec<u8>,
) -> Result<(), AllocError>
    ensures { OnOk result (output.new.items ≡ output.old.items ++ written_pieces pieces.now values.now) }
{
    let mut left = values;
    for piece in pieces {
        match piece {
            Piece::Plain(byte) => output.push(*byte)?,
            Piece::Signed => {
                if let Some((value, behind)) = left.split_first() {
                    write_signed(alloc, *value, output)?;
                    left = behind;
                }
            }
            Piece::Unsigned => {
                if let Some((value, behind)) = left.split_first() {
                    write_unsigned(alloc, *value, output)?;
                    left = behind;
                }
            }
        }
    }
    Ok(())
}

/// Writes a number of 64 bits, read as signed, in decimal behind `output`.
fn write_signed(alloc: Global, value: u64, output: &mut Vec<u8>) -> Result<(), AllocError>
    ensures { OnOk result (output.new.items ≡ output.old.items ++ signed_text value) }
{
    if value < 0x8000_0000_0000_0000 {
        return write_unsigned(alloc, value, output);
    }
    output.push(b'-')?;
    write_unsigned(alloc, value.wrapping_neg(), output)
}

/// Writes a number in decimal behind `output`.
fn write_unsigned(alloc: Global, value: u64, output: &mut Vec<u8>) -> Result<(), AllocError>
    ensures { OnOk result (output.new.items ≡ output.old.items ++ decimal value) }
{
    let text = format!(in alloc; "{value}")?;
    output.extend_from_slice(text.as_bytes())
}
