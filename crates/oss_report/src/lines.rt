//! The lines that tell of a fault and of a refusal.

ghost use Rattle.std.specs.Prelude.{◌≡◌, IfOk};
ghost use Rattle.oss_model.specs.Texts.{fault_line as line_of_fault, placed_line, refusal_line as line_of_refusal};

use crate::words::{word_of_fault, word_of_refusal};
use oss_syntax::{Bytes, FaultKind, Refused};
use std::alloc::{AllocError, Global};

/// `fault: KIND at line N` and a newline, of a fault on this line. Want of memory is the one error.
pub fn fault_line(alloc: Global, kind: FaultKind, line: u32) -> Result<Bytes, AllocError>
    ensures { IfOk result (λ text. text ≡ line_of_fault kind line) }
{
    placed(alloc, b"fault: ", word_of_fault(kind), line)
}

/// `refused: KIND at line N` and a newline, of a refused text. Want of memory is the one error.
pub fn refusal_line(alloc: Global, refused: &Refused) -> Result<Bytes, AllocError>
    ensures { IfOk result (λ text. text ≡ line_of_refusal refused.now.kind refused.now.line) }
{
    placed(
        alloc,
        b"refused: ",
        word_of_refusal(refused.kind),
        refused.line,
    )
}

/// `WHAT: KIND at line N` and a newline.
fn placed(alloc: Global, what: &[u8], word: &[u8], line: u32) -> Result<Bytes, AllocError>
    ensures { IfOk result (λ text. text ≡ placed_line what.now word.now line) }
{
    let number = format!(in alloc; "{line}")?;
    let mut text = Vec::from_slice(alloc, what)?;
    text.extend_from_slice(word)?;
    text.extend_from_slice(b" at line ")?;
    text.extend_from_slice(number.as_bytes())?;
    text.push(b'\n')?;
    Ok(Bytes::from_vec(text))
}
