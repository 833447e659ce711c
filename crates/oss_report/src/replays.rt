//! The lines that tell why a schedule was not replayed to its end.

ghost use Rattle.std.specs.Prelude.{◌≡◌, IfOk};
ghost use Rattle.oss_report.specs.Replays.{not_enabled_line as line_of_a_move, schedule_line as line_of_a_schedule, unfinished_line as line_of_what_is_left};

use oss_syntax::Bytes;
use std::alloc::{AllocError, Global};

/// `schedule refused at line N` and a newline, of a text whose line with this number is the first that is none
/// of a schedule. Want of memory is the one error.
pub fn schedule_line(alloc: Global, line: u32) -> Result<Bytes, AllocError>
    ensures { IfOk result (λ text. text ≡ line_of_a_schedule line) }
{
    let number = format!(in alloc; "{line}")?;
    let mut text = Vec::from_slice(alloc, b"schedule refused at line ")?;
    text.extend_from_slice(number.as_bytes())?;
    text.push(b'\n')?;
    Ok(Bytes::from_vec(text))
}

/// `move N is not enabled` and a newline, of the move with this number, counted from 1. Want of memory is the
/// one error.
pub fn not_enabled_line(alloc: Global, number: u64) -> Result<Bytes, AllocError>
    ensures { IfOk result (λ text. text ≡ line_of_a_move number) }
{
    let number = format!(in alloc; "{number}")?;
    let mut text = Vec::from_slice(alloc, b"move ")?;
    text.extend_from_slice(number.as_bytes())?;
    text.extend_from_slice(b" is not enabled")?;
    text.push(b'\n')?;
    Ok(Bytes::from_vec(text))
}

/// `N tasks unfinished` and a newline, of so many tasks. Want of memory is the one error.
pub fn unfinished_line(alloc: Global, count: u64) -> Result<Bytes, AllocError>
    ensures { IfOk result (λ text. text ≡ line_of_what_is_left count) }
{
    let number = format!(in alloc; "{count}")?;
    let mut text = Vec::from_slice(alloc, number.as_bytes())?;
    text.extend_from_slice(b" tasks unfinished")?;
    text.push(b'\n')?;
    Ok(Bytes::from_vec(text))
}
