//! The reader of schedules: it takes one line after the other, and refuses the text at the first that is wrong.
ghost use Rattle.std.specs.Prelude.{◌≡◌, ◌≤◌, [], OnOk, IfErr, length};
ghost use Rattle.oss_sched.specs.Schedules.{IsReading, IsRefusal, IsScheduleText};
ghost use Rattle.oss_sched.specs.Reading.{RefusedAs, TakenAs, told_in};

use crate::cuts::first_line;
use crate::line::read_line;
use crate::moves::TextMove;
use crate::refused::ScheduleRefused;
use crate::told::Told;
use oss_syntax::List;
use std::alloc::{AllocError, Global};

/// The moves of a schedule in their order. Each line of the text is empty, a comment that begins with `#`, or
/// one move in its exact form: `step POINT N`, `let POINT L N`, `join POINT L N`, words with one blank between,
/// numbers without sign and leading zeros, within the limits of `TextMove`. The last line may lack its newline.
///
/// Condition: the text has at most 16,777,216 bytes.
///
/// `Line(n)` comes exactly where a line is none of these, and n is the number of the first such line, counted
/// from 1. `Memory` says nothing of the text.
pub fn read_schedule(alloc: Global, text: &[u8]) -> Result<List<TextMove>, ScheduleRefused>
    requires { length text.now ≤ 16777216 }
    ensures reading { IsReading text.now result }
{
    let mut moves = List::new(alloc);
    match read_lines(alloc, text, &mut moves) {
        Ok(()) => Ok(moves),
        Err(refused) => Err(refused),
    }
}

/// Reads the moves of a text into a list that is empty.
fn read_lines(alloc: Global, text: &[u8], moves: &mut List<TextMove>) -> Result<(), ScheduleRefused>
    requires short { length text.now ≤ 16777216 }
    requires empty { moves.old ≡ [] }
    ensures read { OnOk result (IsScheduleText text.now moves.new) }
    ensures refused { IfErr result (λ refused. IsRefusal text.now refused) }
{
    let mut number = 1u32;
    let mut rest = text;
    'lines: while let Some((line, after)) = first_line(rest) {
        match take_line(alloc, number, line, moves) {
            Ok(()) => {
                number += 1;
                rest = after;
            }
            Err(refused) => return Err(refused),
        }
    }
    Ok(())
}

/// Adds the move of a line with this number, if it is one.
fn take_line(
    alloc: Global,
    number: u32,
    line: &[u8],
    moves: &mut List<TextMove>,
) -> Result<(), ScheduleRefused>
    ensures taken { OnOk result (TakenAs (told_in line.now) moves.old moves.new) }
    ensures refused { IfErr result (λ refused. RefusedAs (told_in line.now) number refused) }
{
    match read_line(alloc, line)? {
        Told::Nothing => Ok(()),
        Told::Move(what) => {
            moves.push(what)?;
            Ok(())
        }
        Told::Wrong => Err(ScheduleRefused::Line(number)),
    }
}
