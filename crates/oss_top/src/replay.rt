//! The reply to a replay of a schedule.

ghost use Rattle.std.specs.Prelude.{◌≡◌, ◌≤◌, length, IfOk};
ghost use Rattle.oss_io.specs.Spans.{shelf_span};
ghost use Rattle.oss_report.specs.Replays.{schedule_line as line_of_a_schedule};
ghost use Rattle.oss_top.specs.Forms.{error_reply};
ghost use Rattle.oss_top.specs.Reads.{IsScheduleRead, replayed_reply};
ghost use Rattle.oss_top.specs.Replays.{IsReplayReply, IsScheduleReply, IsTextsReply};

use crate::known::known;
use crate::reply::{Reply, reply_to_refusal};
use crate::run::{are_words, reply_to_answer};
use crate::status::Status;
use crate::texts;
use oss_command::Replay;
use oss_io::{Shelf, ShelfFault};
use oss_lower::lower;
use oss_names::Known;
use oss_replay::{Replayed, replay};
use oss_report::{not_enabled_line, schedule_line, unfinished_line};
use oss_sched::{ScheduleRefused, TextMove, read_schedule};
use oss_syntax::{Bytes, List, Program};
use std::alloc::{AllocError, Global};

/// The most bytes of a schedule.
const MOST_BYTES: usize = 16_777_216;

/// Reads the schedule that is to be replayed on the program with this text, and replays it.
pub(crate) fn reply_to_replay<S: Shelf>(
    alloc: Global,
    asked: Replay<'_>,
    text: &[u8],
    shelf: &mut S,
) -> Result<Reply, AllocError>
    requires { length text.now ≤ 1048576 }
    ensures { IfOk result (λ reply. IsScheduleRead asked.entry.schedule.now asked.entry.fuel text.now
        (shelf_span S.held S.faults S.last shelf.old shelf.new) reply) }
{
    let mut schedule = Vec::new(alloc);
    match shelf.read(asked.schedule, MOST_BYTES, &mut schedule) {
        Ok(()) => reply_to_texts(alloc, asked.fuel, text, schedule.as_slice()),
        Err(ShelfFault::Failed) => {
            let line = texts::unread(alloc, asked.schedule)?;
            Ok(Reply::error(alloc, Status::Unread, line))
        }
        Err(ShelfFault::TooLong) => wrong_line(alloc, 1),
        Err(ShelfFault::Memory(e)) => Err(e),
    }
}

/// The reply to a schedule with a line that is wrong.
fn wrong_line(alloc: Global, line: u32) -> Result<Reply, AllocError>
    ensures { IfOk result (λ reply. reply ≡ error_reply Status.TextRefused (line_of_a_schedule line)) }
{
    let line = schedule_line(alloc, line)?;
    Ok(Reply::error(alloc, Status::TextRefused, line))
}

/// The reply to the texts of a program and of a schedule.
fn reply_to_texts(
    alloc: Global,
    fuel: u32,
    text: &[u8],
    schedule: &[u8],
) -> Result<Reply, AllocError>
    requires program { length text.now ≤ 1048576 }
    requires schedule { length schedule.now ≤ 16777216 }
    ensures { IfOk result (λ reply. IsTextsReply fuel text.now schedule.now reply) }
{
    match known(alloc, text) {
        Ok(known) => reply_to_schedule(alloc, fuel, &known, schedule),
        Err(refusal) => reply_to_refusal(alloc, refusal),
    }
}

/// The reply to the text of a schedule on a program that breaks no rule.
fn reply_to_schedule(
    alloc: Global,
    fuel: u32,
    known: &Known,
    schedule: &[u8],
) -> Result<Reply, AllocError>
    requires { length schedule.now ≤ 16777216 }
    ensures { IfOk result (λ reply. IsScheduleReply known.now fuel schedule.now reply) }
{
    match read_schedule(alloc, schedule) {
        Ok(moves) => reply_to_moves(alloc, fuel, known, &moves),
        Err(ScheduleRefused::Line(line)) => wrong_line(alloc, line),
        Err(ScheduleRefused::Memory(e)) => Err(e),
    }
}

/// The reply to moves on a program that breaks no rule.
fn reply_to_moves(
    alloc: Global,
    fuel: u32,
    known: &Known,
    moves: &List<TextMove>,
) -> Result<Reply, AllocError>
    ensures { IfOk result (λ reply. IsReplayReply known.now fuel moves.now reply) }
{
    let replayed = replayed(alloc, fuel, known, moves)?;
    reply_to_replayed(alloc, known.program(), replayed)
}

/// What comes of moves on a program, by its code.
fn replayed(
    alloc: Global,
    fuel: u32,
    known: &Known,
    moves: &List<TextMove>,
) -> Result<Replayed, AllocError>
    ensures { IfOk result (λ replayed. IsReplayReply known.now fuel moves.now (replayed_reply known.now replayed)) }
{
    let code = lower(alloc, known)?;
    are_words(code.first().as_slice());
    replay(alloc, &code, fuel, moves)
}

/// The reply to what comes of moves.
fn reply_to_replayed(
    alloc: Global,
    program: &Program,
    replayed: Replayed,
) -> Result<Reply, AllocError>
    ensures { IfOk result (λ reply. reply ≡ replayed_reply program.now replayed) }
{
    match replayed {
        Replayed::Answered(answer) => reply_to_answer(alloc, program, false, answer),
        Replayed::NotEnabled(number) => Ok(not_replayed(alloc, not_enabled_line(alloc, number)?)),
        Replayed::Unfinished(count) => Ok(not_replayed(alloc, unfinished_line(alloc, count)?)),
    }
}

/// The reply to a replay that does not end.
fn not_replayed(alloc: Global, line: Bytes) -> Reply
    ensures { result ≡ error_reply Status.NotReplayed line }
{
    Reply::error(alloc, Status::NotReplayed, line)
}
