//! What a command asks to be read, and what of it is refused: everything before a program runs.

ghost use Rattle.std.specs.Prelude.{◌≡◌, ◌≤◌, ◌<◌, None, Some, length, IfOk};
ghost use Rattle.oss_io.specs.Spans.{shelf_span};
ghost use Rattle.oss_command.specs.Commands.{file_of, meant, schedule_of};
ghost use Rattle.oss_command.specs.Commands.Command.{soak};
ghost use Rattle.oss_gen.specs.Generated.{generated_text};
ghost use Rattle.oss_top.specs.Founds.{IsFound, too_large_reply};
ghost use Rattle.oss_top.specs.Reads.{IsReadReply};
ghost use Rattle.oss_top.specs.Reply.{IsFileReply, IsShelfReply, IsTextReply};

use crate::known::known;
use crate::replay::reply_to_replay;
use crate::reply::{Reply, refused, reply_to_refusal};
use crate::status::Status;
use crate::texts;
use oss_command::{Command, Soak};
use oss_gen::generated;
use oss_io::{Shelf, ShelfFault};
use oss_names::Known;
use oss_syntax::RefusedKind;
use std::alloc::{AllocError, Global};

/// The most bytes of a program text.
const MOST_BYTES: usize = 1_048_576;

/// What was found of a command's files.
#[derive(Drop)]
pub(crate) enum Found {
    /// The program of the command breaks no rule, and is left to be checked off, run or told of.
    Accepted(Known),
    /// The reply: a file could not be read, a text is refused, or a schedule was replayed.
    Replied(Reply),
}

/// Reads the files of a command from a shelf, and refuses what is none. Want of memory is the one error.
pub(crate) fn found_for<S: Shelf>(
    alloc: Global,
    command: Command<'_>,
    shelf: &mut S,
) -> Result<Found, AllocError>
    ensures { IfOk result (IsFound (meant command.entry) (IsShelfReply (meant command.entry)
        (shelf_span S.held S.faults S.last shelf.old shelf.new))) }
{
    match command.file() {
        Some(file) => found_in_file(alloc, command, file, shelf),
        None => found_by_text(alloc, command, &[], shelf),
    }
}

/// The same of a command whose program stands in this file.
fn found_in_file<S: Shelf>(
    alloc: Global,
    command: Command<'_>,
    file: &str,
    shelf: &mut S,
) -> Result<Found, AllocError>
    requires named { file_of (meant command) ≡ Some file.now }
    ensures { IfOk result (IsFound (meant command.entry) (IsShelfReply (meant command.entry)
        (shelf_span S.held S.faults S.last shelf.old shelf.new))) }
{
    let mut text = Vec::new(alloc);
    match shelf.read(file, MOST_BYTES, &mut text) {
        Ok(()) => found_by_text(alloc, command, text.as_slice(), shelf),
        Err(ShelfFault::Failed) => {
            let line = texts::unread(alloc, file)?;
            Ok(Found::Replied(Reply::error(alloc, Status::Unread, line)))
        }
        Err(ShelfFault::TooLong) => too_large(alloc),
        Err(ShelfFault::Memory(e)) => Err(e),
    }
}

/// The same of a command whose program has this text, if it stands in a file.
fn found_by_text<S: Shelf>(
    alloc: Global,
    command: Command<'_>,
    text: &[u8],
    shelf: &mut S,
) -> Result<Found, AllocError>
    requires few { length text.now ≤ 1048576 }
    ensures { IfOk result (IsFound (meant command.entry) (IsReadReply (meant command.entry) text.now
        (shelf_span S.held S.faults S.last shelf.old shelf.new))) }
{
    match command {
        Command::Replay(asked) => {
            let reply = reply_to_replay(alloc, asked, text, shelf)?;
            Ok(Found::Replied(reply))
        }
        Command::Soak(asked) => found_by_soak(alloc, asked),
        Command::Run(_, _) => found_in_text(alloc, command, text),
        Command::Check(_) => found_in_text(alloc, command, text),
        Command::Trace(_, _) => found_in_text(alloc, command, text),
        Command::Audit(_, _) => found_in_text(alloc, command, text),
        Command::Explain(_, _) => found_in_text(alloc, command, text),
        Command::Graph(_, _) => found_in_text(alloc, command, text),
        Command::Missing(_, _) => found_in_text(alloc, command, text),
        Command::Span(_, _) => found_in_text(alloc, command, text),
    }
}

/// The same of a soak, whose program is generated.
fn found_by_soak(alloc: Global, asked: Soak) -> Result<Found, AllocError>
    ensures { IfOk result (IsFound (soak asked.number asked.size asked.options)
        (IsFileReply (soak asked.number asked.size asked.options) (generated_text asked.number asked.size))) }
{
    let text = generated(alloc, asked.number, asked.size)?;
    if text.as_slice().len() > MOST_BYTES {
        return too_large(alloc);
    }
    found_in_text(alloc, Command::Soak(asked), text.as_slice())
}

/// The same of a command with this one text. Condition: the command has no schedule.
fn found_in_text(alloc: Global, command: Command<'_>, text: &[u8]) -> Result<Found, AllocError>
    requires alone { schedule_of (meant command) ≡ None }
    requires few { length text.now ≤ 1048576 }
    ensures { IfOk result (IsFound (meant command.entry) (IsTextReply (meant command.entry) text.now)) }
{
    match known(alloc, text) {
        Ok(known) => Ok(Found::Accepted(known)),
        Err(refusal) => {
            let reply = reply_to_refusal(alloc, refusal)?;
            Ok(Found::Replied(reply))
        }
    }
}

/// A text is too long.
fn too_large(alloc: Global) -> Result<Found, AllocError>
    ensures { IfOk result (λ found. found ≡ Found.Replied too_large_reply) }
{
    let reply = refused(alloc, RefusedKind::TooLarge)?;
    Ok(Found::Replied(reply))
}
