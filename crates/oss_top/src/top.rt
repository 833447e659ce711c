//! The top call: all that the program does.

ghost use Rattle.std.specs.Prelude.{◌≡◌, None, map, IfNone, IfSome, OnOk, OnErr};
ghost use Rattle.std.specs.String.{string_bytes};
ghost use Rattle.oss_io.specs.Spans.{TookWhole, shelf_span, sink_span};
ghost use Rattle.oss_top.specs.Calls.{AsksNoWorkers, AsksWorkers, IsDelivery};
ghost use Rattle.oss_top.specs.Reply.{IsComplete, IsOutcome, IsUnwritten};

use crate::reply::{Reply, reply_to_refused_words, unwaited_reply};
use crate::status::Status;
use crate::worked::worked_reply;
use oss_command::read_words;
use oss_io::{Gate, Shelf, Sink, SinkFault, write_whole};
use std::alloc::{AllocError, Global};
use std::sync::Wait;
use std::thread::Threads;

/// The sinks of a call: the output and the error output.
#[derive(Drop)]
pub struct Sinks<O, E> {
    pub out: O,
    pub err: E,
}

/// Reads the words behind the program's name, reads the files that they name from the shelf, does what the
/// command asks for, and writes the texts, the output first: it checks a program, runs it, traces its waves,
/// measures its span, audits its clauses, explains its fault, draws the graph of its tasks, tells all that its clauses
/// lack, replays a schedule, or runs a program that it has generated. The result is the number of a `Status`. A run by waves has its
/// workers from `rt`, and each task passes the gate before its first step, in a run by workers too.
///
/// It is 0 where the command is done: a check that accepts the file, a program that ran to its end. It is 1
/// where the program ran into a fault, 2 where the words are refused, 3 where a file is too long, the text of
/// the program is refused or the schedule has a wrong line, 4 where the shelf failed, 5 where a sink failed, 6
/// for want of memory, and 7 where a move of a schedule is not enabled, or one is left behind all of them:
/// `IsOutcome` says of each what stands on the sinks, and when it comes. Where nothing failed, it is that of
/// the files' one reply, or 6: `IsComplete`. Threads may wait for each other in a run by workers, and in no other: `unwaited` is
/// this call for all other words.
pub fn nest6<R: Threads + Wait + Sync, S: Shelf, O: Sink, E: Sink, G: Gate>(
    rt: &R,
    alloc: Global,
    words: &[String],
    shelf: &mut S,
    sinks: &mut Sinks<O, E>,
    gate: &G,
) -> u8
    ensures outcome { IsOutcome (map string_bytes words.now) (shelf_span S.held S.faults S.last shelf.old shelf.new)
        (sink_span O.taken O.faults sinks.old.out sinks.new.out) (sink_span E.taken E.faults sinks.old.err sinks.new.err) result }
    ensures complete { IsComplete (map string_bytes words.now) (shelf_span S.held S.faults S.last shelf.old shelf.new)
        (sink_span O.taken O.faults sinks.old.out sinks.new.out) (sink_span E.taken E.faults sinks.old.err sinks.new.err) result }
{
    match unwaited(rt, alloc, words, shelf, sinks, gate) {
        Some(number) => number,
        None => worked(alloc, words, shelf, sinks, gate),
    }
}

/// The same call for all words but those that ask for a run by workers: then it answers `None`, and has read and written nothing. It waits for nobody, and returns.
pub fn unwaited<R: Threads + Sync, S: Shelf, O: Sink, E: Sink, G: Gate>(
    rt: &R,
    alloc: Global,
    words: &[String],
    shelf: &mut S,
    sinks: &mut Sinks<O, E>,
    gate: &G,
) -> Option<u8>
    ensures none { IfNone result (AsksWorkers (map string_bytes words.now)) }
    ensures unread { result ≡ None → shelf.new ≡ shelf.old }
    ensures unwritten { result ≡ None → sinks.new ≡ sinks.old }
    ensures some { IfSome result (λ number. AsksNoWorkers (map string_bytes words.now)) }
    ensures outcome { IfSome result (IsOutcome (map string_bytes words.now) (shelf_span S.held S.faults S.last shelf.old shelf.new)
        (sink_span O.taken O.faults sinks.old.out sinks.new.out) (sink_span E.taken E.faults sinks.old.err sinks.new.err)) }
    ensures complete { IfSome result (IsComplete (map string_bytes words.now) (shelf_span S.held S.faults S.last shelf.old shelf.new)
        (sink_span O.taken O.faults sinks.old.out sinks.new.out) (sink_span E.taken E.faults sinks.old.err sinks.new.err)) }
{
    match read_words(words) {
        Ok(command) => {
            if command.is_by_workers() {
                return None;
            }
            let reply = unwaited_reply(rt, alloc, command, shelf, gate);
            Some(delivered(reply, sinks))
        }
        Err(_) => Some(delivered(reply_to_refused_words(alloc), sinks)),
    }
}

/// The call for words that ask for a run by workers.
fn worked<S: Shelf, O: Sink, E: Sink, G: Gate>(
    alloc: Global,
    words: &[String],
    shelf: &mut S,
    sinks: &mut Sinks<O, E>,
    gate: &G,
) -> u8
    requires { AsksWorkers (map string_bytes words.now) }
    ensures { IsOutcome (map string_bytes words.now) (shelf_span S.held S.faults S.last shelf.old shelf.new)
        (sink_span O.taken O.faults sinks.old.out sinks.new.out) (sink_span E.taken E.faults sinks.old.err sinks.new.err) result }
{
    match read_words(words) {
        Ok(command) => delivered(worked_reply(alloc, command, shelf, gate), sinks),
        Err(_) => unreachable!(),
    }
}

/// Writes the texts of a reply, and gives the number of its status; that of `Unwritten` if a sink fails, and that of `OutOfMemory` if there is no reply.
fn delivered<O: Sink, E: Sink>(reply: Result<Reply, AllocError>, sinks: &mut Sinks<O, E>) -> u8
    ensures { IsDelivery reply (sink_span O.taken O.faults sinks.old.out sinks.new.out) (sink_span E.taken E.faults sinks.old.err sinks.new.err) result }
{
    match reply {
        Ok(reply) => match deliver(&reply, sinks) {
            Ok(()) => reply.status.number(),
            Err(_) => Status::Unwritten.number(),
        },
        Err(_) => Status::OutOfMemory.number(),
    }
}

/// Writes the texts of a reply, the output first, up to a sink that fails.
fn deliver<O: Sink, E: Sink>(reply: &Reply, sinks: &mut Sinks<O, E>) -> Result<(), SinkFault>
    ensures out { OnOk result (TookWhole (sink_span O.taken O.faults sinks.old.out sinks.new.out) reply.now.out) }
    ensures err { OnOk result (TookWhole (sink_span E.taken E.faults sinks.old.err sinks.new.err) reply.now.err) }
    ensures unwritten { OnErr result (IsUnwritten (sink_span O.taken O.faults sinks.old.out sinks.new.out)
        (sink_span E.taken E.faults sinks.old.err sinks.new.err) reply.now) }
{
    write_whole(&mut sinks.out, reply.out.as_slice())?;
    write_whole(&mut sinks.err, reply.err.as_slice())
}
