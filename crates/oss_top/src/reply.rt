//! What the top call replies, before it is written.

ghost use Rattle.std.specs.Prelude.{◌≡◌, None, false, IfOk};
ghost use Rattle.oss_io.specs.Spans.{shelf_span};
ghost use Rattle.oss_model.specs.Texts.{refusal_line as line_of_refusal};
ghost use Rattle.oss_command.specs.Commands.{IsFit, meant, runs_by_workers, schedule_of, usage_line};
ghost use Rattle.oss_top.specs.Forms.{accepted_line, done_reply, error_reply, fault_reply};
ghost use Rattle.oss_top.specs.Reply.{IsProgramReply, IsShelfReply};

use crate::audit::reply_to_audit;
use crate::explain::reply_to_explain;
use crate::found::{Found, found_for};
use crate::graph::reply_to_graph;
use crate::missing::reply_to_missing;
use crate::run::{reply_to_generated, reply_to_run};
use crate::span::reply_to_span;
use crate::status::Status;
use crate::texts;
use crate::trace::reply_to_trace;
use oss_command::Command;
use oss_io::{Gate, Shelf};
use oss_names::Known;
use oss_report::refusal_line;
use oss_syntax::{Bytes, Refusal, Refused, RefusedKind};
use std::alloc::{AllocError, Global};
use std::thread::Threads;

/// A status, and the texts for the output and the error output.
#[derive(Drop)]
pub(crate) struct Reply {
    pub(crate) status: Status,
    pub(crate) out: Bytes,
    pub(crate) err: Bytes,
}

impl Reply {
    /// A reply that has a line for the error output alone.
    pub(crate) fn error(alloc: Global, status: Status, line: Bytes) -> Reply
        ensures { result ≡ error_reply status line }
    {
        Reply {
            status,
            out: Bytes::new(alloc),
            err: line,
        }
    }

    /// The reply to a command that is done.
    pub(crate) fn done(alloc: Global, text: Bytes) -> Reply
        ensures { result ≡ done_reply text }
    {
        Reply {
            status: Status::Done,
            out: text,
            err: Bytes::new(alloc),
        }
    }

    /// The reply to a command that came to a fault, with this output and the line of the fault.
    pub(crate) fn fault(text: Bytes, line: Bytes) -> Reply
        ensures { result ≡ fault_reply text line }
    {
        Reply {
            status: Status::Fault,
            out: text,
            err: line,
        }
    }
}

/// The reply to words that are refused.
pub(crate) fn reply_to_refused_words(alloc: Global) -> Result<Reply, AllocError>
    ensures { IfOk result (λ reply. reply ≡ error_reply Status.WordsRefused usage_line) }
{
    let line = texts::usage(alloc)?;
    Ok(Reply::error(alloc, Status::WordsRefused, line))
}

/// Works out the reply to a command, from a shelf. Want of memory is the one error. Conditions: its options fit each other, and it runs no program by workers.
pub(crate) fn unwaited_reply<R: Threads + Sync, S: Shelf, G: Gate>(
    rt: &R,
    alloc: Global,
    command: Command<'_>,
    shelf: &mut S,
    gate: &G,
) -> Result<Reply, AllocError>
    requires fit { IsFit (meant command) }
    requires unwaited { runs_by_workers (meant command) ≡ false }
    ensures { IfOk result (IsShelfReply (meant command.entry) (shelf_span S.held S.faults S.last shelf.old shelf.new)) }
{
    let found = found_for(alloc, command, shelf)?;
    match found {
        Found::Accepted(known) => reply_to_program(rt, alloc, command, &known, gate),
        Found::Replied(reply) => Ok(reply),
    }
}

/// What such a command tells of a program that breaks no rule.
fn reply_to_program<R: Threads + Sync, G: Gate>(
    rt: &R,
    alloc: Global,
    command: Command<'_>,
    known: &Known,
    gate: &G,
) -> Result<Reply, AllocError>
    requires alone { schedule_of (meant command) ≡ None }
    requires fit { IsFit (meant command) }
    requires unwaited { runs_by_workers (meant command) ≡ false }
    ensures { IfOk result (λ reply. IsProgramReply (meant command.entry) known.now reply) }
{
    match command {
        Command::Run(_, options) => reply_to_run(rt, alloc, known, options, gate),
        Command::Check(_) => accepted(alloc),
        Command::Trace(_, options) => reply_to_trace(rt, alloc, known, options, gate),
        Command::Replay(_) => unreachable!(),
        Command::Soak(asked) => reply_to_generated(rt, alloc, known, asked.options, gate),
        Command::Audit(_, fuel) => reply_to_audit(alloc, fuel, known),
        Command::Span(_, fuel) => reply_to_span(alloc, fuel, known),
        Command::Explain(_, fuel) => reply_to_explain(alloc, fuel, known),
        Command::Graph(_, fuel) => reply_to_graph(alloc, fuel, known),
        Command::Missing(_, fuel) => reply_to_missing(alloc, fuel, known),
    }
}

/// The reply of a check that accepts its file.
fn accepted(alloc: Global) -> Result<Reply, AllocError>
    ensures { IfOk result (λ reply. reply ≡ done_reply accepted_line) }
{
    Ok(Reply::done(alloc, texts::accepted(alloc)?))
}

/// The reply to a text that is no program.
pub(crate) fn reply_to_refusal(alloc: Global, refusal: Refusal) -> Result<Reply, AllocError>
    ensures { IfOk result (λ reply. (r : Refused) × (refusal ≡ Refusal.Refused r) ×
        (reply ≡ error_reply Status.TextRefused (line_of_refusal r.kind r.line))) }
{
    match refusal {
        Refusal::Refused(refused) => {
            let line = refusal_line(alloc, &refused)?;
            Ok(Reply::error(alloc, Status::TextRefused, line))
        }
        Refusal::Memory(e) => Err(e),
    }
}

/// The reply to a text that is refused as a whole.
pub(crate) fn refused(alloc: Global, kind: RefusedKind) -> Result<Reply, AllocError>
    ensures { IfOk result (λ reply. reply ≡ error_reply Status.TextRefused (line_of_refusal kind 1)) }
{
    let whole = Refused {
        kind,
        line: 1,
        token: 0,
    };
    let line = refusal_line(alloc, &whole)?;
    Ok(Reply::error(alloc, Status::TextRefused, line))
}
