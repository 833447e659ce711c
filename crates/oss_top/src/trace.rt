//! The reply to a trace of a program.

ghost use Rattle.std.specs.Prelude.{◌≡◌, IfOk};
ghost use Rattle.oss_command.specs.Commands.{AreFit};
ghost use Rattle.oss_top.specs.Forms.{trace_reply};
ghost use Rattle.oss_top.specs.Traces.{IsTraceReply};

use crate::reply::Reply;
use crate::run::reply_to_fault;
use crate::waved::wave_run;
use oss_command::Options;
use oss_io::Gate;
use oss_model::Answer;
use oss_names::Known;
use oss_sched::schedule_text;
use oss_syntax::Bytes;
use std::alloc::{AllocError, Global};
use std::thread::Threads;

/// Runs a program that breaks no rule by waves, and tells what each wave did.
pub(crate) fn reply_to_trace<R: Threads + Sync, G: Gate>(
    rt: &R,
    alloc: Global,
    known: &Known,
    options: Options,
    gate: &G,
) -> Result<Reply, AllocError>
    requires { AreFit options }
    ensures { IfOk result (λ reply. IsTraceReply options.fuel known.now reply) }
{
    let run = wave_run(rt, alloc, known, options, gate)?;
    let text = schedule_text(alloc, &run.waves)?;
    reply_to_traced(alloc, text, &run.answer)
}

/// The reply to a trace with this text, of a program that has this answer.
fn reply_to_traced(alloc: Global, text: Bytes, answer: &Answer) -> Result<Reply, AllocError>
    ensures { IfOk result (λ reply. reply ≡ trace_reply text answer.now) }
{
    match answer {
        Answer::Done(_, _) => Ok(Reply::done(alloc, text)),
        Answer::Fault(kind, line, _) => reply_to_fault(alloc, *kind, *line, text),
    }
}
