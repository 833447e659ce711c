//! The reply to an audit of a program.

ghost use Rattle.std.specs.Prelude.{◌≡◌, IfOk};
ghost use Rattle.oss_audit.specs.Reply.{IsAuditedOf};
ghost use Rattle.oss_top.specs.Audits.{IsAuditReply};
ghost use Rattle.oss_top.specs.Forms.{told_reply};

use crate::reply::Reply;
use crate::run::{are_words, reply_to_fault};
use oss_audit::{AuditRun, audit, audit_lines};
use oss_audit_laws::audits_alike;
use oss_lower::lower;
use oss_model::Answer;
use oss_names::Known;
use oss_syntax::Bytes;
use std::alloc::{AllocError, Global};

/// Runs a program that breaks no rule, and tells which cells its tasks name and never touch.
pub(crate) fn reply_to_audit(alloc: Global, fuel: u32, known: &Known) -> Result<Reply, AllocError>
    ensures { IfOk result (λ reply. IsAuditReply fuel known.now reply) }
{
    let run = audited(alloc, fuel, known)?;
    let text = audit_lines(alloc, &run.unused)?;
    reply_to_told(alloc, text, &run.answer)
}

/// The audit of a program, by its code.
fn audited(alloc: Global, fuel: u32, known: &Known) -> Result<AuditRun, AllocError>
    ensures { IfOk result (λ run. IsAuditedOf known.now.items fuel run.answer run.unused) }
{
    let code = lower(alloc, known)?;
    are_words(code.first().as_slice());
    audits_alike();
    audit(alloc, &code, fuel)
}

/// The reply that tells this text of a program that has this answer.
pub(crate) fn reply_to_told(
    alloc: Global,
    text: Bytes,
    answer: &Answer,
) -> Result<Reply, AllocError>
    ensures { IfOk result (λ reply. reply ≡ told_reply text answer.now) }
{
    match answer {
        Answer::Done(_, _) => Ok(Reply::done(alloc, text)),
        Answer::Fault(kind, line, _) => reply_to_fault(alloc, *kind, *line, Bytes::new(alloc)),
    }
}
