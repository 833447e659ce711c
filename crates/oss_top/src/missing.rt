//! The reply that tells all that a program's clauses lack.

ghost use Rattle.std.specs.Prelude.{◌≡◌, ◌≤◌, length, Some, IfOk};
ghost use Rattle.oss_lower_laws.specs.Lowered.{IsLowered};
ghost use Rattle.oss_missing_text.specs.Text.{missing_text as text_told};
ghost use Rattle.oss_top.specs.Missed.{IsMissingOfProgram, IsMissingReply, missed_reply};

use crate::reply::Reply;
use crate::run::{are_words, reply_to_fault};
use oss_code::Code;
use oss_labels::codes_stand_at_places;
use oss_lower::lower;
use oss_missing::find_missing;
use oss_missing_lines::{Missing, RunFault};
use oss_missing_text::missing_text;
use oss_names::Known;
use oss_syntax::Bytes;
use std::alloc::{AllocError, Global};

/// Runs a program that breaks no rule as if no clause bound it, and tells all that its clauses lack, with the fault to which that run
/// comes, if it comes to one.
pub(crate) fn reply_to_missing(alloc: Global, fuel: u32, known: &Known) -> Result<Reply, AllocError>
    ensures { IfOk result (λ reply. IsMissingReply fuel known.now reply) }
{
    let code = lower(alloc, known)?;
    let missing = missing_of(alloc, fuel, known, &code)?;
    let text = text_of(alloc, known, &missing)?;
    reply_to_missed(alloc, missing.fault, text)
}

/// The lines of what is missing of a program.
fn text_of(alloc: Global, known: &Known, missing: &Missing) -> Result<Bytes, AllocError>
    ensures { IfOk result (λ text. text ≡ text_told known.now.items missing.now) }
{
    let text = missing_text(alloc, known.program(), missing)?;
    Ok(Bytes::from_vec(text))
}

/// What is missing of a program, by its code. Condition: that is what lowering makes of the program.
fn missing_of(alloc: Global, fuel: u32, known: &Known, code: &Code) -> Result<Missing, AllocError>
    requires lowered { IsLowered known.now.items code.now }
    requires few { length code.now.first ≤ 1048576 }
    ensures { IfOk result (λ missing. IsMissingOfProgram fuel known.now missing) }
{
    are_words(code.first().as_slice());
    codes_stand_at_places();
    find_missing(alloc, known.program(), code, fuel)
}

/// The reply with this text to a run that came to its end, or to this fault.
fn reply_to_missed(alloc: Global, fault: Option<RunFault>, text: Bytes) -> Result<Reply, AllocError>
    ensures { IfOk result (λ reply. reply ≡ missed_reply text fault) }
{
    match fault {
        Some(fault) => reply_to_fault(alloc, fault.kind, fault.line, text),
        None => Ok(Reply::done(alloc, text)),
    }
}
