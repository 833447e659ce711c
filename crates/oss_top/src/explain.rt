//! The reply that explains the fault of a program.

ghost use Rattle.std.specs.Prelude.{◌≡◌, ◌≤◌, length, IfOk};
ghost use Rattle.oss_labels.specs.Lists.{label_at};
ghost use Rattle.oss_lower_laws.specs.Lowered.{IsLowered};
ghost use Rattle.oss_top.specs.Explained.{IsEndingOfProgram, IsExplainReply, IsFailureOfEnding, ending_reply};

use crate::reply::Reply;
use crate::run::{are_words, reply_to_fault};
use crate::texts;
use oss_code::Code;
use oss_explain::{Ending, Finish, explain};
use oss_explain_laws::endings_alike;
use oss_explanation::explain_text;
use oss_labels::{Labels, codes_stand_at_places, labels_by_entry};
use oss_lower::lower;
use oss_machine::Failure;
use oss_names::Known;
use oss_syntax::Program;
use std::alloc::{AllocError, Global};

/// Runs a program that breaks no rule, and explains the fault to which it comes, if it comes to one.
pub(crate) fn reply_to_explain(alloc: Global, fuel: u32, known: &Known) -> Result<Reply, AllocError>
    ensures { IfOk result (λ reply. IsExplainReply fuel known.now reply) }
{
    let code = lower(alloc, known)?;
    let labels = labels_by_entry(alloc, known, &code)?;
    let finish = ended(alloc, fuel, known, &code)?;
    reply_to_ending(
        alloc,
        known.program(),
        &labels,
        &finish.ending,
        finish.failure,
    )
}

/// How the run of a program ends, and what failed, by its code. Condition: that is what lowering makes of the program.
fn ended(alloc: Global, fuel: u32, known: &Known, code: &Code) -> Result<Finish, AllocError>
    requires lowered { IsLowered known.now.items code.now }
    requires few { length code.now.first ≤ 1048576 }
    ensures { IfOk result (λ finish. IsEndingOfProgram fuel known.now finish.ending
        × IsFailureOfEnding fuel known.now finish.ending finish.failure) }
{
    are_words(code.first().as_slice());
    codes_stand_at_places();
    endings_alike();
    explain(alloc, known.program(), code, fuel)
}

/// The reply to a run that ends so, and in which this failed.
fn reply_to_ending(
    alloc: Global,
    program: &Program,
    labels: &Labels,
    ending: &Ending,
    failure: Option<Failure>,
) -> Result<Reply, AllocError>
    ensures { IfOk result (λ reply. reply ≡ ending_reply program.now (label_at labels.now) ending.now failure) }
{
    match ending {
        Ending::Done => Ok(Reply::done(alloc, texts::no_fault(alloc)?)),
        Ending::Fault(kind, line, explained) => {
            let text = explain_text(alloc, program, labels, explained, failure)?;
            reply_to_fault(alloc, *kind, *line, text)
        }
    }
}
