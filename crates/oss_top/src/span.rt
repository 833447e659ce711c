//! The reply that tells how parallel a program can be at best.

ghost use Rattle.std.specs.Prelude.{◌≡◌, IfOk};
ghost use Rattle.oss_span.specs.Reply.{IsSpannedOf, span_text};
ghost use Rattle.oss_top.specs.Spans.{IsSpanReply};

use crate::audit::reply_to_told;
use crate::reply::Reply;
use crate::run::are_words;
use oss_lower::lower;
use oss_names::Known;
use oss_span::{SpanRun, chain_lines, span};
use oss_span_laws::spans_alike;
use oss_syntax::Bytes;
use std::alloc::{AllocError, Global};

/// Runs a program that breaks no rule, and tells its ticks, those of a longest chain, and such a chain.
pub(crate) fn reply_to_span(alloc: Global, fuel: u32, known: &Known) -> Result<Reply, AllocError>
    ensures { IfOk result (λ reply. IsSpanReply fuel known.now reply) }
{
    let run = spanned(alloc, fuel, known)?;
    let text = span_lines(alloc, &run)?;
    reply_to_told(alloc, text, &run.answer)
}

/// The ticks and a longest chain of a program, by its code.
fn spanned(alloc: Global, fuel: u32, known: &Known) -> Result<SpanRun, AllocError>
    ensures { IfOk result (λ run. IsSpannedOf known.now.items fuel run.answer run.work run.span run.chain) }
{
    let code = lower(alloc, known)?;
    are_words(code.first().as_slice());
    spans_alike();
    span(alloc, &code, fuel)
}

/// The text of what is told.
fn span_lines(alloc: Global, run: &SpanRun) -> Result<Bytes, AllocError>
    ensures { IfOk result (λ text. text ≡ span_text run.now.work run.now.span run.now.chain) }
{
    let work = run.work;
    let span = run.span;
    let numbers = format!(in alloc; "work {work}\nspan {span}\n")?;
    let chain = chain_lines(alloc, &run.chain)?;
    let mut text = Vec::from_slice(alloc, numbers.as_bytes())?;
    text.extend_from_slice(chain.as_slice())?;
    Ok(Bytes::from_vec(text))
}
