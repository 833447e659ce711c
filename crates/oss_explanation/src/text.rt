//! The text of an explanation.

ghost use Rattle.std.specs.Prelude.{◌≡◌, ◌++◌, IfOk, OnOk};
ghost use Rattle.oss_labels.specs.Lists.{label_at};
ghost use Rattle.oss_explanation.specs.Text.{act_text, explanation_text, why_text};

use crate::chain::add_chain;
use crate::deed::{add_at_line, add_deed};
use crate::explained::Explained;
use crate::failure::{add_failure, add_limit};
use crate::holds::{add_all_held, add_holds};
use crate::names::add_who;
use crate::reason::add_reason;
use oss_labels::Labels;
use oss_machine::Failure;
use oss_syntax::{Bytes, Program};
use std::alloc::{AllocError, Global};

/// The text of an explanation of a fault of this program, a sentence a line: what the task was about to do, with its
/// cells by name; the reason, and the rule that was broken; how the task came to be, up to main, each task with the label of
/// its pragma, if it has one; what its clauses name, each word with its cells; and what a new task would have. A set of cells is told by eight pieces at most, and
/// how many further cells it has. Where the program's own meaning fails and it is known what failed, the text tells
/// that: the number of a shift or of turns, or the place or section, and what its global has. Out of memory is the one
/// error.
pub fn explain_text(
    alloc: Global,
    program: &Program,
    labels: &Labels,
    explained: &Explained,
    failure: Option<Failure>,
) -> Result<Bytes, AllocError>
    ensures { IfOk result (λ text. text ≡ explanation_text program.now.items (label_at labels.now) explained.now failure) }
{
    let mut text = Vec::new(alloc);
    add_who(alloc, &explained.task, &mut text)?;
    add_act(alloc, program, explained, failure, &mut text)?;
    add_at_line(alloc, explained.line, &mut text)?;
    add_why(alloc, program, labels, explained, failure, &mut text)?;
    add_chain(alloc, labels, explained.chain.as_slice(), &mut text)?;
    add_holds(
        alloc,
        program,
        &explained.task,
        explained.holds.as_slice(),
        &mut text,
    )?;
    add_all_held(
        alloc,
        program,
        &explained.next,
        b" would have ",
        explained.wants.as_slice(),
        &mut text,
    )?;
    Ok(Bytes::from_vec(text))
}

/// Adds what the task was about to do, without its name and the line.
fn add_act(
    alloc: Global,
    program: &Program,
    explained: &Explained,
    failure: Option<Failure>,
    text: &mut Vec<u8>,
) -> Result<(), AllocError>
    ensures { OnOk result (text.new.items ≡ text.old.items ++ act_text program.now.items explained.now failure) }
{
    match failure {
        Some(failure) => add_failure(alloc, program, failure, text),
        None => add_deed(alloc, program, &explained.next, &explained.deed, text),
    }
}

/// Adds why it may not do it.
fn add_why(
    alloc: Global,
    program: &Program,
    labels: &Labels,
    explained: &Explained,
    failure: Option<Failure>,
    text: &mut Vec<u8>,
) -> Result<(), AllocError>
    ensures { OnOk result (text.new.items ≡ text.old.items ++ why_text program.now.items (label_at labels.now) explained.now failure) }
{
    match failure {
        Some(failure) => add_limit(alloc, program, failure, text),
        None => add_reason(
            alloc,
            program,
            labels,
            &explained.task,
            &explained.next,
            &explained.reason,
            text,
        ),
    }
}
