//! The text of what is missing.

ghost use Rattle.std.specs.Prelude.{◌≡◌, [], IfOk, OnOk};
ghost use Rattle.oss_missing_text.specs.Text.{missing_text as text_of_missing, or_nothing as lines_or_nothing};

use crate::names::Names;
use crate::tasks::add_lines;
use crate::told::all_told;
use crate::words::add;
use oss_missing_lines::{Missing, RunFault};
use oss_syntax::Program;
use std::alloc::{AllocError, Global};

/// The text of what is missing of the clauses of this program, a line for each clause that a task lacks or that has to stand in
/// place of others, for each wait that is missing and for each use behind a release; `nothing is missing` if there is no line
/// and main has ended. Lines that read alike of tasks of one line are told once, at the first of these tasks, which counts
/// the others. A clause tells eight pieces of its cells at most, and how many further cells it has. It costs what the globals
/// and the lines of all tasks do, those that read alike too, and for each cell of a wait or of a late use a search among the
/// globals. Out of memory is the one error.
pub fn missing_text(
    alloc: Global,
    program: &Program,
    missing: &Missing,
) -> Result<Vec<u8>, AllocError>
    ensures { IfOk result (λ text. text.items ≡ text_of_missing program.now.items missing.now) }
{
    let names = Names::of(alloc, program)?;
    let mut text = Vec::new(alloc);
    add_all(alloc, &names, missing, &mut text)?;
    Ok(text)
}

/// Writes all that is missing into a text that has nothing yet.
fn add_all(
    alloc: Global,
    names: &Names<'_>,
    missing: &Missing,
    text: &mut Vec<u8>,
) -> Result<(), AllocError>
    requires { text.old.items ≡ [] }
    ensures { OnOk result (text.new.items ≡ text_of_missing names.now missing.now) }
{
    let tasks = missing.tasks.as_slice();
    let told = all_told(alloc, names, tasks)?;
    add_lines(alloc, names, tasks, told.as_slice(), text)?;
    or_nothing(missing.fault, text)
}

/// Writes that nothing is missing, if main has ended and there is no line.
fn or_nothing(fault: Option<RunFault>, text: &mut Vec<u8>) -> Result<(), AllocError>
    ensures { OnOk result (text.new.items ≡ lines_or_nothing fault text.old.items) }
{
    if fault.is_none() && text.is_empty() {
        return add(text, b"nothing is missing\n");
    }
    Ok(())
}
