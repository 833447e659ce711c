//! Why the task may not do it.

ghost use Rattle.std.specs.Prelude.{◌≡◌, ◌++◌, OnOk};
ghost use Rattle.oss_labels.specs.Lists.{label_at};
ghost use Rattle.oss_explanation.specs.Sentences.{child_rule, fold_text, fuel_text, mixed_text, mixed_words, reason_text, reduction_rule, reduction_text, release_rule, released_at, released_text, uncovered_text, unwritten_text};

use crate::deed::{Are, add_at_line, add_failing};
use crate::explained::{Failing, Reason, Word};
use crate::holds::add_lack;
use crate::lent::{add_birth, add_holder, add_later, add_no_wait};
use crate::names::{add, add_number, add_op, add_task, add_who, add_words};
use crate::rules::{add_child_rule, add_lent_rule, add_release_rule, add_touch_rule};
use crate::uncovered::{add_released, add_uncovered, add_wanted};
use oss_labels::Labels;
use oss_model::Point;
use oss_pieces::add_cell_name;
use oss_syntax::{Op, Program};
use std::alloc::{AllocError, Global};

/// Adds why the task may not do it. The task that it would create next has the second point.
pub(crate) fn add_reason(
    alloc: Global,
    program: &Program,
    labels: &Labels,
    task: &Point,
    next: &Point,
    reason: &Reason,
    text: &mut Vec<u8>,
) -> Result<(), AllocError>
    ensures { OnOk result (text.new.items ≡ text.old.items
        ++ reason_text program.now.items (label_at labels.now) task.now next.now reason.now) }
{
    match reason {
        Reason::OutOfFuel(fuel) => add_fuel(alloc, *fuel, text),
        Reason::TooManyFrames => add(text, b"It has 256 frames open, which is the limit.\n"),
        Reason::TooDeep => add(
            text,
            b"The new task would be nested 65 deep, and 64 is the limit.\n",
        ),
        Reason::TooManyTasks => add(text, b"It has created 65535 tasks, which is the limit.\n"),
        Reason::Plain => Ok(()),
        Reason::ShiftRange => add(text, b"A shift is by 0 to 63.\n"),
        Reason::MixedAccess(words, cells) => add_mixed(
            alloc,
            program,
            next,
            words.as_slice(),
            cells,
            text,
        ),
        Reason::Released(line, cells) => add_was_released(alloc, program, task, *line, cells, text),
        Reason::NoRight(cell, touch, held) => {
            add_lack(alloc, program, task, *cell, *held, text)?;
            add_touch_rule(*touch, *held, text)
        }
        Reason::CreationNotCovered(word, held, cells) => {
            add_wanted(alloc, program, next, cells.first, *word, text)?;
            add_lack_for_child(alloc, program, task, *word, *held, cells, text)
        }
        Reason::ReleaseNotCovered(word, held, cells) => {
            add_released(alloc, program, cells.first, *word, text)?;
            add_lack_for_release(alloc, program, task, *word, *held, cells, text)
        }
        Reason::WaitNotCovered(cells) => {
            add_uncovered(alloc, program, task, None, cells, text)?;
            add(text, b"A task waits on cells that its own clauses name.\n")
        }
        Reason::BadReduction(cell, op) => add_reduction(alloc, program, task, *cell, *op, text),
        Reason::Lent {
            cell,
            child,
            line,
            entry,
            word,
            later,
        } => {
            add_holder(alloc, program, child, *cell, *word, text)?;
            add_birth(alloc, labels, *entry, task, child, *line, text)?;
            add_no_wait(alloc, program, task, *cell, text)?;
            add_later(alloc, later, text)?;
            add_lent_rule(word.named, text)
        }
        Reason::Unwritten(cell) => add_unwritten(alloc, program, task, *cell, text),
    }
}

/// Adds what the creator lacks for a child, and the rule.
fn add_lack_for_child(
    alloc: Global,
    program: &Program,
    task: &Point,
    word: Word,
    held: Option<Word>,
    cells: &Failing,
    text: &mut Vec<u8>,
) -> Result<(), AllocError>
    ensures { OnOk result (text.new.items ≡ text.old.items
        ++ (uncovered_text program.now.items task.now held cells.now ++ child_rule word.named)) }
{
    add_uncovered(alloc, program, task, held, cells, text)?;
    add_child_rule(word.named, text)
}

/// Adds what the task lacks for a release, and the rule.
fn add_lack_for_release(
    alloc: Global,
    program: &Program,
    task: &Point,
    word: Word,
    held: Option<Word>,
    cells: &Failing,
    text: &mut Vec<u8>,
) -> Result<(), AllocError>
    ensures { OnOk result (text.new.items ≡ text.old.items
        ++ (uncovered_text program.now.items task.now held cells.now ++ release_rule word.named)) }
{
    add_uncovered(alloc, program, task, held, cells, text)?;
    add_release_rule(word.named, text)
}

/// Adds that the fuel is used up.
fn add_fuel(alloc: Global, fuel: u32, text: &mut Vec<u8>) -> Result<(), AllocError>
    ensures { OnOk result (text.new.items ≡ text.old.items ++ fuel_text fuel) }
{
    add(text, b"Its fuel of ")?;
    add_number(alloc, fuel, text)?;
    add(text, b" ticks is used up.\n")?;
    add(
        text,
        b"A statement, a test of a loop and a call make a tick each; --fuel sets the fuel of each task.\n",
    )
}

/// Adds which words for one cell do not go together.
fn add_mixed(
    alloc: Global,
    program: &Program,
    next: &Point,
    words: &[Word],
    cells: &Failing,
    text: &mut Vec<u8>,
) -> Result<(), AllocError>
    ensures { OnOk result (text.new.items ≡ text.old.items
        ++ mixed_text program.now.items next.now words.now cells.now) }
{
    add_mixed_words(alloc, program, next, words, cells.first, text)?;
    add_failing(alloc, program, Are::Mixed, cells, text)?;
    add(
        text,
        b"A reduction goes with no other mode or operator on one cell.\n",
    )
}

/// Adds by which words the clauses of the new task name a cell.
fn add_mixed_words(
    alloc: Global,
    program: &Program,
    next: &Point,
    words: &[Word],
    cell: u32,
    text: &mut Vec<u8>,
) -> Result<(), AllocError>
    ensures { OnOk result (text.new.items ≡ text.old.items ++ mixed_words program.now.items next.now words.now cell) }
{
    add(text, b"The clauses of ")?;
    add_task(alloc, next, text)?;
    add(text, b" name ")?;
    add_cell_name(alloc, program, cell, text)?;
    add(text, b" by ")?;
    add_words(words, text)?;
    add(text, b".\n")
}

/// Adds where the task has released the cells.
fn add_was_released(
    alloc: Global,
    program: &Program,
    task: &Point,
    line: u32,
    cells: &Failing,
    text: &mut Vec<u8>,
) -> Result<(), AllocError>
    ensures { OnOk result (text.new.items ≡ text.old.items ++ released_text program.now.items task.now line cells.now) }
{
    add_release_line(alloc, program, task, cells.first, line, text)?;
    add_failing(alloc, program, Are::Released, cells, text)?;
    add(
        text,
        b"A task neither touches nor names a cell that it has released.\n",
    )
}

/// Adds where the task has released a cell.
fn add_release_line(
    alloc: Global,
    program: &Program,
    task: &Point,
    cell: u32,
    line: u32,
    text: &mut Vec<u8>,
) -> Result<(), AllocError>
    ensures { OnOk result (text.new.items ≡ text.old.items ++ released_at program.now.items task.now cell line) }
{
    add_who(alloc, task, text)?;
    add(text, b" has released ")?;
    add_cell_name(alloc, program, cell, text)?;
    add_at_line(alloc, line, text)
}

/// Adds why a cell under a reduction is not touched so.
fn add_reduction(
    alloc: Global,
    program: &Program,
    task: &Point,
    cell: u32,
    op: Op,
    text: &mut Vec<u8>,
) -> Result<(), AllocError>
    ensures { OnOk result (text.new.items ≡ text.old.items ++ reduction_text program.now.items task.now cell op) }
{
    add_who(alloc, task, text)?;
    add(text, b" has ")?;
    add_cell_name(alloc, program, cell, text)?;
    add(text, b" by reduction(")?;
    add_op(op, text)?;
    add(text, b").\n")?;
    add_reduction_rule(alloc, program, cell, op, text)
}

/// Adds how a reduction touches a cell.
fn add_reduction_rule(
    alloc: Global,
    program: &Program,
    cell: u32,
    op: Op,
    text: &mut Vec<u8>,
) -> Result<(), AllocError>
    ensures { OnOk result (text.new.items ≡ text.old.items ++ reduction_rule program.now.items cell op) }
{
    add(text, b"Under reduction(")?;
    add_op(op, text)?;
    add(text, b") a task touches ")?;
    add_cell_name(alloc, program, cell, text)?;
    add(text, b" by ")?;
    add_fold_text(alloc, program, cell, op, text)
}

/// Adds a fold into a cell.
fn add_fold_text(
    alloc: Global,
    program: &Program,
    cell: u32,
    op: Op,
    text: &mut Vec<u8>,
) -> Result<(), AllocError>
    ensures { OnOk result (text.new.items ≡ text.old.items ++ fold_text program.now.items cell op) }
{
    add_cell_name(alloc, program, cell, text)?;
    add(text, b" ")?;
    add_op(op, text)?;
    add(text, b"= VALUE alone.\n")
}

/// Adds that a cell under `out` has no value yet.
fn add_unwritten(
    alloc: Global,
    program: &Program,
    task: &Point,
    cell: u32,
    text: &mut Vec<u8>,
) -> Result<(), AllocError>
    ensures { OnOk result (text.new.items ≡ text.old.items ++ unwritten_text program.now.items task.now cell) }
{
    add_who(alloc, task, text)?;
    add(text, b" has ")?;
    add_cell_name(alloc, program, cell, text)?;
    add(text, b" by out alone.\nIt has neither written ")?;
    add_cell_name(alloc, program, cell, text)?;
    add(text, b" nor created a child that may write it.\n")?;
    add(
        text,
        b"Under out a task writes a cell before it reads it or folds into it; inout wants no write first.\n",
    )
}
