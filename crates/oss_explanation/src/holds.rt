//! What the clauses of a task name, in a sentence for each word.

ghost use Rattle.std.specs.Prelude.{◌≡◌, ◌++◌, OnOk};
ghost use Rattle.oss_pieces.specs.Names.{cell_name};
ghost use Rattle.oss_explanation.specs.Sentences.{has_text, lacks_text};
ghost use Rattle.oss_explanation.specs.Text.{all_held_text, child_holds_text, held_text, holds_text};
ghost use Rattle.oss_explanation.specs.Words.{who_text};

use crate::deed::add_cells;
use crate::explained::{Held, Word};
use crate::names::{add, add_task, add_who, add_word, is_child};
use oss_model::Point;
use oss_pieces::add_cell_name;
use oss_syntax::Program;
use std::alloc::{AllocError, Global};

/// Adds what a task has of a cell, without the end of the sentence.
pub(crate) fn add_has(
    alloc: Global,
    program: &Program,
    task: &Point,
    cell: u32,
    word: Word,
    text: &mut Vec<u8>,
) -> Result<(), AllocError>
    ensures { OnOk result (text.new.items ≡ text.old.items
        ++ has_text (who_text task.now) (cell_name program.now.items cell) word) }
{
    add_who(alloc, task, text)?;
    add(text, b" has ")?;
    add_cell_name(alloc, program, cell, text)?;
    add(text, b" by ")?;
    add_word(word, text)
}

/// Adds what a task has of a cell that is not enough.
pub(crate) fn add_lack(
    alloc: Global,
    program: &Program,
    task: &Point,
    cell: u32,
    held: Option<Word>,
    text: &mut Vec<u8>,
) -> Result<(), AllocError>
    ensures { OnOk result (text.new.items ≡ text.old.items ++ lacks_text program.now.items task.now cell held) }
{
    match held {
        Some(word) => {
            add_has(alloc, program, task, cell, word, text)?;
            add(text, b" alone.\n")
        }
        None => {
            add(text, b"No clause of ")?;
            add_task(alloc, task, text)?;
            add(text, b" names ")?;
            add_cell_name(alloc, program, cell, text)?;
            add(text, b".\n")
        }
    }
}

/// Adds what a task has, if it is not main.
pub(crate) fn add_holds(
    alloc: Global,
    program: &Program,
    task: &Point,
    holds: &[Held],
    text: &mut Vec<u8>,
) -> Result<(), AllocError>
    ensures { OnOk result (text.new.items ≡ text.old.items ++ holds_text program.now.items task.now holds.now) }
{
    if is_child(task.as_slice()) {
        return add_child_holds(alloc, program, task, holds, text);
    }
    Ok(())
}

/// Adds what a task other than main has.
fn add_child_holds(
    alloc: Global,
    program: &Program,
    task: &Point,
    holds: &[Held],
    text: &mut Vec<u8>,
) -> Result<(), AllocError>
    ensures { OnOk result (text.new.items ≡ text.old.items ++ child_holds_text program.now.items task.now holds.now) }
{
    if !holds.is_empty() {
        return add_all_held(alloc, program, task, b" has ", holds, text);
    }
    add(text, b"No clause of ")?;
    add_task(alloc, task, text)?;
    add(text, b" names a cell.\n")
}

/// Adds what a task has or would have.
pub(crate) fn add_all_held(
    alloc: Global,
    program: &Program,
    task: &Point,
    has: &[u8],
    holds: &[Held],
    text: &mut Vec<u8>,
) -> Result<(), AllocError>
    ensures { OnOk result (text.new.items ≡ text.old.items
        ++ all_held_text program.now.items (who_text task.now) has.now holds.now) }
{
    for held in holds {
        add_held(alloc, program, task, has, held, text)?;
    }
    Ok(())
}

/// Adds what a task has or would have by one word.
fn add_held(
    alloc: Global,
    program: &Program,
    task: &Point,
    has: &[u8],
    held: &Held,
    text: &mut Vec<u8>,
) -> Result<(), AllocError>
    ensures { OnOk result (text.new.items ≡ text.old.items
        ++ held_text program.now.items (who_text task.now) has.now held.now) }
{
    add_who(alloc, task, text)?;
    add(text, has)?;
    add_cells(alloc, program, held.cells.as_slice(), text)?;
    add(text, b" by ")?;
    add_word(held.word, text)?;
    add(text, b".\n")
}
