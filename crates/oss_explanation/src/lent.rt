//! Why a cell that is lent is not touched.

ghost use Rattle.std.specs.Prelude.{◌≡◌, ◌++◌, OnOk, codes};
ghost use Rattle.std.specs.Fmt.{decimal};
ghost use Rattle.oss_labels.specs.Lists.{label_at};
ghost use Rattle.oss_pieces.specs.Names.{cell_name};
ghost use Rattle.oss_explanation.specs.Sentences.{created_text, has_text, later_text, stop, waits_text};
ghost use Rattle.oss_explanation.specs.Words.{task_text, who_text};

use crate::chain::add_created;
use crate::explained::{Later, Word};
use crate::holds::add_has;
use crate::names::{add, add_number, add_task, add_who};
use oss_labels::Labels;
use oss_model::Point;
use oss_pieces::add_cell_name;
use oss_syntax::Program;
use std::alloc::{AllocError, Global};

/// Adds which child of the task has the cell, and by which word.
pub(crate) fn add_holder(
    alloc: Global,
    program: &Program,
    child: &Point,
    cell: u32,
    word: Word,
    text: &mut Vec<u8>,
) -> Result<(), AllocError>
    ensures { OnOk result (text.new.items ≡ text.old.items
        ++ has_text (who_text child.now) (cell_name program.now.items cell) word ++ stop) }
{
    add_has(alloc, program, child, cell, word, text)?;
    add(text, b".\n")
}

/// Adds where that child was created, whose body begins with this instruction.
pub(crate) fn add_birth(
    alloc: Global,
    labels: &Labels,
    entry: u32,
    task: &Point,
    child: &Point,
    line: u32,
    text: &mut Vec<u8>,
) -> Result<(), AllocError>
    ensures { OnOk result (text.new.items ≡ text.old.items
        ++ created_text (label_at labels.now entry) child.now line task.now ++ stop) }
{
    add_created(
        alloc,
        labels,
        entry,
        child.as_slice(),
        line,
        task.as_slice(),
        text,
    )?;
    add(text, b".\n")
}

/// Adds that the task has not waited for the cell.
pub(crate) fn add_no_wait(
    alloc: Global,
    program: &Program,
    task: &Point,
    cell: u32,
    text: &mut Vec<u8>,
) -> Result<(), AllocError>
    ensures { OnOk result (text.new.items ≡ text.old.items ++ waits_text program.now.items task.now cell) }
{
    add_who(alloc, task, text)?;
    add(text, b" has not waited for ")?;
    add_cell_name(alloc, program, cell, text)?;
    add(text, b" since.\n")
}

/// Adds the later children that have the cell too.
pub(crate) fn add_later(alloc: Global, later: &Later, text: &mut Vec<u8>) -> Result<(), AllocError>
    ensures { OnOk result (text.new.items ≡ text.old.items ++ later_text later.now) }
{
    match later {
        Later::None => Ok(()),
        Later::One(child) => add_one(alloc, child, text),
        Later::Several(count, first, last) => add_several(alloc, *count, first, last, text),
    }
}

/// Adds one later child.
fn add_one(alloc: Global, child: &Point, text: &mut Vec<u8>) -> Result<(), AllocError>
    ensures { OnOk result (text.new.items ≡ text.old.items
        ++ codes "1 later child hinders it too: " ++ task_text child.now ++ stop) }
{
    add(text, b"1 later child hinders it too: ")?;
    add_task(alloc, child, text)?;
    add(text, b".\n")
}

/// Adds several later children.
fn add_several(
    alloc: Global,
    count: u32,
    first: &Point,
    last: &Point,
    text: &mut Vec<u8>,
) -> Result<(), AllocError>
    ensures { OnOk result (text.new.items ≡ text.old.items
        ++ decimal count ++ codes " later children hinder it too: " ++ task_text first.now ++ codes " to "
        ++ task_text last.now ++ stop) }
{
    add_number(alloc, count, text)?;
    add(text, b" later children hinder it too: ")?;
    add_task(alloc, first, text)?;
    add(text, b" to ")?;
    add_task(alloc, last, text)?;
    add(text, b".\n")
}
