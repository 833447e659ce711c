//! Why a clause is not covered by the rights of its task.

ghost use Rattle.std.specs.Prelude.{◌≡◌, ◌++◌, OnOk, codes};
ghost use Rattle.oss_explanation.specs.Sentences.{named_text, uncovered_text, wants_it_text};

use crate::deed::{Are, add_failing};
use crate::explained::{Failing, Word};
use crate::holds::add_lack;
use crate::names::{add, add_who, add_word};
use oss_model::Point;
use oss_pieces::add_cell_name;
use oss_syntax::Program;
use std::alloc::{AllocError, Global};

/// Adds how the new task would have a cell.
pub(crate) fn add_wanted(
    alloc: Global,
    program: &Program,
    next: &Point,
    cell: u32,
    word: Word,
    text: &mut Vec<u8>,
) -> Result<(), AllocError>
    ensures { OnOk result (text.new.items ≡ text.old.items ++ wants_it_text program.now.items next.now cell word) }
{
    add_who(alloc, next, text)?;
    add(text, b" would have ")?;
    add_named(alloc, program, cell, word, text)
}

/// Adds how a release names a cell.
pub(crate) fn add_released(
    alloc: Global,
    program: &Program,
    cell: u32,
    word: Word,
    text: &mut Vec<u8>,
) -> Result<(), AllocError>
    ensures { OnOk result (text.new.items ≡ text.old.items
        ++ (codes "It releases " ++ named_text program.now.items cell word)) }
{
    add(text, b"It releases ")?;
    add_named(alloc, program, cell, word, text)
}

/// Adds a cell and the word that names it.
fn add_named(
    alloc: Global,
    program: &Program,
    cell: u32,
    word: Word,
    text: &mut Vec<u8>,
) -> Result<(), AllocError>
    ensures { OnOk result (text.new.items ≡ text.old.items ++ named_text program.now.items cell word) }
{
    add_cell_name(alloc, program, cell, text)?;
    add(text, b" by ")?;
    add_word(word, text)?;
    add(text, b".\n")
}

/// Adds what the task has of the cells that are not covered.
pub(crate) fn add_uncovered(
    alloc: Global,
    program: &Program,
    task: &Point,
    held: Option<Word>,
    cells: &Failing,
    text: &mut Vec<u8>,
) -> Result<(), AllocError>
    ensures { OnOk result (text.new.items ≡ text.old.items
        ++ uncovered_text program.now.items task.now held cells.now) }
{
    add_lack(alloc, program, task, cells.first, held, text)?;
    add_failing(alloc, program, Are::NotCovered, cells, text)
}
