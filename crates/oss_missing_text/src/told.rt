//! The clauses that tasks lack, and those that have to give way, as they are told behind the name of a task.

ghost use Rattle.std.specs.Prelude.{◌≡◌, ◌++◌, map, IfOk, OnOk};
ghost use Rattle.oss_missing_text.specs.Clauses.{clause_text, old_text};
ghost use Rattle.oss_missing_text.specs.Lines.{born_text, lack_text, told_of, want_text};

use crate::clauses::add_clause;
use crate::names::Names;
use crate::words::{add, add_number, add_old, is_child};
use oss_explanation::Held;
use oss_missing_lines::{TaskMissing, Wanting};
use oss_syntax::{Bytes, List};
use std::alloc::{AllocError, Global};

/// What is told of the clauses of each task.
pub(crate) fn all_told(
    alloc: Global,
    names: &Names<'_>,
    tasks: &[TaskMissing],
) -> Result<List<List<Bytes>>, AllocError>
    ensures { IfOk result (λ told. told ≡ map (told_of names.now) tasks.now) }
{
    let mut told = Vec::new(alloc);
    for task in tasks {
        told.push(told_by(alloc, names, task)?)?;
    }
    Ok(List::from_vec(told))
}

/// What is told of the clauses of one task.
fn told_by(alloc: Global, names: &Names<'_>, task: &TaskMissing) -> Result<List<Bytes>, AllocError>
    ensures { IfOk result (λ told. told ≡ told_of names.now task.now) }
{
    let mut told = Vec::new(alloc);
    tell_lacks(alloc, names, task, task.lacks.as_slice(), &mut told)?;
    tell_wants(alloc, names, task, task.wants.as_slice(), &mut told)?;
    Ok(List::from_vec(told))
}

/// Tells these clauses, which the task lacks.
fn tell_lacks(
    alloc: Global,
    names: &Names<'_>,
    task: &TaskMissing,
    lacks: &[Held],
    told: &mut Vec<Bytes>,
) -> Result<(), AllocError>
    ensures { OnOk result (told.new.items ≡ told.old.items ++ map (lack_text names.now task.now) lacks.now) }
{
    for held in lacks {
        told.push(lack(alloc, names, task, held)?)?;
    }
    Ok(())
}

/// Tells these clauses, which have to stand in place of others.
fn tell_wants(
    alloc: Global,
    names: &Names<'_>,
    task: &TaskMissing,
    wants: &[Wanting],
    told: &mut Vec<Bytes>,
) -> Result<(), AllocError>
    ensures { OnOk result (told.new.items ≡ told.old.items ++ map (want_text names.now task.now) wants.now) }
{
    for wanting in wants {
        told.push(want(alloc, names, task, wanting)?)?;
    }
    Ok(())
}

/// A clause that the task lacks.
fn lack(
    alloc: Global,
    names: &Names<'_>,
    task: &TaskMissing,
    held: &Held,
) -> Result<Bytes, AllocError>
    ensures { IfOk result (λ text. text ≡ lack_text names.now task.now held.now) }
{
    let mut text = Vec::new(alloc);
    add_lack(alloc, names, task, held, &mut text)?;
    Ok(Bytes::from_vec(text))
}

/// A clause that has to stand in place of others.
fn want(
    alloc: Global,
    names: &Names<'_>,
    task: &TaskMissing,
    wanting: &Wanting,
) -> Result<Bytes, AllocError>
    ensures { IfOk result (λ text. text ≡ want_text names.now task.now wanting.now) }
{
    let mut text = Vec::new(alloc);
    add_want(alloc, names, task, wanting, &mut text)?;
    Ok(Bytes::from_vec(text))
}

/// Adds a clause that the task lacks.
fn add_lack(
    alloc: Global,
    names: &Names<'_>,
    task: &TaskMissing,
    held: &Held,
    text: &mut Vec<u8>,
) -> Result<(), AllocError>
    ensures { OnOk result (text.new.items ≡ text.old.items ++ lack_text names.now task.now held.now) }
{
    add_born(alloc, task, text)?;
    add(text, b" lacks ")?;
    add_clause(alloc, names, held.word, held.cells.as_slice(), text)
}

/// Adds a clause that has to stand in place of others.
fn add_want(
    alloc: Global,
    names: &Names<'_>,
    task: &TaskMissing,
    wanting: &Wanting,
    text: &mut Vec<u8>,
) -> Result<(), AllocError>
    ensures { OnOk result (text.new.items ≡ text.old.items ++ want_text names.now task.now wanting.now) }
{
    add_born(alloc, task, text)?;
    add(text, b" wants ")?;
    add_wanted(alloc, names, wanting, text)?;
    add(text, b" in place of ")?;
    add_replaced(wanting, text)
}

/// Adds the clause that has to stand in place of others.
fn add_wanted(
    alloc: Global,
    names: &Names<'_>,
    wanting: &Wanting,
    text: &mut Vec<u8>,
) -> Result<(), AllocError>
    ensures { OnOk result (text.new.items ≡ text.old.items ++ clause_text names.now wanting.now.word wanting.now.cells) }
{
    add_clause(alloc, names, wanting.word, wanting.cells.as_slice(), text)
}

/// Adds the words in whose place it has to stand.
fn add_replaced(wanting: &Wanting, text: &mut Vec<u8>) -> Result<(), AllocError>
    ensures { OnOk result (text.new.items ≡ text.old.items ++ old_text wanting.now.old) }
{
    add_old(wanting.old.as_slice(), text)
}

/// Adds where a task was created, if it is not main.
pub(crate) fn add_born(
    alloc: Global,
    task: &TaskMissing,
    text: &mut Vec<u8>,
) -> Result<(), AllocError>
    ensures { OnOk result (text.new.items ≡ text.old.items ++ born_text task.now) }
{
    if !is_child(&task.task) {
        return Ok(());
    }
    add(text, b" (line ")?;
    add_number(alloc, task.line, text)?;
    add(text, b")")
}
