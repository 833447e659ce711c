//! The lines of tasks: those that read alike once.

ghost use Rattle.std.specs.Prelude.{◌≡◌, ◌++◌, map, Some, OnOk};
ghost use Rattle.std.specs.List.{flat_map};
ghost use Rattle.std.specs.Fmt.{decimal};
ghost use Rattle.oss_missing_text.specs.Lines.{told_of};
ghost use Rattle.oss_missing_text.specs.Text.{alike_text, further_text, lines_from, more_tasks, task_lines, told_at, told_line, too_text};

use crate::alike::Table;
use crate::lines::add_all_late;
use crate::names::Names;
use crate::words::{add, add_number, add_who};
use oss_missing_lines::TaskMissing;
use oss_syntax::{Bytes, List};
use std::alloc::{AllocError, Global};

/// Adds the lines of all tasks, whose clauses are told so.
pub(crate) fn add_lines(
    alloc: Global,
    names: &Names<'_>,
    tasks: &[TaskMissing],
    told: &[List<Bytes>],
    text: &mut Vec<u8>,
) -> Result<(), AllocError>
    requires { told.now ≡ map (told_of names.now) tasks.now }
    ensures { OnOk result (text.new.items ≡ text.old.items ++ lines_from names.now told.now 0 tasks.now) }
{
    let table = Table::of(alloc, told)?;
    add_tasks(alloc, names, &table, tasks, told, text)
}

/// Adds the lines of all tasks, with a table of what is told of their clauses.
fn add_tasks(
    alloc: Global,
    names: &Names<'_>,
    table: &Table<'_>,
    tasks: &[TaskMissing],
    told: &[List<Bytes>],
    text: &mut Vec<u8>,
) -> Result<(), AllocError>
    requires { told.now ≡ map (told_of names.now) tasks.now }
    ensures { OnOk result (text.new.items ≡ text.old.items ++ lines_from names.now table.now 0 tasks.now) }
{
    for (place, task) in tasks.iter().enumerate() {
        add_task(
            alloc,
            names,
            table,
            place,
            task,
            told[place].as_slice(),
            text,
        )?;
    }
    Ok(())
}

/// Adds the lines of the task with this number, whose clauses are told so.
fn add_task(
    alloc: Global,
    names: &Names<'_>,
    table: &Table<'_>,
    place: usize,
    task: &TaskMissing,
    told: &[Bytes],
    text: &mut Vec<u8>,
) -> Result<(), AllocError>
    requires { told.now ≡ told_of names.now task.now }
    ensures { OnOk result (text.new.items ≡ text.old.items ++ task_lines names.now table.now place task.now) }
{
    add_told(alloc, table, place, task, told, text)?;
    add_all_late(alloc, names, task, task.late.as_slice(), text)
}

/// Adds what is told of the clauses of the task with this number.
fn add_told(
    alloc: Global,
    table: &Table<'_>,
    place: usize,
    task: &TaskMissing,
    told: &[Bytes],
    text: &mut Vec<u8>,
) -> Result<(), AllocError>
    ensures { OnOk result (text.new.items ≡ text.old.items ++ flat_map (told_at table.now place task.now) told.now) }
{
    for words in told {
        add_told_at(alloc, table, place, task, words.as_slice(), text)?;
    }
    Ok(())
}

/// Adds a line of the task with this number, if no task before it tells it.
fn add_told_at(
    alloc: Global,
    table: &Table<'_>,
    place: usize,
    task: &TaskMissing,
    words: &[u8],
    text: &mut Vec<u8>,
) -> Result<(), AllocError>
    ensures { OnOk result (text.new.items ≡ text.old.items ++ told_at table.now place task.now words.now) }
{
    match table.later(place, words) {
        Some(count) => add_told_line(alloc, task, count, words, text),
        None => Ok(()),
    }
}

/// Adds a line of a task, which so many later tasks have too.
fn add_told_line(
    alloc: Global,
    task: &TaskMissing,
    count: usize,
    words: &[u8],
    text: &mut Vec<u8>,
) -> Result<(), AllocError>
    ensures { OnOk result (text.new.items ≡ text.old.items ++ told_line task.now (Some count) words.now) }
{
    add_who(alloc, &task.task, text)?;
    add(text, words)?;
    add_alike(alloc, task.line, count, text)
}

/// Adds the end of a line which so many later tasks of this line have too.
fn add_alike(alloc: Global, line: u32, count: usize, text: &mut Vec<u8>) -> Result<(), AllocError>
    ensures { OnOk result (text.new.items ≡ text.old.items ++ alike_text line count) }
{
    if count == 0 {
        return add(text, b".\n");
    }
    add_further(alloc, count, text)?;
    add(text, b" of line ")?;
    add_number(alloc, line, text)?;
    add(text, too(count))
}

/// Adds how many further tasks there are.
fn add_further(alloc: Global, count: usize, text: &mut Vec<u8>) -> Result<(), AllocError>
    ensures { OnOk result (text.new.items ≡ text.old.items ++ further_text count) }
{
    add(text, b"; ")?;
    add_count(alloc, count, text)?;
    add(text, counted_tasks(count))
}

/// Adds a count.
fn add_count(alloc: Global, count: usize, text: &mut Vec<u8>) -> Result<(), AllocError>
    ensures { OnOk result (text.new.items ≡ text.old.items ++ decimal count) }
{
    let digits = format!(in alloc; "{count}")?;
    add(text, digits.as_bytes())
}

/// What so many tasks are called.
fn counted_tasks(count: usize) -> &'static [u8]
    ensures { result.now ≡ more_tasks count }
{
    if count == 1 {
        b" more task"
    } else {
        b" more tasks"
    }
}

/// That so many tasks lack the same.
fn too(count: usize) -> &'static [u8]
    ensures { result.now ≡ too_text count }
{
    if count == 1 {
        b" does too.\n"
    } else {
        b" do too.\n"
    }
}
