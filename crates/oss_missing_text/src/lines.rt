//! Lines of what a task does too early, or too late.

ghost use Rattle.std.specs.Prelude.{◌≡◌, ◌++◌, OnOk};
ghost use Rattle.std.specs.List.{flat_map};
ghost use Rattle.oss_missing_text.specs.Lines.{before_text, child_text, has_text, late_line, late_text, late_use_text, touch_text, wait_text};

use crate::names::Names;
use crate::told::add_born;
use crate::words::{add, add_number, add_op, add_point, add_who, add_word};
use oss_explanation::Touching;
use oss_missing_lines::{Late, LateUse, MissingWait, TaskMissing};
use std::alloc::{AllocError, Global};

/// Adds the lines of these waits and uses of a task.
pub(crate) fn add_all_late(
    alloc: Global,
    names: &Names<'_>,
    task: &TaskMissing,
    late: &[Late],
    text: &mut Vec<u8>,
) -> Result<(), AllocError>
    ensures { OnOk result (text.new.items ≡ text.old.items ++ flat_map (late_line names.now task.now) late.now) }
{
    for one in late {
        add_line(alloc, names, task, one, text)?;
    }
    Ok(())
}

/// Adds the line of a wait or a use of a task.
fn add_line(
    alloc: Global,
    names: &Names<'_>,
    task: &TaskMissing,
    late: &Late,
    text: &mut Vec<u8>,
) -> Result<(), AllocError>
    ensures { OnOk result (text.new.items ≡ text.old.items ++ late_line names.now task.now late.now) }
{
    add_who(alloc, &task.task, text)?;
    add_born(alloc, task, text)?;
    add_late(alloc, names, task, late, text)
}

/// Adds a wait or a use of a task.
fn add_late(
    alloc: Global,
    names: &Names<'_>,
    task: &TaskMissing,
    late: &Late,
    text: &mut Vec<u8>,
) -> Result<(), AllocError>
    ensures { OnOk result (text.new.items ≡ text.old.items ++ late_text names.now task.now late.now) }
{
    match late {
        Late::Wait(wait) => add_wait(alloc, names, task, wait, text),
        Late::Use(used) => add_late_use(alloc, names, used, text),
    }
}

/// Adds a wait that a task lacks.
fn add_wait(
    alloc: Global,
    names: &Names<'_>,
    task: &TaskMissing,
    wait: &MissingWait,
    text: &mut Vec<u8>,
) -> Result<(), AllocError>
    ensures { OnOk result (text.new.items ≡ text.old.items ++ wait_text names.now task.now wait.now) }
{
    add_before(alloc, names, wait, text)?;
    add_child(alloc, task, wait, text)?;
    add_has(alloc, names, wait, text)
}

/// Adds the touch that has to wait.
fn add_before(
    alloc: Global,
    names: &Names<'_>,
    wait: &MissingWait,
    text: &mut Vec<u8>,
) -> Result<(), AllocError>
    ensures { OnOk result (text.new.items ≡ text.old.items ++ before_text names.now wait.now) }
{
    add(text, b" lacks a taskwait before it ")?;
    add_touch(alloc, names, wait.touch, wait.cell, text)?;
    add(text, b" at line ")?;
    add_number(alloc, wait.line, text)
}

/// Adds how a cell is touched.
fn add_touch(
    alloc: Global,
    names: &Names<'_>,
    touch: Touching,
    cell: u32,
    text: &mut Vec<u8>,
) -> Result<(), AllocError>
    ensures { OnOk result (text.new.items ≡ text.old.items ++ touch_text names.now touch cell) }
{
    match touch {
        Touching::Reading => {
            add(text, b"reads ")?;
            names.add_cell(alloc, cell, text)
        }
        Touching::Writing => {
            add(text, b"writes ")?;
            names.add_cell(alloc, cell, text)
        }
        Touching::Folding(op) => {
            add(text, b"folds into ")?;
            names.add_cell(alloc, cell, text)?;
            add(text, b" by ")?;
            add_op(op, text)?;
            add(text, b"=")
        }
    }
}

/// Adds the child of a task that hinders a touch.
fn add_child(
    alloc: Global,
    task: &TaskMissing,
    wait: &MissingWait,
    text: &mut Vec<u8>,
) -> Result<(), AllocError>
    ensures { OnOk result (text.new.items ≡ text.old.items ++ child_text task.now wait.now) }
{
    add(text, b": task ")?;
    add_point(alloc, &task.task, text)?;
    add(text, b".")?;
    add_number(alloc, wait.child, text)?;
    add(text, b" (line ")?;
    add_number(alloc, wait.created, text)?;
    add(text, b")")
}

/// Adds what the child has that hinders a touch.
fn add_has(
    alloc: Global,
    names: &Names<'_>,
    wait: &MissingWait,
    text: &mut Vec<u8>,
) -> Result<(), AllocError>
    ensures { OnOk result (text.new.items ≡ text.old.items ++ has_text names.now wait.now) }
{
    add(text, b" has ")?;
    names.add_cell(alloc, wait.cell, text)?;
    add(text, b" by ")?;
    add_word(wait.word, text)?;
    add(text, b".\n")
}

/// Adds a use behind a release.
fn add_late_use(
    alloc: Global,
    names: &Names<'_>,
    used: &LateUse,
    text: &mut Vec<u8>,
) -> Result<(), AllocError>
    ensures { OnOk result (text.new.items ≡ text.old.items ++ late_use_text names.now used.now) }
{
    add(text, b" uses ")?;
    names.add_pieces(alloc, used.cells.as_slice(), text)?;
    add(text, b" at line ")?;
    add_number(alloc, used.line, text)?;
    add(text, b" after a release.\n")
}
