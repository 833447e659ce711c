//! Main and all tasks.

ghost use Rattle.std.specs.Prelude.{◌≡◌, ◌≤◌, [], ◌∷◌, length, reverse, IfOk, OnOk};
ghost use Rattle.oss_grammar.specs.Layout.{cells_in};
ghost use Rattle.oss_lacks.specs.Lacks.{IsLacks};
ghost use Rattle.oss_pieces.specs.Layouts.{grids_from};
ghost use Rattle.oss_missing.specs.Making.{AddsMade, AddsOne, AreAllMade, first_lines, others};
ghost use Rattle.oss_missing.specs.Missing.{IsMissing};

use crate::task::{main_missing, task_missing};
use oss_code::Code;
use oss_lacks::{Lacks, TaskLacks, find_lacks};
use oss_missing_lines::{Late, Missing, TaskMissing};
use oss_missing_waits::{TaskWaits, find_waits};
use oss_pieces::Layout;
use oss_syntax::{List, Program};
use std::alloc::{AllocError, Global};
use std::mem;

/// All that is missing of the clauses of a program, whose code this is, where each task may make so many ticks: main, and then each task
/// that was created. Where a fault stops the free run, the tasks that are open count as ended there, and the fault is told. It costs two
/// walks over the free run, and for each task what its lacks and their pieces do. Out of memory is the one error. Conditions: the code and
/// the program have at most 1,048,576 cells.
pub fn find_missing(
    alloc: Global,
    program: &Program,
    code: &Code,
    fuel: u32,
) -> Result<Missing, AllocError>
    requires code { length code.now.first ≤ 1048576 }
    requires cells { cells_in program.now.items ≤ 1048576 }
    ensures { IfOk result (λ missing. IsMissing code.now fuel program.now.items missing) }
{
    let layout = Layout::of(alloc, program)?;
    let found = missing_over(alloc, &layout, program, code, fuel);
    drop(layout);
    found
}

/// The same where the globals lie so.
fn missing_over(
    alloc: Global,
    layout: &Layout,
    program: &Program,
    code: &Code,
    fuel: u32,
) -> Result<Missing, AllocError>
    requires layout { layout.now ≡ grids_from program.now.items 0 }
    requires code { length code.now.first ≤ 1048576 }
    requires cells { cells_in program.now.items ≤ 1048576 }
    ensures { IfOk result (λ missing. IsMissing code.now fuel program.now.items missing) }
{
    let lacks = find_lacks(alloc, code, fuel)?;
    let found = missing_beside(alloc, layout, program, code, fuel, &lacks);
    drop(lacks);
    found
}

/// The same where this is lacking.
fn missing_beside(
    alloc: Global,
    layout: &Layout,
    program: &Program,
    code: &Code,
    fuel: u32,
    lacks: &Lacks,
) -> Result<Missing, AllocError>
    requires layout { layout.now ≡ grids_from program.now.items 0 }
    requires code { length code.now.first ≤ 1048576 }
    requires cells { cells_in program.now.items ≤ 1048576 }
    requires lacks { IsLacks code.now fuel lacks.now }
    ensures { IfOk result (λ missing. IsMissing code.now fuel program.now.items missing) }
{
    let mut waits = find_waits(alloc, program, code, fuel, lacks)?;
    match all_missing(alloc, layout, lacks.tasks.as_slice(), &mut waits) {
        Ok(tasks) => {
            drop(waits);
            Ok(Missing {
                tasks,
                fault: lacks.fault,
            })
        }
        Err(full) => {
            drop(waits);
            Err(full)
        }
    }
}

/// What is missing of main and of all tasks, whose clauses lack this, and whose lines these are: they are taken.
fn all_missing(
    alloc: Global,
    layout: &Layout,
    tasks: &[TaskLacks],
    waits: &mut TaskWaits,
) -> Result<List<TaskMissing>, AllocError>
    ensures { IfOk result (λ found. AreAllMade layout.now tasks.now waits.old found) }
{
    let main = main_missing(alloc, mem::replace(&mut waits.main, List::new(alloc)))?;
    let mut lines = mem::replace(&mut waits.tasks, List::new(alloc)).into_vec();
    lines.reverse();
    let found = missing_from(alloc, layout, main, tasks, &mut lines);
    drop(lines);
    found
}

/// What is missing of main, and then of these tasks, whose lines stand from the end on.
fn missing_from(
    alloc: Global,
    layout: &Layout,
    main: TaskMissing,
    tasks: &[TaskLacks],
    lines: &mut Vec<List<Late>>,
) -> Result<List<TaskMissing>, AllocError>
    ensures { IfOk result (λ found. AddsMade layout.now tasks.now (reverse lines.old.items) (main ∷ []) found) }
{
    let mut found = Vec::new(alloc);
    found.push(main)?;
    for task in tasks {
        add_task(alloc, layout, task, lines, &mut found)?;
    }
    Ok(List::from_vec(found))
}

/// Adds what is missing of the next task, whose lines stand at the end and are taken away.
fn add_task(
    alloc: Global,
    layout: &Layout,
    task: &TaskLacks,
    lines: &mut Vec<List<Late>>,
    found: &mut Vec<TaskMissing>,
) -> Result<(), AllocError>
    ensures lines { OnOk result (reverse lines.new.items ≡ others (reverse lines.old.items)) }
    ensures found { OnOk result (AddsOne layout.now task.now (first_lines (reverse lines.old.items)) found.old.items found.new.items) }
{
    let late = next_lines(alloc, lines);
    let missing = task_missing(alloc, layout, task, late)?;
    found.push(missing)?;
    Ok(())
}

/// The lines of the next task, which stand at the end and are taken away; none where there are none.
fn next_lines(alloc: Global, lines: &mut Vec<List<Late>>) -> List<Late>
    ensures first { result ≡ first_lines (reverse lines.old.items) }
    ensures rest { reverse lines.new.items ≡ others (reverse lines.old.items) }
{
    match lines.pop() {
        Some(late) => late,
        None => List::new(alloc),
    }
}
