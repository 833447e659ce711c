//! What is missing of one task.

ghost use Rattle.std.specs.Prelude.{◌≡◌, IfOk, List as Items};
ghost use Rattle.oss_lack_words.specs.Told.{AreWanting};
ghost use Rattle.oss_pieces.specs.Layouts.{grids_from};
ghost use Rattle.oss_ranges.specs.Cells.{value_at};
ghost use Rattle.oss_syntax.specs.declared.tree.program.Item.{Item as Meant};
ghost use Rattle.oss_missing.specs.Making.{HasClauses, IsMade, IsMainMade};

use oss_lack_words::{lacking, wanting};
use oss_lacks::TaskLacks;
use oss_missing_lines::{Late, TaskMissing, Wanting};
use oss_model::Point;
use oss_pieces::Layout;
use oss_syntax::List;
use std::alloc::{AllocError, Global};

/// What is missing of main, with these lines: no clause says anything of it, so none is missing.
pub(crate) fn main_missing(alloc: Global, late: List<Late>) -> Result<TaskMissing, AllocError>
    ensures { IfOk result (λ missing. IsMainMade late missing) }
{
    match Point::main(alloc) {
        Ok(task) => Ok(TaskMissing {
            task,
            line: 0,
            lacks: List::new(alloc),
            wants: List::new(alloc),
            late,
        }),
        Err(full) => {
            drop(late);
            Err(full)
        }
    }
}

/// What is missing of a task whose clauses lack this, with these lines.
pub(crate) fn task_missing(
    alloc: Global,
    layout: &Layout,
    task: &TaskLacks,
    late: List<Late>,
) -> Result<TaskMissing, AllocError>
    ensures { IfOk result (λ missing. IsMade layout.now task.now late missing) }
{
    match clauses_missing(alloc, layout, task) {
        Ok(mut missing) => {
            missing.late = late;
            Ok(missing)
        }
        Err(full) => {
            drop(late);
            Err(full)
        }
    }
}

/// The same without lines.
fn clauses_missing(
    alloc: Global,
    layout: &Layout,
    task: &TaskLacks,
) -> Result<TaskMissing, AllocError>
    ensures { IfOk result (λ missing. HasClauses layout.now task.now missing) }
{
    let point = task.task.copy()?;
    let lacks = match lacking(alloc, layout, &task.mending.lacks) {
        Ok(lacks) => lacks,
        Err(full) => {
            drop(point);
            return Err(full);
        }
    };
    match wants_of(alloc, layout, task) {
        Ok(wants) => Ok(TaskMissing {
            task: point,
            line: task.line,
            lacks,
            wants,
            late: List::new(alloc),
        }),
        Err(full) => {
            drop(point);
            drop(lacks);
            Err(full)
        }
    }
}

/// The clauses that have to stand in place of others, of a task whose clauses lack this.
fn wants_of(alloc: Global, layout: &Layout, task: &TaskLacks) -> Result<List<Wanting>, AllocError>
    ensures { IfOk result (λ wants. (all : Items Meant) → layout.now ≡ grids_from all 0 →
        AreWanting all (value_at task.now.mending.lacks.pieces) task.now.is_final task.now.clauses wants) }
{
    wanting(
        alloc,
        layout,
        &task.mending.lacks,
        task.clauses.as_slice(),
        task.is_final,
    )
}
