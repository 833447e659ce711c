//! The labels of tasks in the order in which their creations stand in the code.

ghost use Rattle.std.specs.Prelude.{◌≡◌, ◌∷◌, ◌++◌, [], IfOk, OnOk, option_map};
ghost use Rattle.oss_meaning.specs.Names.{functions_of};
ghost use Rattle.oss_labels.specs.Creations.{labels_in_code, marked};
ghost use Rattle.oss_labels.specs.Labels.{body_labels, label_in, part_labels, stmt_labels};

use crate::clauses::label_of;
use oss_syntax::{Boxed, Bytes, Function, Item, Stmt, StmtKind, TaskMark};
use std::alloc::{AllocError, Global};

/// The labels of the tasks of a program, `None` for one without, in the order in which their creations stand in its code.
pub(crate) fn labels_in_code(
    alloc: Global,
    items: &[Item],
) -> Result<Vec<Option<Bytes>>, AllocError>
    ensures { IfOk result (λ labels. labels.items ≡ labels_in_code (functions_of items.now)) }
{
    let mut labels = Vec::new(alloc);
    for item in items {
        match item {
            Item::Global(_) => {}
            Item::Function(one) => function(alloc, one, &mut labels)?,
        }
    }
    Ok(labels)
}

/// Adds the labels of a function: that of its own pragma, and those of the task statements in it.
fn function(
    alloc: Global,
    one: &Function,
    labels: &mut Vec<Option<Bytes>>,
) -> Result<(), AllocError>
    ensures { OnOk result (labels.new.items ≡ labels.old.items ++ marked one.now.mark ++ (body_labels one.now.body).in_code) }
{
    add_mark(alloc, &one.mark, labels)?;
    statements(alloc, one.body.as_slice(), labels)
}

/// Adds the label of a pragma, if it stands there.
fn add_mark(
    alloc: Global,
    mark: &Option<TaskMark>,
    labels: &mut Vec<Option<Bytes>>,
) -> Result<(), AllocError>
    ensures { OnOk result (labels.new.items ≡ labels.old.items ++ marked mark.now) }
{
    if let Some(mark) = mark {
        return add_label(alloc, mark, labels);
    }
    Ok(())
}

/// Adds the label of a pragma.
fn add_label(
    alloc: Global,
    mark: &TaskMark,
    labels: &mut Vec<Option<Bytes>>,
) -> Result<(), AllocError>
    ensures { OnOk result (labels.new.items ≡ labels.old.items ++ label_in mark.now.clauses ∷ []) }
{
    let label = label_of(alloc, mark.clauses.as_slice())?;
    labels.push(label)?;
    Ok(())
}

/// Adds the labels of the task statements in these statements.
#[cycle(statements)]
fn statements(
    alloc: Global,
    list: &[Stmt],
    labels: &mut Vec<Option<Bytes>>,
) -> Result<(), AllocError>
    ensures { OnOk result (labels.new.items ≡ labels.old.items ++ (body_labels list.now).in_code) }
{
    for one in list {
        statement(alloc, one, labels)?;
    }
    Ok(())
}

/// Adds the labels of the task statements in a statement.
#[cycle(statements)]
fn statement(alloc: Global, one: &Stmt, labels: &mut Vec<Option<Bytes>>) -> Result<(), AllocError>
    ensures { OnOk result (labels.new.items ≡ labels.old.items ++ (stmt_labels one.now).in_code) }
{
    match &one.what {
        StmtKind::Block(list) => statements(alloc, list.as_slice(), labels),
        StmtKind::If(_, side, other) => {
            statement(alloc, side.get(), labels)?;
            part(alloc, other, labels)
        }
        StmtKind::While(_, body) => statement(alloc, body.get(), labels),
        StmtKind::For(first, _, last, body) => {
            part(alloc, first, labels)?;
            statement(alloc, body.get(), labels)?;
            part(alloc, last, labels)
        }
        StmtKind::Task(mark, body) => {
            add_label(alloc, mark, labels)?;
            statement(alloc, body.get(), labels)
        }
        StmtKind::Empty => Ok(()),
        StmtKind::Declare(_) => Ok(()),
        StmtKind::Assign(_, _, _) => Ok(()),
        StmtKind::Call(_, _) => Ok(()),
        StmtKind::Print(_, _) => Ok(()),
        StmtKind::Return(_) => Ok(()),
        StmtKind::Break => Ok(()),
        StmtKind::Continue => Ok(()),
        StmtKind::TaskLoop(_, _) => Ok(()),
        StmtKind::TaskWait(_) => Ok(()),
        StmtKind::Release(_) => Ok(()),
    }
}

/// Adds the labels of the task statements in a statement that may be left out.
#[cycle(statements)]
fn part(
    alloc: Global,
    one: &Option<Boxed<Stmt>>,
    labels: &mut Vec<Option<Bytes>>,
) -> Result<(), AllocError>
    ensures { OnOk result (labels.new.items ≡ labels.old.items ++ (part_labels (option_map stmt_labels one.now)).in_code) }
{
    match one {
        Some(one) => statement(alloc, one.get(), labels),
        None => Ok(()),
    }
}
