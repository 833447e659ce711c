//! One round of the loop that creates the tasks, and the task that it creates.
ghost use Rattle.std.specs.Prelude.{◌≡◌, [], ◌∷◌, ◌++◌, Some, None, IfOk, OnOk};
ghost use Rattle.oss_syntax.specs.declared.tree.expr.BinOp.TheVariants as op;
ghost use Rattle.oss_syntax.specs.declared.tree.stmt.StmtKind.TheVariants as stmts;
ghost use Rattle.oss_grammar.specs.TaskLoops.{begin_name, end_name, grain_name, joined_at, name_at, number_at, set_at, stmt_at, stop_name};
ghost use Rattle.oss_loops.specs.LoopParts.{round_locals, round_with, stop_moved, task_with, turns_with};

use crate::expressions::{add_local, joined, joined_names, named, number, set};
use crate::names::{name_of_begin, name_of_end, name_of_grain, name_of_stop};
use crate::parts::TaskParts;
use oss_syntax::{BinOp, Boxed, Expr, List, Local, Name, Stmt, StmtKind, TaskMark};
use std::alloc::{AllocError, Global};

/// The round whose task has these parts and does its turns of this statement.
pub(crate) fn round(
    alloc: Global,
    line: u32,
    task: TaskParts,
    body: Boxed<Stmt>,
) -> Result<Stmt, AllocError>
    ensures { IfOk result (λ round. round ≡ round_with line task body) }
{
    let mut inside = List::new(alloc);
    fill_round(alloc, line, task, body, &mut inside)?;
    Ok(Stmt {
        what: StmtKind::Block(inside),
        line,
    })
}

/// Adds the statements of a round.
fn fill_round(
    alloc: Global,
    line: u32,
    task: TaskParts,
    body: Boxed<Stmt>,
    inside: &mut List<Stmt>,
) -> Result<(), AllocError>
    ensures { OnOk result (inside.new ≡ inside.old ++
        stmt_at line (stmts.Declare (round_locals line task.variable)) ∷ stop_moved line ∷
        task_with line task body ∷ set_at line begin_name (name_at line stop_name) ∷ []) }
{
    add_locals_of_round(alloc, line, task.variable.as_slice(), inside)?;
    fill_behind_locals(alloc, line, task, body, inside)
}

/// Adds the statements of a round behind its locals.
fn fill_behind_locals(
    alloc: Global,
    line: u32,
    task: TaskParts,
    body: Boxed<Stmt>,
    inside: &mut List<Stmt>,
) -> Result<(), AllocError>
    ensures { OnOk result (inside.new ≡ inside.old ++ stop_moved line ∷ task_with line task body ∷
        set_at line begin_name (name_at line stop_name) ∷ []) }
{
    add_moved_stop(alloc, line, inside)?;
    add_task(alloc, line, task, body, inside)?;
    add_next(alloc, line, inside)
}

/// Adds the task.
fn add_task(
    alloc: Global,
    line: u32,
    task: TaskParts,
    body: Boxed<Stmt>,
    inside: &mut List<Stmt>,
) -> Result<(), AllocError>
    ensures { OnOk result (inside.new ≡ inside.old ++ task_with line task body ∷ []) }
{
    let task = one_task(alloc, line, task, body)?;
    inside.push(task)
}

/// The task.
fn one_task(
    alloc: Global,
    line: u32,
    task: TaskParts,
    body: Boxed<Stmt>,
) -> Result<Stmt, AllocError>
    ensures { IfOk result (λ one. one ≡ task_with line task body) }
{
    let TaskParts {
        variable,
        clauses,
        mark_line,
        for_line,
    } = task;
    let turns = turns(alloc, for_line, variable.as_slice(), body)?;
    let mark = TaskMark {
        clauses,
        line: mark_line,
    };
    Ok(Stmt {
        what: StmtKind::Task(mark, turns),
        line,
    })
}

/// The turns of one task, in a box.
fn turns(
    alloc: Global,
    line: u32,
    variable: &[u8],
    body: Boxed<Stmt>,
) -> Result<Boxed<Stmt>, AllocError>
    ensures { IfOk result (λ turns. turns ≡ turns_with line variable.now body) }
{
    let (test, step) = turning(alloc, line, variable)?;
    Boxed::new(
        alloc,
        Stmt {
            what: StmtKind::For(None, test, Some(step), body),
            line,
        },
    )
}

/// The test and the step of the turns of one task.
fn turning(
    alloc: Global,
    line: u32,
    variable: &[u8],
) -> Result<(Boxed<Option<Expr>>, Boxed<Stmt>), AllocError>
    ensures test { IfOk result (λ parts. parts.0 ≡ Some (joined_at line op.Less (name_at line variable.now)
        (name_at line stop_name))) }
    ensures step { IfOk result (λ parts. parts.1 ≡ stmt_at line (stmts.Assign (name_at line variable.now)
        (Some op.Add) (number_at line 1))) }
{
    let step = step(alloc, line, variable)?;
    let test = in_turns(alloc, line, variable)?;
    Ok((test, step))
}

/// Whether a turn of one task is left, in a box.
fn in_turns(alloc: Global, line: u32, variable: &[u8]) -> Result<Boxed<Option<Expr>>, AllocError>
    ensures { IfOk result (λ test. test ≡ Some (joined_at line op.Less (name_at line variable.now)
        (name_at line stop_name))) }
{
    let tested = Name::from_slice(alloc, variable)?;
    let test = joined_names(alloc, line, BinOp::Less, tested, name_of_stop(alloc)?)?;
    Boxed::new(alloc, Some(test))
}

/// The step of the turns of one task, in a box.
fn step(alloc: Global, line: u32, variable: &[u8]) -> Result<Boxed<Stmt>, AllocError>
    ensures { IfOk result (λ step. step ≡ stmt_at line (stmts.Assign (name_at line variable.now) (Some op.Add)
        (number_at line 1))) }
{
    let (target, one) = stepped(alloc, line, variable)?;
    Boxed::new(
        alloc,
        Stmt {
            what: StmtKind::Assign(target, Some(BinOp::Add), one),
            line,
        },
    )
}

/// The variable and the number one, each in a box.
fn stepped(
    alloc: Global,
    line: u32,
    variable: &[u8],
) -> Result<(Boxed<Expr>, Boxed<Expr>), AllocError>
    ensures target { IfOk result (λ parts. parts.0 ≡ name_at line variable.now) }
    ensures one { IfOk result (λ parts. parts.1 ≡ number_at line 1) }
{
    let target = Boxed::new(alloc, named(line, Name::from_slice(alloc, variable)?))?;
    let one = Boxed::new(alloc, number(line, 1))?;
    Ok((target, one))
}

/// Adds the declaration of the locals of a round.
fn add_locals_of_round(
    alloc: Global,
    line: u32,
    variable: &[u8],
    inside: &mut List<Stmt>,
) -> Result<(), AllocError>
    ensures { OnOk result (inside.new ≡ inside.old ++
        stmt_at line (stmts.Declare (round_locals line variable.now)) ∷ []) }
{
    let variable = Name::from_slice(alloc, variable)?;
    let mut locals = List::new(alloc);
    fill_locals_of_round(alloc, line, variable, &mut locals)?;
    inside.push(Stmt {
        what: StmtKind::Declare(locals),
        line,
    })
}

/// Adds the locals of a round: the variable, which begins where the task does, and where the task ends.
fn fill_locals_of_round(
    alloc: Global,
    line: u32,
    variable: Name,
    locals: &mut List<Local>,
) -> Result<(), AllocError>
    ensures { OnOk result (locals.new ≡ locals.old ++ round_locals line variable) }
{
    let begin = named(line, name_of_begin(alloc)?);
    add_local(line, variable, begin, locals)?;
    let stop = name_of_stop(alloc)?;
    let end = named(line, name_of_end(alloc)?);
    add_local(line, stop, end, locals)
}

/// Adds that a task ends early where more turns are left than it makes.
fn add_moved_stop(alloc: Global, line: u32, inside: &mut List<Stmt>) -> Result<(), AllocError>
    ensures { OnOk result (inside.new ≡ inside.old ++ stop_moved line ∷ []) }
{
    let branch = moved(alloc, line)?;
    let test = more_left(alloc, line)?;
    inside.push(Stmt {
        what: StmtKind::If(test, branch, None),
        line,
    })
}

/// Whether more turns are left than a task makes, in a box.
fn more_left(alloc: Global, line: u32) -> Result<Boxed<Expr>, AllocError>
    ensures { IfOk result (λ test. test ≡ joined_at line op.More (joined_at line op.Sub (name_at line end_name)
        (name_at line begin_name)) (name_at line grain_name)) }
{
    let end = name_of_end(alloc)?;
    let begin = name_of_begin(alloc)?;
    let grain = name_of_grain(alloc)?;
    let left = joined_names(alloc, line, BinOp::Sub, end, begin)?;
    let more = joined(alloc, line, BinOp::More, left, named(line, grain))?;
    Boxed::new(alloc, more)
}

/// That a task ends behind so many turns, in a box.
fn moved(alloc: Global, line: u32) -> Result<Boxed<Stmt>, AllocError>
    ensures { IfOk result (λ moved. moved ≡ set_at line stop_name
        (joined_at line op.Add (name_at line begin_name) (name_at line grain_name))) }
{
    let stop = name_of_stop(alloc)?;
    let begin = name_of_begin(alloc)?;
    let grain = name_of_grain(alloc)?;
    let behind = joined_names(alloc, line, BinOp::Add, begin, grain)?;
    let moved = set(alloc, line, stop, behind)?;
    Boxed::new(alloc, moved)
}

/// Adds that the next task begins where this one ends.
fn add_next(alloc: Global, line: u32, inside: &mut List<Stmt>) -> Result<(), AllocError>
    ensures { OnOk result (inside.new ≡ inside.old ++ set_at line begin_name (name_at line stop_name) ∷ []) }
{
    let begin = name_of_begin(alloc)?;
    let stop = name_of_stop(alloc)?;
    let next = set(alloc, line, begin, named(line, stop))?;
    inside.push(next)
}
