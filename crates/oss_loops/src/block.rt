//! The block that a task loop is written out as.
ghost use Rattle.std.specs.Prelude.{◌≡◌, [], ◌∷◌, ◌++◌, None, IfOk, OnOk};
ghost use Rattle.oss_syntax.specs.declared.tree.expr.BinOp.TheVariants as op;
ghost use Rattle.oss_syntax.specs.declared.tree.stmt.StmtKind.TheVariants as stmts;
ghost use Rattle.oss_grammar.specs.TaskLoops.{begin_name, end_name, grain_name, joined_at, long_at, name_at, number_at, set_at, stmt_at, written};
ghost use Rattle.oss_loops.specs.LoopParts.{block_locals, block_of, grain_raised, last_locals, loop_bounds, loop_with, round_with, task_parts};

use crate::expressions::{add_local, joined, joined_names, named, number, set};
use crate::names::{name_of_begin, name_of_end, name_of_grain};
use crate::parts::{Bounds, LoopParts, TaskParts, taken_apart};
use crate::round::round;
use oss_syntax::{BinOp, Boxed, Expr, List, Local, LoopHead, Stmt, StmtKind};
use std::alloc::{AllocError, Global};

/// The block that a task loop means (OmpSs-2, the taskloop directive): it works out the first value, the end
/// and the grainsize once, and creates a task for so many turns at a time, the last one for those that are
/// left. The line is that of the `#`. The loop is taken by value: its clauses, its first value, its end and its
/// statement come once into the block, and its variable is copied.
///
/// Want of memory is the one error.
pub fn written(
    alloc: Global,
    line: u32,
    head: LoopHead,
    body: Boxed<Stmt>,
) -> Result<Stmt, AllocError>
    ensures { IfOk result (λ block. block ≡ written line head body) }
{
    let parts = taken_apart(alloc, line, head)?;
    block(alloc, line, parts, body)
}

/// The block of a loop with these parts.
fn block(alloc: Global, line: u32, parts: LoopParts, body: Boxed<Stmt>) -> Result<Stmt, AllocError>
    ensures { IfOk result (λ block. block ≡ block_of line parts.bounds
        (loop_with line (round_with line parts.task body))) }
{
    let mut inside = List::new(alloc);
    fill_block(alloc, line, parts, body, &mut inside)?;
    Ok(Stmt {
        what: StmtKind::Block(inside),
        line,
    })
}

/// Adds the statements of the block.
fn fill_block(
    alloc: Global,
    line: u32,
    parts: LoopParts,
    body: Boxed<Stmt>,
    inside: &mut List<Stmt>,
) -> Result<(), AllocError>
    ensures { OnOk result (inside.new ≡ inside.old ++
        stmt_at line (stmts.Declare (block_locals line parts.bounds)) ∷ grain_raised line ∷ loop_with line
        (round_with line parts.task body) ∷ []) }
{
    let LoopParts { bounds, task } = parts;
    add_locals_of_block(alloc, line, bounds, inside)?;
    fill_behind_locals(alloc, line, task, body, inside)
}

/// Adds the statements of the block behind its locals.
fn fill_behind_locals(
    alloc: Global,
    line: u32,
    task: TaskParts,
    body: Boxed<Stmt>,
    inside: &mut List<Stmt>,
) -> Result<(), AllocError>
    ensures { OnOk result (inside.new ≡ inside.old ++ grain_raised line ∷ loop_with line
        (round_with line task body) ∷ []) }
{
    add_raised_grain(alloc, line, inside)?;
    add_rounds(alloc, line, task, body, inside)
}

/// Adds the loop that creates the tasks.
fn add_rounds(
    alloc: Global,
    line: u32,
    task: TaskParts,
    body: Boxed<Stmt>,
    inside: &mut List<Stmt>,
) -> Result<(), AllocError>
    ensures { OnOk result (inside.new ≡ inside.old ++ loop_with line (round_with line task body) ∷ []) }
{
    let rounds = rounds(alloc, line, task, body)?;
    inside.push(rounds)
}

/// The loop that creates the tasks.
fn rounds(alloc: Global, line: u32, task: TaskParts, body: Boxed<Stmt>) -> Result<Stmt, AllocError>
    ensures { IfOk result (λ rounds. rounds ≡ loop_with line (round_with line task body)) }
{
    let round = round(alloc, line, task, body)?;
    looping(alloc, line, round)
}

/// The loop that does this round until no turn is left.
fn looping(alloc: Global, line: u32, round: Stmt) -> Result<Stmt, AllocError>
    ensures { IfOk result (λ rounds. rounds ≡ loop_with line round) }
{
    let body = Boxed::new(alloc, round)?;
    let test = turns_left(alloc, line)?;
    Ok(Stmt {
        what: StmtKind::While(test, body),
        line,
    })
}

/// Whether a turn is left, in a box.
fn turns_left(alloc: Global, line: u32) -> Result<Boxed<Expr>, AllocError>
    ensures { IfOk result (λ test. test ≡ joined_at line op.Less (name_at line begin_name) (name_at line end_name)) }
{
    let begin = name_of_begin(alloc)?;
    let end = name_of_end(alloc)?;
    let left = joined_names(alloc, line, BinOp::Less, begin, end)?;
    Boxed::new(alloc, left)
}

/// Adds the declaration of the locals of the block.
fn add_locals_of_block(
    alloc: Global,
    line: u32,
    bounds: Bounds,
    inside: &mut List<Stmt>,
) -> Result<(), AllocError>
    ensures { OnOk result (inside.new ≡ inside.old ++ stmt_at line (stmts.Declare (block_locals line bounds)) ∷ []) }
{
    let mut locals = List::new(alloc);
    fill_locals(alloc, line, bounds, &mut locals)?;
    inside.push(Stmt {
        what: StmtKind::Declare(locals),
        line,
    })
}

/// Adds the locals of the block.
fn fill_locals(
    alloc: Global,
    line: u32,
    bounds: Bounds,
    locals: &mut List<Local>,
) -> Result<(), AllocError>
    ensures { OnOk result (locals.new ≡ locals.old ++ block_locals line bounds) }
{
    let Bounds { first, end, grain } = bounds;
    match add_begin(alloc, line, first, locals) {
        Ok(()) => fill_last_locals(alloc, line, end, grain, locals),
        Err(full) => {
            drop(end);
            drop(grain);
            Err(full)
        }
    }
}

/// Adds the local that tells where the next task begins.
fn add_begin(
    alloc: Global,
    line: u32,
    first: Expr,
    locals: &mut List<Local>,
) -> Result<(), AllocError>
    ensures { OnOk result (locals.new ≡ locals.old ++ long_at line begin_name first ∷ []) }
{
    match name_of_begin(alloc) {
        Ok(name) => add_local(line, name, first, locals),
        Err(full) => {
            drop(first);
            Err(full)
        }
    }
}

/// Adds the locals that tell where the loop ends and how many turns a task makes.
fn fill_last_locals(
    alloc: Global,
    line: u32,
    end: Expr,
    grain: Expr,
    locals: &mut List<Local>,
) -> Result<(), AllocError>
    ensures { OnOk result (locals.new ≡ locals.old ++ last_locals line end grain) }
{
    match add_end(alloc, line, end, locals) {
        Ok(()) => add_grain(alloc, line, grain, locals),
        Err(full) => {
            drop(grain);
            Err(full)
        }
    }
}

/// Adds the local that tells where the loop ends.
fn add_end(alloc: Global, line: u32, end: Expr, locals: &mut List<Local>) -> Result<(), AllocError>
    ensures { OnOk result (locals.new ≡ locals.old ++ long_at line end_name end ∷ []) }
{
    match name_of_end(alloc) {
        Ok(name) => add_local(line, name, end, locals),
        Err(full) => {
            drop(end);
            Err(full)
        }
    }
}

/// Adds the local that tells how many turns a task makes.
fn add_grain(
    alloc: Global,
    line: u32,
    grain: Expr,
    locals: &mut List<Local>,
) -> Result<(), AllocError>
    ensures { OnOk result (locals.new ≡ locals.old ++ long_at line grain_name grain ∷ []) }
{
    match name_of_grain(alloc) {
        Ok(name) => add_local(line, name, grain, locals),
        Err(full) => {
            drop(grain);
            Err(full)
        }
    }
}

/// Adds that a task makes one turn where fewer are told.
fn add_raised_grain(alloc: Global, line: u32, inside: &mut List<Stmt>) -> Result<(), AllocError>
    ensures { OnOk result (inside.new ≡ inside.old ++ grain_raised line ∷ []) }
{
    let branch = one_turn(alloc, line)?;
    let test = no_turn(alloc, line)?;
    inside.push(Stmt {
        what: StmtKind::If(test, branch, None),
        line,
    })
}

/// Whether fewer turns than one are told, in a box.
fn no_turn(alloc: Global, line: u32) -> Result<Boxed<Expr>, AllocError>
    ensures { IfOk result (λ test. test ≡ joined_at line op.Less (name_at line grain_name) (number_at line 1)) }
{
    let grain = named(line, name_of_grain(alloc)?);
    let less = joined(alloc, line, BinOp::Less, grain, number(line, 1))?;
    Boxed::new(alloc, less)
}

/// That a task makes one turn, in a box.
fn one_turn(alloc: Global, line: u32) -> Result<Boxed<Stmt>, AllocError>
    ensures { IfOk result (λ set. set ≡ set_at line grain_name (number_at line 1)) }
{
    let grain = name_of_grain(alloc)?;
    let set = set(alloc, line, grain, number(line, 1))?;
    Boxed::new(alloc, set)
}
