//! Statements with each task loop in them written out. A statement is taken by value, and its parts come into
//! the new one.
ghost use Rattle.std.specs.Prelude.{◌≡◌, [], ◌∷◌, ◌++◌, map, option_map, IfOk, OnOk};
ghost use Rattle.oss_syntax.specs.declared.tree.stmt.StmtKind.TheVariants as stmts;
ghost use Rattle.oss_grammar.specs.TaskLoops.{stmt_at, written, written_out};

use crate::block::written;
use oss_syntax::{Boxed, Expr, List, LoopHead, Stmt, StmtKind, TaskMark};
use std::alloc::{AllocError, Global};

/// The parts of a `for` that are statements.
#[derive(Drop)]
struct ForParts {
    start: Option<Boxed<Stmt>>,
    step: Option<Boxed<Stmt>>,
    body: Boxed<Stmt>,
}

/// Statements, each with the task loops in it written out.
#[cycle(statements)]
pub(crate) fn statements(alloc: Global, list: List<Stmt>) -> Result<List<Stmt>, AllocError>
    ensures { IfOk result (λ done. done ≡ map written_out list) }
{
    let mut done = List::new(alloc);
    for one in list.into_vec() {
        add(alloc, one, &mut done)?;
    }
    Ok(done)
}

/// Adds a statement with the task loops in it written out.
#[cycle(statements)]
fn add(alloc: Global, one: Stmt, done: &mut List<Stmt>) -> Result<(), AllocError>
    ensures { OnOk result (done.new ≡ done.old ++ written_out one ∷ []) }
{
    let one = statement(alloc, one)?;
    done.push(one)
}

/// A statement with the task loops in it written out.
#[cycle(statements)]
fn statement(alloc: Global, one: Stmt) -> Result<Stmt, AllocError>
    ensures { IfOk result (λ done. done ≡ written_out one) }
{
    let Stmt { what, line } = one;
    match what {
        StmtKind::Block(list) => block(alloc, line, list),
        StmtKind::If(test, then, other) => branches(alloc, line, test, then, other),
        StmtKind::While(test, body) => while_loop(alloc, line, test, body),
        StmtKind::For(start, test, step, body) => {
            for_loop(alloc, line, test, ForParts { start, step, body })
        }
        StmtKind::Task(mark, body) => task(alloc, line, mark, body),
        StmtKind::TaskLoop(head, body) => task_loop(alloc, line, head, body),
        StmtKind::Empty => Ok(at(line, StmtKind::Empty)),
        StmtKind::Declare(locals) => Ok(at(line, StmtKind::Declare(locals))),
        StmtKind::Assign(target, operator, value) => {
            Ok(at(line, StmtKind::Assign(target, operator, value)))
        }
        StmtKind::Call(name, values) => Ok(at(line, StmtKind::Call(name, values))),
        StmtKind::Print(format, values) => Ok(at(line, StmtKind::Print(format, values))),
        StmtKind::Return(value) => Ok(at(line, StmtKind::Return(value))),
        StmtKind::Break => Ok(at(line, StmtKind::Break)),
        StmtKind::Continue => Ok(at(line, StmtKind::Continue)),
        StmtKind::TaskWait(sections) => Ok(at(line, StmtKind::TaskWait(sections))),
        StmtKind::Release(clauses) => Ok(at(line, StmtKind::Release(clauses))),
    }
}

/// A statement on a line.
fn at(line: u32, what: StmtKind) -> Stmt
    ensures { result ≡ stmt_at line what }
{
    Stmt { what, line }
}

/// A boxed statement with the task loops in it written out.
#[cycle(statements)]
fn within(alloc: Global, one: Boxed<Stmt>) -> Result<Boxed<Stmt>, AllocError>
    ensures { IfOk result (λ done. done ≡ written_out one) }
{
    let done = statement(alloc, one.into_inner())?;
    Boxed::new(alloc, done)
}

/// The same of a statement that may be left out.
#[cycle(statements)]
fn part(alloc: Global, one: Option<Boxed<Stmt>>) -> Result<Option<Boxed<Stmt>>, AllocError>
    ensures { IfOk result (λ done. done ≡ option_map written_out one) }
{
    match one {
        Some(one) => {
            let done = within(alloc, one)?;
            Ok(Some(done))
        }
        None => Ok(None),
    }
}

/// A block; where memory is wanting nothing is left of it, as of each statement here.
#[cycle(statements)]
fn block(alloc: Global, line: u32, list: List<Stmt>) -> Result<Stmt, AllocError>
    ensures { IfOk result (λ done. done ≡ stmt_at line (stmts.Block (map written_out list))) }
{
    let list = statements(alloc, list)?;
    Ok(at(line, StmtKind::Block(list)))
}

/// An `if`. Its test has no statements in it, and comes into the new one as it is.
#[cycle(statements)]
fn branches(
    alloc: Global,
    line: u32,
    test: Boxed<Expr>,
    then: Boxed<Stmt>,
    other: Option<Boxed<Stmt>>,
) -> Result<Stmt, AllocError>
    ensures { IfOk result (λ done. done ≡ stmt_at line (stmts.If test (written_out then)
        (option_map written_out other))) }
{
    match both(alloc, then, other) {
        Ok(done) => {
            let (then, other) = done;
            Ok(at(line, StmtKind::If(test, then, other)))
        }
        Err(full) => {
            drop(test);
            Err(full)
        }
    }
}

/// Both branches of an `if`.
#[cycle(statements)]
fn both(
    alloc: Global,
    then: Boxed<Stmt>,
    other: Option<Boxed<Stmt>>,
) -> Result<(Boxed<Stmt>, Option<Boxed<Stmt>>), AllocError>
    ensures then { IfOk result (λ done. done.0 ≡ written_out then) }
    ensures other { IfOk result (λ done. done.1 ≡ option_map written_out other) }
{
    let then = within(alloc, then)?;
    let other = part(alloc, other)?;
    Ok((then, other))
}

/// A `while`, with its test as it is. Where memory is wanting the test is let go with the rest.
#[cycle(statements)]
fn while_loop(
    alloc: Global,
    line: u32,
    test: Boxed<Expr>,
    body: Boxed<Stmt>,
) -> Result<Stmt, AllocError>
    ensures { IfOk result (λ done. done ≡ stmt_at line (stmts.While test (written_out body))) }
{
    match within(alloc, body) {
        Ok(body) => Ok(at(line, StmtKind::While(test, body))),
        Err(full) => {
            drop(test);
            Err(full)
        }
    }
}

/// A `for`. It stays one and becomes no `while`, so that `continue` still leads to its last part.
#[cycle(statements)]
fn for_loop(
    alloc: Global,
    line: u32,
    test: Boxed<Option<Expr>>,
    parts: ForParts,
) -> Result<Stmt, AllocError>
    ensures { IfOk result (λ done. done ≡ stmt_at line (stmts.For (option_map written_out parts.start) test
        (option_map written_out parts.step) (written_out parts.body))) }
{
    match for_parts(alloc, parts) {
        Ok(done) => {
            let ForParts { start, step, body } = done;
            Ok(at(line, StmtKind::For(start, test, step, body)))
        }
        Err(full) => {
            drop(test);
            Err(full)
        }
    }
}

/// The statements of a `for`.
#[cycle(statements)]
fn for_parts(alloc: Global, parts: ForParts) -> Result<ForParts, AllocError>
    ensures start { IfOk result (λ done. done.start ≡ option_map written_out parts.start) }
    ensures step { IfOk result (λ done. done.step ≡ option_map written_out parts.step) }
    ensures body { IfOk result (λ done. done.body ≡ written_out parts.body) }
{
    let ForParts { start, step, body } = parts;
    let (body, start) = both(alloc, body, start)?;
    let step = part(alloc, step)?;
    Ok(ForParts { start, step, body })
}

/// A task statement. Its clauses have no statements in them, and stay as they are.
#[cycle(statements)]
fn task(alloc: Global, line: u32, mark: TaskMark, body: Boxed<Stmt>) -> Result<Stmt, AllocError>
    ensures { IfOk result (λ done. done ≡ stmt_at line (stmts.Task mark (written_out body))) }
{
    let body = within(alloc, body)?;
    Ok(at(line, StmtKind::Task(mark, body)))
}

/// A task loop. Those in its body are written out first, and then it is.
#[cycle(statements)]
fn task_loop(
    alloc: Global,
    line: u32,
    head: Boxed<LoopHead>,
    body: Boxed<Stmt>,
) -> Result<Stmt, AllocError>
    ensures { IfOk result (λ done. done ≡ written line head (written_out body)) }
{
    match within(alloc, body) {
        Ok(body) => written(alloc, line, head.into_inner(), body),
        Err(full) => {
            drop(head);
            Err(full)
        }
    }
}
