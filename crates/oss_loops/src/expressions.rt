//! The expressions, assignments and locals of which a task loop written out is made. All that is made has one line.
ghost use Rattle.std.specs.Prelude.{◌≡◌, [], ◌∷◌, ◌++◌, IfOk, OnErr, OnOk};
ghost use Rattle.oss_grammar.specs.TaskLoops.{joined_at, long_at, name_at, number_at, set_at};
ghost use Rattle.oss_loops.specs.LoopParts.{or_number};

use oss_syntax::{BinOp, Boxed, Expr, ExprKind, Kind, List, Local, Name, NumKind, Stmt, StmtKind};
use std::alloc::{AllocError, Global};

/// A name, as an expression.
pub(crate) fn named(line: u32, name: Name) -> Expr
    ensures { result ≡ name_at line name }
{
    Expr {
        what: ExprKind::Name(name),
        line,
    }
}

/// A number, as an expression.
pub(crate) fn number(line: u32, value: u64) -> Expr
    ensures { result ≡ number_at line value }
{
    Expr {
        what: ExprKind::Number(value, false),
        line,
    }
}

/// An expression where there is one, and else a number.
pub(crate) fn given_or(line: u32, value: u64, given: Option<Expr>) -> Expr
    ensures { result ≡ or_number line value given }
{
    match given {
        Some(given) => given,
        None => number(line, value),
    }
}

/// Two expressions with an operator between them.
pub(crate) fn joined(
    alloc: Global,
    line: u32,
    operator: BinOp,
    left: Expr,
    right: Expr,
) -> Result<Expr, AllocError>
    ensures { IfOk result (λ joined. joined ≡ joined_at line operator left right) }
{
    match Boxed::new(alloc, left) {
        Ok(left) => joined_behind(alloc, line, operator, left, right),
        Err(full) => {
            drop(right);
            Err(full)
        }
    }
}

/// The same with the one on the left in its box.
fn joined_behind(
    alloc: Global,
    line: u32,
    operator: BinOp,
    left: Boxed<Expr>,
    right: Expr,
) -> Result<Expr, AllocError>
    ensures { IfOk result (λ joined. joined ≡ joined_at line operator left right) }
{
    let right = Boxed::new(alloc, right)?;
    Ok(Expr {
        what: ExprKind::Binary(operator, left, right),
        line,
    })
}

/// Two names with an operator between them.
pub(crate) fn joined_names(
    alloc: Global,
    line: u32,
    operator: BinOp,
    left: Name,
    right: Name,
) -> Result<Expr, AllocError>
    ensures { IfOk result (λ joined. joined ≡ joined_at line operator (name_at line left) (name_at line right)) }
{
    joined(alloc, line, operator, named(line, left), named(line, right))
}

/// An assignment to a name.
pub(crate) fn set(alloc: Global, line: u32, name: Name, value: Expr) -> Result<Stmt, AllocError>
    ensures { IfOk result (λ set. set ≡ set_at line name value) }
{
    match Boxed::new(alloc, value) {
        Ok(value) => set_to(alloc, line, name, value),
        Err(full) => {
            drop(name);
            Err(full)
        }
    }
}

/// The same with the value in its box.
fn set_to(alloc: Global, line: u32, name: Name, value: Boxed<Expr>) -> Result<Stmt, AllocError>
    ensures { IfOk result (λ set. set ≡ set_at line name value) }
{
    match Boxed::new(alloc, named(line, name)) {
        Ok(target) => Ok(Stmt {
            what: StmtKind::Assign(target, None, value),
            line,
        }),
        Err(full) => {
            drop(value);
            Err(full)
        }
    }
}

/// Adds a local of the type `long` with its initial value at the end. Out of memory, nothing is added.
pub(crate) fn add_local(
    line: u32,
    name: Name,
    first: Expr,
    locals: &mut List<Local>,
) -> Result<(), AllocError>
    ensures ok { OnOk result (locals.new ≡ locals.old ++ long_at line name first ∷ []) }
    ensures err { OnErr result (locals.new ≡ locals.old) }
{
    locals.push(Local {
        name,
        kind: Kind::Num(NumKind::Long),
        first: Some(first),
        line,
    })
}
