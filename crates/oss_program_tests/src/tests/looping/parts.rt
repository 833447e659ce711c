//! The parts of trees that are of the kind that is expected.

use oss_syntax::{BinOp, Expr, ExprKind, Function, Item, List, Local, Program, Stmt, StmtKind};
use std::process::Abort;

/// The statements of a block.
fn block<'a>(rt: &impl Abort, one: &'a Stmt) -> &'a List<Stmt> {
    match &one.what {
        StmtKind::Block(list) => list,
        _ => panic!(rt; "no block"),
    }
}

/// How many statements a block has.
pub(crate) fn count(rt: &impl Abort, one: &Stmt) -> usize {
    block(rt, one).len()
}

/// The statement at a place in a block.
pub(crate) fn statement<'a>(rt: &impl Abort, one: &'a Stmt, at: usize) -> &'a Stmt {
    block(rt, one).get(at).expect(rt, "a statement")
}

/// The locals of a declaration.
pub(crate) fn locals<'a>(rt: &impl Abort, one: &'a Stmt) -> &'a List<Local> {
    match &one.what {
        StmtKind::Declare(list) => list,
        _ => panic!(rt; "no declaration"),
    }
}

/// The statement of a loop or of a task.
pub(crate) fn body<'a>(rt: &impl Abort, one: &'a Stmt) -> &'a Stmt {
    match &one.what {
        StmtKind::While(_, body) => body.get(),
        StmtKind::For(_, _, _, body) => body.get(),
        StmtKind::Task(_, body) => body.get(),
        _ => panic!(rt; "no loop and no task"),
    }
}

/// The test of a loop or of an `if`.
pub(crate) fn test<'a>(rt: &impl Abort, one: &'a Stmt) -> &'a Expr {
    match &one.what {
        StmtKind::While(test, _) => test.get(),
        StmtKind::If(test, _, _) => test.get(),
        StmtKind::For(_, test, _, _) => test.get().as_ref().expect(rt, "a test"),
        _ => panic!(rt; "no test"),
    }
}

/// The step of a `for` without a first part.
pub(crate) fn step<'a>(rt: &impl Abort, one: &'a Stmt) -> &'a Stmt {
    match &one.what {
        StmtKind::For(start, _, step, _) => {
            assert!(rt; start.is_none());
            step.as_ref().expect(rt, "a step").get()
        }
        _ => panic!(rt; "no for"),
    }
}

/// The branch of an `if` without an `else`.
pub(crate) fn branch<'a>(rt: &impl Abort, one: &'a Stmt) -> &'a Stmt {
    match &one.what {
        StmtKind::If(_, branch, other) => {
            assert!(rt; other.is_none());
            branch.get()
        }
        _ => panic!(rt; "no if"),
    }
}

/// The branch behind an `else`.
pub(crate) fn other_branch<'a>(rt: &impl Abort, one: &'a Stmt) -> &'a Stmt {
    match &one.what {
        StmtKind::If(_, _, other) => other.as_ref().expect(rt, "an else").get(),
        _ => panic!(rt; "no if"),
    }
}

/// The target and the right side of an assignment with this operator.
pub(crate) fn assigned<'a>(
    rt: &impl Abort,
    one: &'a Stmt,
    wanted: Option<BinOp>,
) -> (&'a Expr, &'a Expr) {
    match &one.what {
        StmtKind::Assign(target, operator, value) => {
            assert!(rt; *operator == wanted);
            (target.get(), value.get())
        }
        _ => panic!(rt; "no assignment"),
    }
}

/// Both sides of an operator.
pub(crate) fn operands<'a>(rt: &impl Abort, e: &'a Expr, wanted: BinOp) -> (&'a Expr, &'a Expr) {
    match &e.what {
        ExprKind::Binary(operator, left, right) => {
            assert!(rt; *operator == wanted);
            (left.get(), right.get())
        }
        _ => panic!(rt; "no operator"),
    }
}

/// The one task of a loop that is written out.
pub(crate) fn task<'a>(rt: &impl Abort, written: &'a Stmt) -> &'a Stmt {
    statement(rt, body(rt, statement(rt, written, 2)), 2)
}

/// The turns of a task of a loop that is written out.
pub(crate) fn turns<'a>(rt: &impl Abort, written: &'a Stmt) -> &'a Stmt {
    body(rt, task(rt, written))
}

/// The function at a place in a program.
pub(crate) fn function<'a>(rt: &impl Abort, program: &'a Program, at: usize) -> &'a Function {
    match program.items.get(at).expect(rt, "an item") {
        Item::Function(function) => function,
        Item::Global(_) => panic!(rt; "no function"),
    }
}
