//! The block of the worked example, part by part:
//!
//! ```c
//! {
//!   long $c = 0, $u = 8, $g = 4;
//!   if ($g < 1) $g = 1;
//!   while ($c < $u) {
//!     long i = $c, $e = $u;
//!     if ($u - $c > $g) $e = $c + $g;
//!     #pragma oss task out(a[i;4])
//!     for (; i < $e; i++) a[i] = i * i;
//!     $c = $e;
//!   }
//! }
//! ```
//!
//! The line is 1, but 2 in what stands behind the word `for`, the first value and the end too.

use super::parts::{
    assigned, body, branch, count, locals, operands, statement, step, task, test, turns,
};
use oss_syntax::{BinOp, Clause, Expr, ExprKind, Kind, Local, NumKind, Stmt, StmtKind};
use std::process::Abort;

fn assert_name(rt: &impl Abort, e: &Expr, line: u32, wanted: &[u8]) {
    assert_eq!(rt; e.line, line);
    match &e.what {
        ExprKind::Name(name) => assert!(rt; name.as_slice() == wanted),
        _ => panic!(rt; "no name"),
    }
}

fn assert_number(rt: &impl Abort, e: &Expr, line: u32, wanted: u64) {
    assert_eq!(rt; e.line, line);
    match &e.what {
        ExprKind::Number(value, unsigned) => assert!(rt; *value == wanted && !*unsigned),
        _ => panic!(rt; "no number"),
    }
}

/// Two names with an operator between them.
fn assert_joined(rt: &impl Abort, e: &Expr, line: u32, op: BinOp, left: &[u8], right: &[u8]) {
    assert_eq!(rt; e.line, line);
    let (a, b) = operands(rt, e, op);
    assert_name(rt, a, line, left);
    assert_name(rt, b, line, right);
}

/// A local `long`, and its initial value.
fn first_value<'a>(rt: &impl Abort, local: Option<&'a Local>, wanted: &[u8]) -> &'a Expr {
    let local = local.expect(rt, "a local");
    assert_eq!(rt; local.line, 1);
    assert!(rt; local.name.as_slice() == wanted);
    assert!(rt; matches!(local.kind, Kind::Num(NumKind::Long)));
    local.first.as_ref().expect(rt, "an initial value")
}

/// `long $c = 0, $u = 8, $g = 4;`
fn assert_bounds(rt: &impl Abort, one: &Stmt) {
    assert_eq!(rt; one.line, 1);
    let list = locals(rt, one);
    assert_eq!(rt; list.len(), 3);
    assert_number(rt, first_value(rt, list.get(0), b"$c"), 2, 0);
    assert_number(rt, first_value(rt, list.get(1), b"$u"), 2, 8);
    assert_number(rt, first_value(rt, list.get(2), b"$g"), 1, 4);
}

/// `if ($g < 1) $g = 1;`
fn assert_raised(rt: &impl Abort, one: &Stmt) {
    assert_eq!(rt; one.line, 1);
    let (grain, least) = operands(rt, test(rt, one), BinOp::Less);
    assert_name(rt, grain, 1, b"$g");
    assert_number(rt, least, 1, 1);
    let set = branch(rt, one);
    assert_eq!(rt; set.line, 1);
    let (target, value) = assigned(rt, set, None);
    assert_name(rt, target, 1, b"$g");
    assert_number(rt, value, 1, 1);
}

/// `long i = $c, $e = $u;`
fn assert_round_locals(rt: &impl Abort, one: &Stmt) {
    assert_eq!(rt; one.line, 1);
    let list = locals(rt, one);
    assert_eq!(rt; list.len(), 2);
    assert_name(rt, first_value(rt, list.get(0), b"i"), 1, b"$c");
    assert_name(rt, first_value(rt, list.get(1), b"$e"), 1, b"$u");
}

/// `if ($u - $c > $g) $e = $c + $g;`
fn assert_stop(rt: &impl Abort, one: &Stmt) {
    assert_eq!(rt; one.line, 1);
    let (left, grain) = operands(rt, test(rt, one), BinOp::More);
    assert_joined(rt, left, 1, BinOp::Sub, b"$u", b"$c");
    assert_name(rt, grain, 1, b"$g");
    let set = branch(rt, one);
    assert_eq!(rt; set.line, 1);
    let (target, value) = assigned(rt, set, None);
    assert_name(rt, target, 1, b"$e");
    assert_joined(rt, value, 1, BinOp::Add, b"$c", b"$g");
}

/// `$c = $e;`
fn assert_next(rt: &impl Abort, one: &Stmt) {
    assert_eq!(rt; one.line, 1);
    let (target, value) = assigned(rt, one, None);
    assert_name(rt, target, 1, b"$c");
    assert_name(rt, value, 1, b"$e");
}

/// `task out(a[i;4])`: the clause `out` alone.
fn assert_mark(rt: &impl Abort, task: &Stmt) {
    assert_eq!(rt; task.line, 1);
    match &task.what {
        StmtKind::Task(mark, _) => {
            assert_eq!(rt; mark.line, 1);
            assert_eq!(rt; mark.clauses.len(), 1);
            assert_depend(rt, mark.clauses.get(0));
        }
        _ => panic!(rt; "no task"),
    }
}

fn assert_depend(rt: &impl Abort, clause: Option<&Clause>) {
    match clause {
        Some(Clause::Depend(_, _, _, sections)) => assert_eq!(rt; sections.len(), 1),
        _ => panic!(rt; "no dependency"),
    }
}

/// `for (; i < $e; i++)`
fn assert_turns(rt: &impl Abort, turns: &Stmt) {
    assert_eq!(rt; turns.line, 2);
    assert_joined(rt, test(rt, turns), 2, BinOp::Less, b"i", b"$e");
    let next = step(rt, turns);
    assert_eq!(rt; next.line, 2);
    let (target, one) = assigned(rt, next, Some(BinOp::Add));
    assert_name(rt, target, 2, b"i");
    assert_number(rt, one, 2, 1);
}

/// The block but for the statement of its turns.
pub(crate) fn assert_rounds(rt: &impl Abort, block: &Stmt) {
    assert_eq!(rt; block.line, 1);
    assert_eq!(rt; count(rt, block), 3);
    assert_bounds(rt, statement(rt, block, 0));
    assert_raised(rt, statement(rt, block, 1));
    let rounds = statement(rt, block, 2);
    assert_eq!(rt; rounds.line, 1);
    assert_joined(rt, test(rt, rounds), 1, BinOp::Less, b"$c", b"$u");
    assert_round(rt, body(rt, rounds));
    assert_mark(rt, task(rt, block));
    assert_turns(rt, turns(rt, block));
}

/// A round but for its task.
fn assert_round(rt: &impl Abort, round: &Stmt) {
    assert_eq!(rt; round.line, 1);
    assert_eq!(rt; count(rt, round), 4);
    assert_round_locals(rt, statement(rt, round, 0));
    assert_stop(rt, statement(rt, round, 1));
    assert_next(rt, statement(rt, round, 3));
}

/// `a[i] = i * i;`
fn assert_square(rt: &impl Abort, one: &Stmt) {
    assert_eq!(rt; one.line, 2);
    let (_, value) = assigned(rt, one, None);
    assert_joined(rt, value, 2, BinOp::Mul, b"i", b"i");
}

/// The block.
pub(crate) fn assert_block_of_squares(rt: &impl Abort, block: &Stmt) {
    assert_rounds(rt, block);
    assert_square(rt, body(rt, turns(rt, block)));
}
