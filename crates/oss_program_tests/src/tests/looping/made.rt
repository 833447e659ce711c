//! The loop of the worked example, and a program with it.
//!
//! ```c
//! #pragma oss taskloop grainsize(4) out(a[i;4])
//! for (long i = 0; i < 8; i++) a[i] = i * i;
//! ```

use oss_syntax::{
    BinOp, Boxed, Clause, Expr, ExprKind, Form, Function, GlobalDef, Item, Kind, List, Local,
    LoopHead, Mode, Name, NameUse, NumKind, Program, Section, Stmt, StmtKind, TaskMark,
};
use std::alloc::Global;
use std::process::Abort;

pub(crate) fn boxed<T: Drop>(rt: &impl Abort, alloc: Global, value: T) -> Boxed<T> {
    Boxed::new(alloc, value).expect(rt, "memory for a box")
}

fn list<T: Drop, const N: usize>(rt: &impl Abort, alloc: Global, items: [T; N]) -> List<T> {
    List::from_vec(Vec::from_array(alloc, items).expect(rt, "memory for a list"))
}

fn name(rt: &impl Abort, alloc: Global, text: &[u8]) -> Name {
    Name::from_slice(alloc, text).expect(rt, "memory for a name")
}

fn named(rt: &impl Abort, alloc: Global, line: u32, text: &[u8]) -> Expr {
    Expr {
        what: ExprKind::Name(name(rt, alloc, text)),
        line,
    }
}

fn number(line: u32, value: u64) -> Expr {
    Expr {
        what: ExprKind::Number(value, false),
        line,
    }
}

/// `a[i]`
fn element(rt: &impl Abort, alloc: Global) -> Expr {
    let array = boxed(rt, alloc, named(rt, alloc, 2, b"a"));
    let index = boxed(rt, alloc, named(rt, alloc, 2, b"i"));
    Expr {
        what: ExprKind::Index(array, index),
        line: 2,
    }
}

/// `i * i`
fn product(rt: &impl Abort, alloc: Global) -> Expr {
    let left = boxed(rt, alloc, named(rt, alloc, 2, b"i"));
    let right = boxed(rt, alloc, named(rt, alloc, 2, b"i"));
    Expr {
        what: ExprKind::Binary(BinOp::Mul, left, right),
        line: 2,
    }
}

/// `a[i] = i * i;`
pub(crate) fn square(rt: &impl Abort, alloc: Global) -> Stmt {
    let target = boxed(rt, alloc, element(rt, alloc));
    let value = boxed(rt, alloc, product(rt, alloc));
    Stmt {
        what: StmtKind::Assign(target, None, value),
        line: 2,
    }
}

/// `out(a[i;4])`
fn out(rt: &impl Abort, alloc: Global) -> Clause {
    let section = Section {
        base: name(rt, alloc, b"a"),
        form: Form::Length(named(rt, alloc, 1, b"i"), number(1, 4)),
        line: 1,
        base_line: 1,
    };
    Clause::Depend(Mode::Write, true, true, list(rt, alloc, [section]))
}

/// `taskloop grainsize(4) out(a[i;4])`
fn mark(rt: &impl Abort, alloc: Global) -> TaskMark {
    let out = out(rt, alloc);
    TaskMark {
        clauses: list(rt, alloc, [Clause::Grain(number(1, 4)), out]),
        line: 1,
    }
}

fn variable_again(rt: &impl Abort, alloc: Global) -> NameUse {
    NameUse {
        name: name(rt, alloc, b"i"),
        line: 2,
    }
}

/// `long i = 0`
fn variable(rt: &impl Abort, alloc: Global) -> Local {
    Local {
        name: name(rt, alloc, b"i"),
        kind: Kind::Num(NumKind::Long),
        first: Some(number(2, 0)),
        line: 2,
    }
}

/// The pragma, and `for (long i = 0; i < 8; i++)`.
pub(crate) fn head(rt: &impl Abort, alloc: Global) -> LoopHead {
    LoopHead {
        mark: mark(rt, alloc),
        variable: variable(rt, alloc),
        tested: variable_again(rt, alloc),
        end: number(2, 8),
        stepped: variable_again(rt, alloc),
        for_line: 2,
    }
}

/// The loop around a statement.
fn loop_around(rt: &impl Abort, alloc: Global, body: Stmt) -> Stmt {
    let head = boxed(rt, alloc, head(rt, alloc));
    Stmt {
        what: StmtKind::TaskLoop(head, boxed(rt, alloc, body)),
        line: 1,
    }
}

fn squares(rt: &impl Abort, alloc: Global) -> Stmt {
    loop_around(rt, alloc, square(rt, alloc))
}

/// `{ if (0) ; else L }`, where `L` is the loop.
fn in_an_else(rt: &impl Abort, alloc: Global) -> Stmt {
    let nothing = Stmt {
        what: StmtKind::Empty,
        line: 1,
    };
    let other = boxed(rt, alloc, squares(rt, alloc));
    let test = boxed(rt, alloc, number(1, 0));
    let branches = Stmt {
        what: StmtKind::If(test, boxed(rt, alloc, nothing), Some(other)),
        line: 1,
    };
    Stmt {
        what: StmtKind::Block(list(rt, alloc, [branches])),
        line: 1,
    }
}

/// `int main() { { if (0) ; else L } M }`, where `L` is the loop, and `M` is the loop with `L` as its statement.
fn main(rt: &impl Abort, alloc: Global) -> Function {
    let first = in_an_else(rt, alloc);
    let second = loop_around(rt, alloc, squares(rt, alloc));
    Function {
        name: name(rt, alloc, b"main"),
        result: Kind::Num(NumKind::Int),
        params: List::new(alloc),
        mark: None,
        body: list(rt, alloc, [first, second]),
        line: 1,
    }
}

/// `long a[8];` and the function.
pub(crate) fn program(rt: &impl Abort, alloc: Global) -> Program {
    let array = Item::Global(GlobalDef {
        name: name(rt, alloc, b"a"),
        kind: NumKind::Long,
        cells: Some(8),
        columns: None,
        first: 0,
        line: 1,
    });
    let main = Item::Function(main(rt, alloc));
    Program {
        items: list(rt, alloc, [array, main]),
    }
}
