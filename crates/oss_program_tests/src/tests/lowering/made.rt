//! The trees of worked programs.

use oss_syntax::{
    BinOp, Boxed, Bytes, Clause, Expr, ExprKind, Form, Function, GlobalDef, Item, Kind, List,
    Local, Mode, Name, NumKind, Op, Program, Section, Stmt, StmtKind, TaskMark,
};
use std::alloc::Global;
use std::process::Abort;

fn boxed<T: Drop>(rt: &impl Abort, alloc: Global, value: T) -> Boxed<T> {
    Boxed::new(alloc, value).expect(rt, "memory for a box")
}

fn list<T: Drop, const N: usize>(rt: &impl Abort, alloc: Global, items: [T; N]) -> List<T> {
    List::from_vec(Vec::from_array(alloc, items).expect(rt, "memory for a list"))
}

fn name(rt: &impl Abort, alloc: Global, text: &[u8]) -> Name {
    Name::from_slice(alloc, text).expect(rt, "memory for a name")
}

fn named(rt: &impl Abort, alloc: Global, line: u32, text: &[u8]) -> Expr {
    Expr {
        what: ExprKind::Name(name(rt, alloc, text)),
        line,
    }
}

fn number(line: u32, value: u64, unsigned: bool) -> Expr {
    Expr {
        what: ExprKind::Number(value, unsigned),
        line,
    }
}

/// A name and a number with an operator between them.
fn joined(rt: &impl Abort, alloc: Global, line: u32, op: BinOp, left: &[u8], right: u64) -> Expr {
    let left = boxed(rt, alloc, named(rt, alloc, line, left));
    let right = boxed(rt, alloc, number(line, right, false));
    Expr {
        what: ExprKind::Binary(op, left, right),
        line,
    }
}

/// An assignment to a name.
fn set(
    rt: &impl Abort,
    alloc: Global,
    line: u32,
    target: &[u8],
    op: Option<BinOp>,
    value: Expr,
) -> Stmt {
    let target = boxed(rt, alloc, named(rt, alloc, line, target));
    let value = boxed(rt, alloc, value);
    Stmt {
        what: StmtKind::Assign(target, op, value),
        line,
    }
}

/// `printf(format, name);`
fn print(rt: &impl Abort, alloc: Global, line: u32, format: &[u8], value: &[u8]) -> Stmt {
    let format = Bytes::from_slice(alloc, format).expect(rt, "memory for a format");
    let values = list(rt, alloc, [named(rt, alloc, line, value)]);
    Stmt {
        what: StmtKind::Print(format, values),
        line,
    }
}

/// A dependency clause over the whole of one global.
fn depend(
    rt: &impl Abort,
    alloc: Global,
    line: u32,
    mode: Mode,
    fresh: bool,
    base: &[u8],
) -> Clause {
    let section = Section {
        base: name(rt, alloc, base),
        form: Form::Whole,
        line,
        base_line: line,
    };
    Clause::Depend(mode, true, fresh, list(rt, alloc, [section]))
}

/// A task with these clauses.
fn task(rt: &impl Abort, alloc: Global, line: u32, clauses: List<Clause>, body: Stmt) -> Stmt {
    Stmt {
        what: StmtKind::Task(TaskMark { clauses, line }, boxed(rt, alloc, body)),
        line,
    }
}

fn global(rt: &impl Abort, alloc: Global, text: &[u8], kind: NumKind) -> Item {
    Item::Global(GlobalDef {
        name: name(rt, alloc, text),
        kind,
        cells: None,
        columns: None,
        first: 0,
        line: 1,
    })
}

/// `int main() { .. }`
fn main(rt: &impl Abort, alloc: Global, line: u32, body: List<Stmt>) -> Item {
    Item::Function(Function {
        name: name(rt, alloc, b"main"),
        result: Kind::Num(NumKind::Int),
        params: List::new(alloc),
        mark: None,
        body,
        line,
    })
}

/// `int main() { }`
pub(crate) fn nothing(rt: &impl Abort, alloc: Global) -> Program {
    Program {
        items: list(rt, alloc, [main(rt, alloc, 1, List::new(alloc))]),
    }
}

/// `#pragma oss task out(x)`, `x = 5;`
fn writer(rt: &impl Abort, alloc: Global) -> Stmt {
    let clauses = list(rt, alloc, [depend(rt, alloc, 3, Mode::Write, true, b"x")]);
    let body = set(rt, alloc, 4, b"x", None, number(4, 5, false));
    task(rt, alloc, 3, clauses, body)
}

/// `#pragma oss task in(x) out(y)`, `y = x + 1;`
fn reader(rt: &impl Abort, alloc: Global) -> Stmt {
    let reads = depend(rt, alloc, 5, Mode::Read, false, b"x");
    let writes = depend(rt, alloc, 5, Mode::Write, true, b"y");
    let clauses = list(rt, alloc, [reads, writes]);
    let sum = joined(rt, alloc, 6, BinOp::Add, b"x", 1);
    let body = set(rt, alloc, 6, b"y", None, sum);
    task(rt, alloc, 5, clauses, body)
}

/// ```c
/// long x, y;
/// int main() {
/// #pragma oss task out(x)
///   x = 5;
/// #pragma oss task in(x) out(y)
///   y = x + 1;
/// #pragma oss taskwait
///   printf("%ld\n", y);
/// }
/// ```
pub(crate) fn flow(rt: &impl Abort, alloc: Global) -> Program {
    let wait = Stmt {
        what: StmtKind::TaskWait(None),
        line: 7,
    };
    let shown = print(rt, alloc, 8, b"%ld\n", b"y");
    let body = [writer(rt, alloc), reader(rt, alloc), wait, shown];
    let main = main(rt, alloc, 2, list(rt, alloc, body));
    let x = global(rt, alloc, b"x", NumKind::Long);
    let y = global(rt, alloc, b"y", NumKind::Long);
    Program {
        items: list(rt, alloc, [x, y, main]),
    }
}

/// `long i = 0`
fn first(rt: &impl Abort, alloc: Global) -> Stmt {
    let local = Local {
        name: name(rt, alloc, b"i"),
        kind: Kind::Num(NumKind::Long),
        first: Some(number(3, 0, false)),
        line: 3,
    };
    Stmt {
        what: StmtKind::Declare(list(rt, alloc, [local])),
        line: 3,
    }
}

/// `{ #pragma oss task reduction(+: s)`, `s += 9223372036854775808UL; }`
fn folds(rt: &impl Abort, alloc: Global) -> Stmt {
    let clause = depend(rt, alloc, 4, Mode::Fold(Op::Add), false, b"s");
    let value = number(5, 9_223_372_036_854_775_808, true);
    let body = set(rt, alloc, 5, b"s", Some(BinOp::Add), value);
    let task = task(rt, alloc, 4, list(rt, alloc, [clause]), body);
    Stmt {
        what: StmtKind::Block(list(rt, alloc, [task])),
        line: 3,
    }
}

/// The loop around it.
fn turns(rt: &impl Abort, alloc: Global) -> Stmt {
    let first = boxed(rt, alloc, first(rt, alloc));
    let test = joined(rt, alloc, 3, BinOp::Less, b"i", 4);
    let test = boxed(rt, alloc, Some(test));
    let step = set(rt, alloc, 3, b"i", Some(BinOp::Add), number(3, 1, false));
    let last = boxed(rt, alloc, step);
    let body = boxed(rt, alloc, folds(rt, alloc));
    Stmt {
        what: StmtKind::For(Some(first), test, Some(last), body),
        line: 3,
    }
}

/// ```c
/// unsigned long s;
/// int main() {
///   for (long i = 0; i < 4; i++) {
/// #pragma oss task reduction(+: s)
///     s += 9223372036854775808UL;
///   }
/// #pragma oss task in(s)
///   printf("%lu\n", s);
/// }
/// ```
pub(crate) fn wrap(rt: &impl Abort, alloc: Global) -> Program {
    let clause = depend(rt, alloc, 7, Mode::Read, false, b"s");
    let shown = print(rt, alloc, 8, b"%lu\n", b"s");
    let shows = task(rt, alloc, 7, list(rt, alloc, [clause]), shown);
    let body = [turns(rt, alloc), shows];
    let main = main(rt, alloc, 2, list(rt, alloc, body));
    let s = global(rt, alloc, b"s", NumKind::Ulong);
    Program {
        items: list(rt, alloc, [s, main]),
    }
}
