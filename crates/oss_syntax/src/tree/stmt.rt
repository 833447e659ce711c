//! Statements (C11 6.8), and those that a directive makes: tasks, task loops, waits and releases.

use crate::{BinOp, Boxed, Bytes, Clause, Expr, List, Local, Name, Section, TaskMark};
use std::mem::size_of;

/// The head of a task loop (OmpSs-2, the taskloop directive): `for (long i = l; i < u; i++)` behind its pragma.
#[derive(Drop)]
pub struct LoopHead {
    pub mark: TaskMark,
    /// The variable, a signed number, with its first value.
    pub variable: Local,
    /// The name before `<`, which is to be that of the variable.
    pub tested: NameUse,
    pub end: Expr,
    /// The name before `++`, which is to be that of the variable.
    pub stepped: NameUse,
    /// The line of the word `for`.
    pub for_line: u32,
}

/// A name where it is repeated, with its line.
#[derive(Drop)]
pub struct NameUse {
    pub name: Name,
    pub line: u32,
}

/// A statement (C11 6.8).
#[cycle(stmt)]
#[derive(Drop)]
pub struct Stmt {
    pub what: StmtKind,
    pub line: u32,
}

/// What a statement is. Expressions and the head of a task loop stand in boxes, so that a statement takes at most
/// 64 bytes: a program may have a million of them.
#[cycle(stmt)]
#[derive(Drop)]
pub enum StmtKind {
    Block(List<Stmt>),
    Empty,
    Declare(List<Local>),
    /// The target, the operator of a compound assignment, and the right side.
    Assign(Boxed<Expr>, Option<BinOp>, Boxed<Expr>),
    Call(Name, List<Expr>),
    /// `printf`: the bytes of its string, and its other arguments.
    Print(Bytes, List<Expr>),
    If(Boxed<Expr>, Boxed<Stmt>, Option<Boxed<Stmt>>),
    While(Boxed<Expr>, Boxed<Stmt>),
    /// The first part, the test, the last part, and the body.
    For(Option<Boxed<Stmt>>, Boxed<Option<Expr>>, Option<Boxed<Stmt>>, Boxed<Stmt>),
    Return(Option<Boxed<Expr>>),
    Break,
    Continue,
    /// A task that runs this statement.
    Task(TaskMark, Boxed<Stmt>),
    /// A loop whose turns are made by tasks, each of so many of them.
    TaskLoop(Boxed<LoopHead>, Boxed<Stmt>),
    TaskWait(Option<List<Section>>),
    Release(List<Clause>),
}

// A program may have a million statements.
const _: () = prove!(size_of::<Stmt>() <= 64);
