//! Types, locals, globals and functions (C11 6.7, 6.9), and the program that these make.

use crate::{Expr, List, Name, Stmt, TaskMark};

/// The types of numbers: `int` has 32 bits, `long` and `unsigned long` have 64.
#[derive(Clone, Copy)]
pub enum NumKind {
    Int,
    Long,
    Ulong,
}

/// The types of values: a number, a pointer to numbers, or nothing, for `void`.
#[derive(Clone, Copy)]
pub enum Kind {
    Num(NumKind),
    Pointer(NumKind),
    Nothing,
}

/// A program text: its globals and functions, in text order.
#[derive(Drop)]
pub struct Program {
    pub items: List<Item>,
}

/// A global or a function.
#[derive(Drop)]
pub enum Item {
    Global(GlobalDef),
    Function(Function),
}

/// A global: `cells` is how many cells an array has in all, which stays at its greatest value once it is there,
/// and `None` for a scalar; `columns` is how many cells each row of an array of two dimensions has, and `None`
/// for any other global. `first` is the number in each of its cells at the start, a `-` before it applied
/// modulo 2^64.
#[derive(Drop)]
pub struct GlobalDef {
    pub name: Name,
    pub kind: NumKind,
    pub cells: Option<u64>,
    pub columns: Option<u64>,
    pub first: u64,
    pub line: u32,
}

/// A function: with a mark, each call of it creates a task.
#[derive(Drop)]
pub struct Function {
    pub name: Name,
    pub result: Kind,
    pub params: List<Local>,
    pub mark: Option<TaskMark>,
    pub body: List<Stmt>,
    pub line: u32,
}

/// A local variable or a parameter, with its initial value where it has one.
#[derive(Drop)]
pub struct Local {
    pub name: Name,
    pub kind: Kind,
    pub first: Option<Expr>,
    pub line: u32,
}
