//! The tree of a program. Each `line` is that of the first token of the thing, or of the name that a
//! declaration gives, counted from 1.

mod expr;
mod pragma;
mod program;
mod stmt;

pub use expr::{BinOp, Expr, ExprKind, UnOp};
pub use pragma::{Clause, Directive, Form, Inner, Section, TaskMark, Turns};
pub use program::{Function, GlobalDef, Item, Kind, Local, NumKind, Program};
pub use stmt::{LoopHead, NameUse, Stmt, StmtKind};
