//! The syntax of the C subset: tokens and trees, the small types of which every layer above speaks, and the kinds of
//! refusals and faults.
#![tactic(auto)]

mod access;
mod boxed;
mod bytes;
mod fault;
mod list;
mod refusal;
mod token;
mod tree;

pub use access::{Access, Mode, Op, Range};
pub use boxed::Boxed;
pub use bytes::{Bytes, Cells, Name};
pub use fault::FaultKind;
pub use list::List;
pub use refusal::{Refusal, Refused, RefusedKind};
pub use token::{Token, TokenKind};
pub use tree::{
    BinOp, Clause, Directive, Expr, ExprKind, Form, Function, GlobalDef, Inner, Item, Kind, Local,
    LoopHead, NameUse, NumKind, Program, Section, Stmt, StmtKind, TaskMark, Turns, UnOp,
};
