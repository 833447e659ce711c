//! Expressions and their operators (C11 6.5), as far as the language has them.

use crate::{Boxed, List, Name};

/// A prefix operator (C11 6.5.3).
#[derive(Clone, Copy)]
pub enum UnOp {
    Minus,
    Plus,
    Not,
    Invert,
    Deref,
    Address,
}

/// A binary operator (C11 6.5.5 to 6.5.14).
#[derive(Clone, Copy, PartialEq, Eq)]
pub enum BinOp {
    OrElse,
    AndAlso,
    Or,
    Xor,
    And,
    Equal,
    Differ,
    Less,
    LessEqual,
    More,
    MoreEqual,
    Left,
    Right,
    Add,
    Sub,
    Mul,
    Div,
    Rem,
}

/// An expression (C11 6.5).
#[cycle(expr)]
#[derive(Drop)]
pub struct Expr {
    pub what: ExprKind,
    pub line: u32,
}

/// What an expression is.
#[cycle(expr)]
#[derive(Drop)]
pub enum ExprKind {
    /// A number of 64 bits, and whether it is unsigned.
    Number(u64, bool),
    Name(Name),
    /// `a[e]`
    Index(Boxed<Expr>, Boxed<Expr>),
    Unary(UnOp, Boxed<Expr>),
    Binary(BinOp, Boxed<Expr>, Boxed<Expr>),
    Call(Name, List<Expr>),
}
