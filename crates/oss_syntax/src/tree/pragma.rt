//! Directives, their clauses, and the array sections in these (OmpSs-2), as they are written: nothing of them
//! is evaluated.

use crate::{Bytes, Expr, List, Local, Mode, Name};

/// The cells that a dependency clause names (OmpSs-2, array sections).
#[derive(Drop)]
pub struct Section {
    /// The name of the array, the scalar or the pointer.
    pub base: Name,
    pub form: Form,
    /// The line of the section's first token.
    pub line: u32,
    /// The line of the name.
    pub base_line: u32,
}

/// How a section names its cells, `p` being its base.
#[derive(Drop)]
pub enum Form {
    /// `p`: a scalar, or a whole array.
    Whole,
    /// `*p`: the element that `p` points to.
    Deref,
    /// `[n]p`: `n` elements from `p`.
    Shape(Expr),
    /// `p[e]`: one element.
    Element(Expr),
    /// `p[l;n]`: `n` elements from `l`.
    Length(Expr, Expr),
    /// `p[l:u]`: the elements from `l` to `u`, both included.
    Span(Option<Expr>, Option<Expr>),
    /// `a[f][g]`: of an array of two dimensions the cells in the rows `f` and the columns `g`.
    Grid(Inner, Inner),
    /// `{ a[e], k = l; n }`: the elements `a[e]` for so many turns, and `{ a[e][f], k = l; n }`.
    Many(Expr, Option<Expr>, Turns),
}

/// The turns of a multidependency: `k = l; n` is `n` turns, in the first of which `k` is `l`.
#[derive(Drop)]
pub struct Turns {
    /// The variable, a signed number, with its first value.
    pub variable: Local,
    pub count: Expr,
}

/// What a section names of one dimension of an array of two.
#[derive(Drop)]
pub enum Inner {
    /// `[e]`: one row or column.
    Element(Expr),
    /// `[l;n]`: so many from `l` on.
    Length(Expr, Expr),
    /// `[l:u]`: those from `l` to `u`, both included.
    Span(Option<Expr>, Option<Expr>),
}

/// A clause of a task, of a task loop or of a release.
#[derive(Drop)]
pub enum Clause {
    /// The mode, whether it is strong, whether its word is `out` or `weakout`, and the sections.
    Depend(Mode, bool, bool, List<Section>),
    If(Expr),
    Final(Expr),
    Wait,
    Label(Bytes),
    Priority(Expr),
    /// `grainsize(e)`, of a task loop alone: how many turns each of its tasks makes.
    Grain(Expr),
}

/// The pragma of a task.
#[derive(Drop)]
pub struct TaskMark {
    pub clauses: List<Clause>,
    pub line: u32,
}

/// A pragma line.
#[derive(Drop)]
pub enum Directive {
    Task(TaskMark),
    TaskLoop(TaskMark),
    /// `taskwait`, or `taskwait on(..)` with its sections.
    TaskWait(Option<List<Section>>),
    Release(List<Clause>),
}
