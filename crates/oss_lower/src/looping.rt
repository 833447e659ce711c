//! The parts of a loop.
use oss_syntax::{Expr, Stmt};

/// The parts of a `for` or, without a first and a last part, of a `while`.
#[derive(Clone, Copy)]
pub(crate) struct Loop<'p> {
    /// What is done before the first test.
    pub(crate) first: Option<&'p Stmt>,
    /// The test, which holds where it is left out.
    pub(crate) test: Option<&'p Expr>,
    /// What is done behind the body, before the next test.
    pub(crate) last: Option<&'p Stmt>,
    pub(crate) body: &'p Stmt,
}
