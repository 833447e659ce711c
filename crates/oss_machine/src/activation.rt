//! One open function of a body: its values and locals, and what the clauses of a directive have given so far.

use oss_meaning::Value;
use oss_syntax::{Access, Range};

/// A function that is open, or the creation of a task at the call of a task function.
#[derive(Drop)]
pub(crate) struct Activation {
    /// Its next instruction.
    pub at: usize,
    /// The line of the call of the task function; `None` for every other function.
    pub call_line: Option<u32>,
    /// Its values, the topmost last.
    pub stack: Vec<Value>,
    /// Its locals, the oldest first.
    pub locals: Vec<Value>,
    /// What the clauses of its directive have given beside accesses.
    pub clauses: ClauseValues,
    /// The multidependency under way.
    pub turns: Option<Turns>,
    /// Whether what is gathered stands behind the accesses of the activation that this one continues.
    pub adds_accesses: bool,
    /// Whether it stands behind the ranges of that.
    pub adds_ranges: bool,
    /// What the clauses have declared, and the turns of the multidependency.
    pub gathered: Gathered,
}

/// The values of clauses.
#[derive(Clone, Copy)]
pub(crate) struct ClauseValues {
    pub when: bool,
    pub last: bool,
    pub wait: bool,
    pub priority: i64,
}

/// A multidependency: how many turns are left, the one under way with them, and where the first one began.
#[derive(Clone, Copy)]
pub(crate) struct Turns {
    pub left: u64,
    pub start: usize,
}

/// Accesses that clauses declare, and the ranges of the turns of a multidependency.
#[derive(Drop)]
pub(crate) struct Gathered {
    pub accesses: Vec<Access>,
    pub ranges: Vec<Range>,
}
