//! Accesses (OmpSs-2, dependency clauses): ranges of cells, how a task uses them, and the operators of reductions.
ghost use Rattle.std.specs.Prelude.{◌<◌, ◌≤◌};

/// The operator of a reduction (OmpSs-2, the clause `reduction`).
#[derive(Clone, Copy, Debug, PartialEq, Eq)]
pub enum Op {
    Add,
    And,
    Or,
    Xor,
}

/// How a task uses the cells that a clause names: `in` reads, `out` and `inout` write, a reduction folds.
#[derive(Clone, Copy, Debug, PartialEq, Eq)]
pub enum Mode {
    Read,
    Write,
    Fold(Op),
}

/// The cells from `lo` up to `hi`, `hi` excluded. A range has at least one cell, and a program has at most 1,048,576.
#[derive(Clone, Copy, Debug)]
pub struct Range {
    pub lo: u32,
    pub hi: u32,
    pub ghost ordered: { lo < hi },
    pub ghost within: { hi ≤ 1048576 },
}

/// What a task declares of the cells of a range. A weak access says that only descendants touch them.
#[derive(Clone, Copy, Debug)]
pub struct Access {
    pub range: Range,
    pub mode: Mode,
    pub strong: bool,
    /// The cells were named by `out` or `weakout` alone, so the task writes each of them before it reads it.
    /// The order of tasks asks nothing of it.
    pub fresh: bool,
}
