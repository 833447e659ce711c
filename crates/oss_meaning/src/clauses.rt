//! Dependency clauses by their meaning: the words `in`, `weakout` and the others differ in three things alone.

use oss_syntax::Mode;

/// What a dependency clause declares of the cells of its sections (OmpSs-2, dependency clauses).
#[derive(Clone, Copy)]
pub struct Declared {
    pub mode: Mode,
    /// The task itself touches the cells; else only its descendants do.
    pub strong: bool,
    /// The clause is `out` or `weakout`.
    pub fresh: bool,
}
