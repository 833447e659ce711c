//! What clauses say of one cell.

ghost use Rattle.std.specs.Prelude.{◌≡◌};
ghost use Rattle.oss_needs.specs.Givens.{clause_by, with_clause};

use crate::modes::joined_mode_of;
use oss_syntax::{Access, Mode};

/// What one clause, or all clauses of a task that name a cell, say of it (OmpSs-2, task directive): how the task may use it, whether
/// the task itself may and not its descendants alone, and whether it is named by `out` or `weakout` alone.
#[derive(Clone, Copy, PartialEq, Eq)]
pub struct Clause {
    pub mode: Mode,
    pub strong: bool,
    pub fresh: bool,
}

/// What a task's clauses say of a cell.
#[derive(Clone, Copy, PartialEq, Eq)]
pub enum Given {
    /// No clause names it.
    Nothing,
    /// Two clauses name it that cannot be joined.
    Mixed,
    /// They say this together. Of a final task a weak clause counts as strong.
    Says(Clause),
}

impl Clause {
    /// What a clause of a pragma says of each cell that it names. Of a final task a weak one counts as strong.
    pub fn of(access: Access, is_final: bool) -> Clause
        ensures { result ≡ clause_by is_final access }
    {
        Clause {
            mode: access.mode,
            strong: is_final || access.strong,
            fresh: access.fresh,
        }
    }
}

impl Given {
    /// What the clauses say with one more, which stands before them.
    pub fn with(self, clause: Clause) -> Given
        ensures { result ≡ with_clause clause self }
    {
        match self {
            Given::Nothing => Given::Says(clause),
            Given::Mixed => Given::Mixed,
            Given::Says(other) => match joined_mode_of(clause.mode, other.mode) {
                Some(mode) => Given::Says(Clause {
                    mode,
                    strong: clause.strong || other.strong,
                    fresh: clause.fresh && other.fresh,
                }),
                None => Given::Mixed,
            },
        }
    }
}
