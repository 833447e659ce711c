//! The right of a task to one cell: its dependency clauses give it, and the directive `release` ends it.
ghost use Rattle.std.specs.Prelude.{◌≡◌};
ghost use Rattle.oss_model.specs.Rights.{holds_uncovered, is_fold, is_released, is_unjoinable, joined_right, right_covers};
ghost use Rattle.oss_model.specs.Context.{lacks_right};
ghost use Rattle.oss_judge.specs.Parts.{fold_part, held_part, is_write};
ghost use Rattle.oss_judge.specs.Seen.{right_seen, right_told};

use crate::modes::{is_covered, join_modes};
use oss_syntax::{Mode, Op};

/// What a task may do with a cell: nothing; nothing any more, since it has released the cell; or what its clauses say.
#[derive(Clone, Copy, PartialEq, Eq)]
pub enum Right {
    /// The task never had a right to the cell.
    Nothing,
    /// The task has released the cell.
    Released,
    /// The joined mode of the clauses that name the cell, and whether one of them is strong.
    Holds(Mode, bool),
}

impl Right {
    /// The mode and whether it is strong, where there is a right.
    pub(crate) fn held(self) -> Option<(Mode, bool)>
        ensures { result ≡ held_part (right_seen self) }
    {
        match self {
            Right::Nothing => None,
            Right::Released => None,
            Right::Holds(mode, strong) => Some((mode, strong)),
        }
    }

    /// The task has released the cell.
    pub(crate) fn is_released(self) -> bool
        ensures { result ≡ is_released (right_seen self) }
    {
        match self {
            Right::Released => true,
            Right::Nothing => false,
            Right::Holds(_, _) => false,
        }
    }

    /// The task never had a right to the cell.
    pub(crate) fn is_lacking(self) -> bool
        ensures { result ≡ lacks_right (right_seen self) }
    {
        match self {
            Right::Nothing => true,
            Right::Released => false,
            Right::Holds(_, _) => false,
        }
    }

    /// The right is one to write.
    pub(crate) fn is_write(self) -> bool
        ensures { result ≡ is_write (right_seen self) }
    {
        match self {
            Right::Holds(Mode::Write, _) => true,
            Right::Holds(Mode::Read, _) => false,
            Right::Holds(Mode::Fold(_), _) => false,
            Right::Nothing => false,
            Right::Released => false,
        }
    }

    /// The operator, where the right is that of a reduction.
    pub(crate) fn fold_op(self) -> Option<Op>
        ensures { result ≡ fold_part (right_seen self) }
    {
        match self {
            Right::Holds(Mode::Fold(op), _) => Some(op),
            Right::Holds(Mode::Read, _) => None,
            Right::Holds(Mode::Write, _) => None,
            Right::Nothing => None,
            Right::Released => None,
        }
    }

    /// The right does not cover the one that a new task would have.
    pub(crate) fn is_uncovered(self, given: Right) -> bool
        ensures { result ≡ holds_uncovered (right_seen self) (right_seen given) }
    {
        match given {
            Right::Nothing => false,
            Right::Released => false,
            Right::Holds(mode, _) => !self.covers(mode),
        }
    }

    /// Whether the right covers a child's access of this mode. One that is released, or never was, covers none.
    fn covers(self, mode: Mode) -> bool
        ensures { result ≡ right_covers (right_seen self) mode }
    {
        match self {
            Right::Nothing => false,
            Right::Released => false,
            Right::Holds(held, _) => is_covered(held, mode),
        }
    }

    /// A clause of the mode cannot be joined to the right.
    pub(crate) fn is_unjoinable(self, mode: Mode) -> bool
        ensures { result ≡ is_unjoinable mode (right_seen self) }
    {
        match self {
            Right::Nothing => false,
            Right::Released => false,
            Right::Holds(held, _) => match join_modes(mode, held) {
                Some(_) => false,
                None => true,
            },
        }
    }

    /// The right with one more clause on its cell.
    pub(crate) fn joined(self, mode: Mode, strong: bool) -> Right
        ensures { right_seen result ≡ joined_right mode strong (right_seen self) }
    {
        match self {
            Right::Nothing => Right::Holds(mode, strong),
            Right::Released => Right::Holds(mode, strong),
            Right::Holds(held, other) => match join_modes(mode, held) {
                Some(both) => Right::Holds(both, strong || other),
                None => Right::Nothing,
            },
        }
    }
}

/// What a map tells of a cell, if anything.
pub(crate) fn told(right: Option<Right>) -> Right
    ensures { right_seen result ≡ right_told right }
{
    match right {
        Some(right) => right,
        None => Right::Nothing,
    }
}
