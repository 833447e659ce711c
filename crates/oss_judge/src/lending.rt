//! What a task has lent of one cell: the creation of a child lends it, and a wait for the children takes it back.
ghost use Rattle.std.specs.Prelude.{◌≡◌};
ghost use Rattle.oss_model.specs.Context.{lend_cell};
ghost use Rattle.oss_judge.specs.Seen.{lending_seen, lending_told, right_seen};

use crate::right::Right;
use oss_syntax::Mode;

/// What a task has lent of a cell to its children, since it last waited for them.
#[derive(Clone, Copy, PartialEq, Eq)]
pub(crate) enum Lending {
    Free,
    Reading,
    Writing,
}

impl Lending {
    /// What is lent of the cell after a child got this right to it.
    pub(crate) fn lent_to(self, child: Right) -> Lending
        ensures { lending_seen result ≡ lend_cell (right_seen child) (lending_seen self) }
    {
        match child {
            Right::Nothing => self,
            Right::Released => self,
            Right::Holds(Mode::Read, _) => match self {
                Lending::Free => Lending::Reading,
                Lending::Reading => Lending::Reading,
                Lending::Writing => Lending::Writing,
            },
            Right::Holds(Mode::Write, _) => Lending::Writing,
            Right::Holds(Mode::Fold(_), _) => Lending::Writing,
        }
    }
}

/// What a map tells of a cell, if anything.
pub(crate) fn told(lent: Option<Lending>) -> Lending
    ensures { lending_seen result ≡ lending_told lent }
{
    match lent {
        Some(lent) => lent,
        None => Lending::Free,
    }
}
