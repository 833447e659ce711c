//! What one act asks of a cell.

ghost use Rattle.std.specs.Prelude.{◌≡◌};
ghost use Rattle.oss_needs.specs.Demands as spec;

use crate::clause::Clause;
use crate::modes::is_write;
use oss_syntax::{Mode, Op};

/// What one act of a task asks of a cell.
#[derive(Clone, Copy)]
pub enum Demand {
    /// It loads the cell.
    Load,
    /// It stores into the cell.
    Store,
    /// It folds into the cell by this operator.
    Fold(Op),
    /// It releases the cell by a clause of this mode.
    Release(Mode),
    /// It waits for the accesses of its children to the cell.
    Wait,
    /// It creates a task whose clauses say this of the cell.
    Create(Clause),
}

impl Demand {
    /// The mode for which it asks. To wait for a cell every mode will do.
    pub(crate) fn mode(self) -> Option<Mode>
        ensures { result ≡ spec.mode_of self }
    {
        match self {
            Demand::Load => Some(Mode::Read),
            Demand::Store => Some(Mode::Write),
            Demand::Fold(op) => Some(Mode::Fold(op)),
            Demand::Release(mode) => Some(mode),
            Demand::Wait => None,
            Demand::Create(clause) => Some(clause.mode),
        }
    }

    /// The task itself touches the cell.
    pub(crate) fn is_own(self) -> bool
        ensures { result ≡ spec.is_own self }
    {
        matches!(self, Demand::Load | Demand::Store | Demand::Fold(_))
    }

    /// It waits.
    pub(crate) fn is_wait(self) -> bool
        ensures { result ≡ spec.is_waited self }
    {
        matches!(self, Demand::Wait)
    }

    /// Behind it the cell has a value, whatever it was.
    pub(crate) fn gives_value(self) -> bool
        ensures { result ≡ spec.gives_value self }
    {
        match self {
            Demand::Store | Demand::Fold(_) => true,
            Demand::Create(clause) => is_write(clause.mode),
            Demand::Load | Demand::Release(_) | Demand::Wait => false,
        }
    }

    /// It needs the value that the cell has.
    pub(crate) fn takes_value(self) -> bool
        ensures { result ≡ spec.takes_value self }
    {
        matches!(self, Demand::Load | Demand::Fold(_))
    }

    /// The cell is used: a release and a wait only name it.
    pub(crate) fn is_use(self) -> bool
        ensures { result ≡ spec.is_use self }
    {
        !matches!(self, Demand::Release(_) | Demand::Wait)
    }

    /// It needs nothing of what the cell was.
    pub(crate) fn writes_first(self) -> bool
        ensures { result ≡ spec.writes_first self }
    {
        match self {
            Demand::Store => true,
            Demand::Create(clause) => is_write(clause.mode) && clause.fresh,
            Demand::Load | Demand::Fold(_) | Demand::Release(_) | Demand::Wait => false,
        }
    }
}
