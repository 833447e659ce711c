//! The least clause that will do for what is asked.

ghost use Rattle.std.specs.Prelude.{◌≡◌, List as Items};
ghost use Rattle.oss_needs.specs.declared.demand.Demand.{Demand as Asked};
ghost use Rattle.oss_needs.specs.Lacks.{clause_for, least, or_weak_read};
ghost use Rattle.oss_needs.specs.Needs.{IsNeed};

use crate::clause::Clause;
use crate::modes::{is_some, is_write, mode_with};
use crate::need::Need;
use oss_syntax::Mode;

/// A weak clause to read.
const WEAK_READ: Clause = Clause {
    mode: Mode::Read,
    strong: false,
    fresh: false,
};

impl Need {
    /// A clause of the mode. By it the cell is written first, if its first use needs nothing of what it was.
    pub(crate) fn clause(self, mode: Mode, strong: bool) -> Clause
        ensures { (ds : Items Asked) → IsNeed ds self → result ≡ clause_for ds mode strong }
    {
        Clause {
            mode,
            strong,
            fresh: is_write(mode) && self.fresh,
        }
    }

    /// The least clause that will do; none if nothing is asked.
    pub fn least(self) -> Option<Clause>
        ensures { (ds : Items Asked) → IsNeed ds self → result ≡ least ds }
    {
        match mode_with(self.own, self.others) {
            Some(mode) => Some(self.clause(mode, is_some(self.own))),
            None => { if self.waited { Some(WEAK_READ) } else { None } }
        }
    }

    /// The same, and a weak one to read if nothing is asked.
    pub(crate) fn least_or_weak_read(self) -> Clause
        ensures { (ds : Items Asked) → IsNeed ds self → result ≡ or_weak_read (least ds) }
    {
        match self.least() {
            Some(clause) => clause,
            None => WEAK_READ,
        }
    }
}
