//! All that a task asks of one cell.

ghost use Rattle.std.specs.Prelude.{◌≡◌, List as Items, [], ◌∷◌};
ghost use Rattle.oss_needs.specs.declared.demand.Demand.{Demand as Asked};
ghost use Rattle.oss_needs.specs.Needs.{IsNeed};

use crate::demand::Demand;
use crate::modes::mode_with;
use oss_syntax::Mode;

/// All that a task asks of one cell, as far as it tells what its clauses lack.
#[derive(Clone, Copy, PartialEq, Eq)]
pub struct Need {
    /// The least mode that will do for what the task itself does.
    pub(crate) own: Option<Mode>,
    /// The least mode that will do for its descendants.
    pub(crate) others: Option<Mode>,
    /// A wait names the cell.
    pub(crate) waited: bool,
    /// The task has given the cell a value.
    pub(crate) valued: bool,
    /// It needed the value that was there before.
    pub(crate) old: bool,
    /// The cell is used.
    pub(crate) used: bool,
    /// Its first use needs nothing of what it was.
    pub(crate) fresh: bool,
}

impl Need {
    /// Nothing is asked.
    pub fn none() -> Need
        ensures { IsNeed [] result }
    {
        Need {
            own: None,
            others: None,
            waited: false,
            valued: false,
            old: false,
            used: false,
            fresh: false,
        }
    }

    /// What is asked with this demand behind all others.
    pub fn with(self, demand: Demand) -> Need
        ensures { (ds : Items Asked) → IsNeed ds self → IsNeed (demand ∷ ds) result }
    {
        let mode = demand.mode();
        let is_own = demand.is_own();
        Need {
            own: if is_own {
                mode_with(mode, self.own)
            } else {
                self.own
            },
            others: if is_own {
                self.others
            } else {
                mode_with(mode, self.others)
            },
            waited: self.waited || demand.is_wait(),
            valued: self.valued || demand.gives_value(),
            old: self.old || (demand.takes_value() && !self.valued),
            used: self.used || demand.is_use(),
            fresh: self.fresh || (!self.used && demand.writes_first()),
        }
    }
}
