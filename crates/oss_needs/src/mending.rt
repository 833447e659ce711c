//! What clauses say once what they lack is mended.

ghost use Rattle.std.specs.Prelude.{◌≡◌, List as Items};
ghost use Rattle.oss_needs.specs.declared.demand.Demand.{Demand as Asked};
ghost use Rattle.oss_needs.specs.Lacks as lacks;
ghost use Rattle.oss_needs.specs.Needs.{IsNeed};

use crate::clause::{Clause, Given};
use crate::lack::Lack;
use crate::modes::is_same_mode;
use crate::need::Need;
use oss_syntax::Mode;

impl Clause {
    /// Two clauses as one.
    fn joined(self, other: Clause) -> Clause
        ensures { result ≡ lacks.joined self other }
    {
        let mode = if is_same_mode(self.mode, other.mode) {
            other.mode
        } else {
            Mode::Write
        };
        Clause {
            mode,
            strong: self.strong || other.strong,
            fresh: self.fresh && other.fresh,
        }
    }
}

impl Given {
    /// What the clauses say of the cell with what they lack, where they say anything.
    pub fn mended_by(self, lack: Lack) -> Option<Clause>
        ensures { result ≡ lacks.mended_by self lack }
    {
        match lack {
            Lack::Replaces(clause) => Some(clause),
            Lack::Adds(clause) => match self {
                Given::Says(own) => Some(clause.joined(own)),
                Given::Nothing => Some(clause),
                Given::Mixed => Some(clause),
            },
            Lack::Nothing => match self {
                Given::Says(own) => Some(own),
                Given::Nothing => None,
                Given::Mixed => None,
            },
        }
    }
}

impl Need {
    /// What a task's clauses say of the cell once what they lack for what it asks is mended; none if they say nothing and nothing is asked. Of a final
    /// task it counts as strong.
    pub fn mended(self, given: Given) -> Option<Clause>
        ensures { (ds : Items Asked) → IsNeed ds self → result ≡ lacks.mended given ds }
    {
        given.mended_by(self.lack(given))
    }
}
