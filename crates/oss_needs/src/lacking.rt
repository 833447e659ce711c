//! What clauses lack for what is asked.

ghost use Rattle.std.specs.Prelude.{◌≡◌, ◌&&◌, ◌||◌, not, List as Items};
ghost use Rattle.oss_syntax.specs.declared.access.Mode.TheVariants as modes;
ghost use Rattle.oss_needs.specs.declared.demand.Demand.{Demand as Asked};
ghost use Rattle.oss_needs.specs.Demands.{any_own, is_own, needs_old};
ghost use Rattle.oss_needs.specs.Lacks as lacks;
ghost use Rattle.oss_needs.specs.Needs.{IsNeed};

use crate::clause::{Clause, Given};
use crate::lack::Lack;
use crate::modes::{is_refused, is_some};
use crate::need::Need;
use oss_syntax::Mode;

impl Need {
    /// What a task's clauses lack for what it asks of the cell.
    pub fn lack(self, given: Given) -> Lack
        ensures { (ds : Items Asked) → IsNeed ds self → result ≡ lacks.lack_of given ds }
    {
        match given {
            Given::Nothing => match self.least() {
                Some(clause) => Lack::Adds(clause),
                None => Lack::Nothing,
            },
            Given::Mixed => Lack::Replaces(self.least_or_weak_read()),
            Given::Says(clause) => match clause.mode {
                Mode::Fold(_) => self.lack_of_fold(clause),
                Mode::Read => self.lack_of_read(clause),
                Mode::Write => self.lack_of_write(clause),
            },
        }
    }

    /// What a clause of a reduction lacks.
    fn lack_of_fold(self, clause: Clause) -> Lack
        ensures { (ds : Items Asked) → IsNeed ds self → result ≡ lacks.lack_of_fold clause ds }
    {
        if self.refused_by(clause.mode) {
            Lack::Replaces(self.least_or_weak_read())
        } else if self.is_too_much_for(clause) {
            Lack::Adds(Clause {
                mode: clause.mode,
                strong: true,
                fresh: false,
            })
        } else {
            Lack::Nothing
        }
    }

    /// What a clause to read lacks: one to write beside it, if more than that is asked for, or a strong one.
    fn lack_of_read(self, clause: Clause) -> Lack
        requires { clause.mode ≡ modes.Read }
        ensures { (ds : Items Asked) → IsNeed ds self → result ≡ lacks.adds clause ds (lacks.added_mode clause ds) }
    {
        if self.refused_by(Mode::Read) {
            Lack::Adds(self.clause(Mode::Write, self.is_more_than_read(clause)))
        } else if self.is_too_much_for(clause) {
            Lack::Adds(self.clause(Mode::Read, true))
        } else {
            Lack::Nothing
        }
    }

    /// What a clause to write lacks: a strong one beside it, or one to read, if the cell is not written first as it says.
    fn lack_of_write(self, clause: Clause) -> Lack
        requires { clause.mode ≡ modes.Write }
        ensures { (ds : Items Asked) → IsNeed ds self → result ≡ lacks.adds clause ds (lacks.added_mode clause ds) }
    {
        if self.is_too_much_for(clause) {
            if is_refused(Mode::Read, self.own) {
                Lack::Adds(self.clause(Mode::Write, true))
            } else {
                Lack::Adds(self.clause(Mode::Read, true))
            }
        } else if self.is_read_first(clause) {
            Lack::Adds(self.clause(Mode::Read, true))
        } else {
            Lack::Nothing
        }
    }

    /// A demand is refused by the mode of a clause.
    fn refused_by(self, mode: Mode) -> bool
        ensures { (ds : Items Asked) → IsNeed ds self → result ≡ lacks.any_refused mode ds }
    {
        is_refused(mode, self.own) || is_refused(mode, self.others)
    }

    /// The task itself touches the cell, and the clause is weak.
    fn is_too_much_for(self, clause: Clause) -> bool
        ensures { (ds : Items Asked) → IsNeed ds self → result ≡ (any_own ds && not clause.strong) }
    {
        is_some(self.own) && !clause.strong
    }

    /// The task itself does what a clause to read will not do for.
    fn is_more_than_read(self, clause: Clause) -> bool
        ensures { (ds : Items Asked) → IsNeed ds self → result ≡ ((any_own ds && not clause.strong) ||
            lacks.refuses modes.Read (lacks.least_mode is_own ds)) }
    {
        self.is_too_much_for(clause) || is_refused(Mode::Read, self.own)
    }

    /// The clause says that the cell is written first, and its old value is needed.
    fn is_read_first(self, clause: Clause) -> bool
        ensures { (ds : Items Asked) → IsNeed ds self → result ≡ (needs_old ds && clause.fresh) }
    {
        self.old && clause.fresh
    }
}
