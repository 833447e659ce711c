//! The clauses of a task or of a task loop that were read so far.

ghost use Rattle.std.specs.Prelude.{◌≡◌, ◌∷◌, ◌++◌, ◌||◌, [], OnOk};
ghost use Rattle.oss_grammar.specs.Pragmas.{is_single};
ghost use Rattle.oss_grammar.specs.Reading.{has};
ghost use Rattle.oss_expressions.specs.Singles.{single_of};
ghost use Rattle.oss_expressions.specs.TokenValues.{single_at, stands};
ghost use Rattle.oss_pragma.specs.PragmaReading.{counted_with, no_grain};

use oss_expressions::reading::{Once, TaskKind, once_is};
use oss_syntax::{Clause, List, Token};
use std::alloc::{AllocError, Global};
use std::marker::Model;

/// Clauses, and which of those stand among them that a task or a task loop has once at most. Contracts see the
/// list of the clauses.
#[derive(Drop)]
pub(crate) struct Found {
    clauses: List<Clause>,
    condition: bool,
    last: bool,
    wait: bool,
    label: bool,
    priority: bool,
    grain: bool,
}

impl Model for Found {
    ghost use Rattle.std.specs.Prelude.{List as Items};
    ghost use Rattle.oss_syntax.specs.declared.tree.pragma.Clause.{Clause};
    ghost use Rattle.oss_pragma.specs.Known.{AreKnown};
    ghost use Rattle.oss_syntax.specs.contracts.tree.pragma.Clause as clause_type;
    ghost use Rattle.std.specs.Coded.{codes};

    ghost Value = { Items Clause };

    ghost coded = { Prim.hlevel (codes, clause_type.the_row.coded) };

    ghost view = { λ f. f.clauses };

    ghost invariant = { λ f. AreKnown f.clauses f.condition f.last f.wait f.label f.priority f.grain };
}

impl Found {
    /// No clause.
    pub(crate) fn new(alloc: Global) -> Found
        ensures { result ≡ [] }
    {
        Found {
            clauses: List::new(alloc),
            condition: false,
            last: false,
            wait: false,
            label: false,
            priority: false,
            grain: false,
        }
    }

    /// Whether a clause that stands once at most was found.
    fn has(&self, once: Once) -> bool
        ensures { result ≡ stands (single_of once) self.now }
    {
        match once {
            Once::If => self.condition,
            Once::Final => self.last,
            Once::Wait => self.wait,
            Once::Label => self.label,
            Once::Priority => self.priority,
            Once::Grain => self.grain,
        }
    }

    /// Whether such a clause may stand no more: it was found, or it is the grainsize of a task.
    pub(crate) fn bars(&self, kind: TaskKind, once: Once) -> bool
        ensures { result ≡ stands (single_of once) (counted_with kind self.now) }
    {
        match kind {
            TaskKind::Task => either(is_grain(once), self.has(once)),
            TaskKind::Loop => self.has(once),
        }
    }

    /// Adds a clause at the end.
    pub(crate) fn push(&mut self, clause: Clause) -> Result<(), AllocError>
        ensures { OnOk result (self.new ≡ self.old ++ clause ∷ []) }
    {
        let condition = either(self.condition, stands_once(Once::If, &clause));
        let last = either(self.last, stands_once(Once::Final, &clause));
        let wait = either(self.wait, stands_once(Once::Wait, &clause));
        let label = either(self.label, stands_once(Once::Label, &clause));
        let priority = either(self.priority, stands_once(Once::Priority, &clause));
        let grain = either(self.grain, stands_once(Once::Grain, &clause));
        self.clauses.push(clause)?;
        self.condition = condition;
        self.last = last;
        self.wait = wait;
        self.label = label;
        self.priority = priority;
        self.grain = grain;
        Ok(())
    }

    /// The clauses in their order.
    pub(crate) fn into_list(self) -> List<Clause>
        ensures { result ≡ self }
    {
        let Found { clauses, .. } = self;
        clauses
    }

    /// Whether a token is the word of a clause that stands once at most, and may still stand.
    pub(crate) fn awaits(&self, kind: TaskKind, once: Once, token: &Token) -> bool
        ensures { result ≡ has (single_at (single_of once) (counted_with kind self.now)) token.now }
    {
        !self.bars(kind, once) && once_is(once, &token.what)
    }
}

/// One or the other, without a branch in the caller for each clause.
fn either(one: bool, other: bool) -> bool
    ensures { result ≡ (one || other) }
{
    one || other
}

/// Whether it is the grainsize.
fn is_grain(once: Once) -> bool
    ensures { result ≡ is_single (single_of once) no_grain }
{
    matches!(once, Once::Grain)
}

/// Whether a clause is of this kind.
fn stands_once(once: Once, clause: &Clause) -> bool
    ensures { result ≡ is_single (single_of once) clause.now }
{
    match once {
        Once::If => matches!(clause, Clause::If(_)),
        Once::Final => matches!(clause, Clause::Final(_)),
        Once::Wait => matches!(clause, Clause::Wait),
        Once::Label => matches!(clause, Clause::Label(_)),
        Once::Priority => matches!(clause, Clause::Priority(_)),
        Once::Grain => matches!(clause, Clause::Grain(_)),
    }
}
