//! To which children a cell is lent.

ghost use Rattle.std.specs.Prelude.{◌≡◌};
ghost use Rattle.oss_lent_cells.specs.Lent.{counted as counted_by};
ghost use Rattle.oss_lent_cells.specs.Kept.{holder_by as held_by};

use oss_needs::Clause;

/// A child that gets cells.
#[derive(Clone, Copy)]
pub struct Child {
    /// Its creator had created so many before it.
    pub number: u32,
    /// The line of its creation.
    pub line: u32,
    /// It is final, or a final task created it: each of its clauses counts as strong.
    pub is_final: bool,
}

/// A child that has a cell.
#[derive(Clone, Copy, PartialEq, Eq)]
pub struct Holder {
    /// Its creator had created so many before it.
    pub number: u32,
    /// The line of its creation.
    pub line: u32,
    /// By what it has the cell.
    pub clause: Clause,
}

/// To whom a cell is lent.
#[derive(Clone, Copy, PartialEq, Eq)]
pub struct Lent {
    /// The first child that has the cell.
    pub first: Holder,
    /// The first that may do more than read it.
    pub writer: Option<Holder>,
}

/// What a clause says as it counts: each clause of a final task counts as strong.
pub fn counted(clause: Clause, is_final: bool) -> Clause
    ensures { result ≡ counted_by is_final clause }
{
    Clause {
        mode: clause.mode,
        strong: is_final || clause.strong,
        fresh: clause.fresh,
    }
}

/// The child with the clause by which it has a cell, as that counts.
pub(crate) fn holder_by(child: Child, clause: Clause) -> Holder
    ensures { result ≡ held_by child clause }
{
    Holder {
        number: child.number,
        line: child.line,
        clause: counted(clause, child.is_final),
    }
}
