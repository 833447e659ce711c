//! What holds of each task and each cell: laws, each carried by a function that does nothing. A crate above calls the function, and then has the law.

ghost use Rattle.std.specs.Prelude.{ℕ, Bool, List as Items};
ghost use Rattle.oss_syntax.specs.declared.access.Access.{Access as Clauses};
ghost use Rattle.oss_needs.specs.Claims.{AddedIsJoined, FewerAreNotMet, GivenIsRight, LacksAreFaults, LacksAreTold, MendedIsMet};

/// Clauses that can be joined lack something exactly where the judge would find a fault of what the task asks of the cell.
pub fn lacks_are_told()
    ensures { LacksAreTold }
{}

/// Once what is lacking is mended, the judge finds no fault of it.
pub fn mended_is_met()
    ensures { MendedIsMet }
{}

/// The language joins a clause that is lacking beside another one with that, as is told.
pub fn added_is_joined()
    ensures { AddedIsJoined }
{}

/// With a weak clause in place of a strong one that is lacking, a demand is not met, if no clause beside it is strong. Nor
/// is it with one to read in place of one of another mode, if no clause beside it does more than read.
pub fn fewer_are_not_met()
    ensures { FewerAreNotMet }
{}

/// Where clauses can be joined, what they say together gives the right and the mark that the judge gives to the new task.
pub fn given_is_right()
    ensures { (final : Bool) (clauses : Items Clauses) (c : ℕ) → GivenIsRight final clauses c }
{}

/// The clauses of a task lack nothing of a cell for which they can be joined exactly if the judge would find no fault of what the task asks of it,
/// if nothing is lent and nothing was released.
pub fn lacks_are_faults()
    ensures { LacksAreFaults }
{}
