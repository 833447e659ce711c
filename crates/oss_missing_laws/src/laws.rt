//! Laws, each carried by a function that does nothing.

ghost use Rattle.oss_missing_laws.specs.Claims.{LacksGrow, LendingIsKept, MarksAreKept, MetIsUnbroken, NamesAreJudged, TouchesAreJudged};
ghost use Rattle.oss_missing_laws.specs.Numbers.{WalksNumberAlike};
ghost use Rattle.oss_missing_laws.specs.Missing.{AnswersAreOne, MissingExactly, NothingIsMissing, NothingIsWrong, RunsEndAlike};

/// The judge finds no fault of a touch exactly where the cell is not released, no child hinders the touch, and the clauses meet it.
pub fn touches_are_judged()
    ensures { TouchesAreJudged }
{}

/// So it is with cells that a creation, a release or a wait names.
pub fn names_are_judged()
    ensures { NamesAreJudged }
{}

/// What meets a demand is told by the tests by which lacks are found.
pub fn met_is_unbroken()
    ensures { MetIsUnbroken }
{}

/// A cell has the mark that its demands tell.
pub fn marks_are_kept()
    ensures { MarksAreKept }
{}

/// What is lent of a cell is what the judge lends.
pub fn lending_is_kept()
    ensures { LendingIsKept }
{}

/// Lacks only grow.
pub fn lacks_grow()
    ensures { LacksGrow }
{}

/// Where the free run of a program shows that nothing is missing, the program's own run ends as it does.
pub fn runs_end_alike<S>()
    ensures { RunsEndAlike S }
{}

/// So no fault of annotations stops it.
pub fn nothing_is_wrong<S>()
    ensures { NothingIsWrong S }
{}

/// The other way round: where the program's own run ends without a fault of annotations, the walks over its free run show that nothing is missing.
pub fn nothing_is_missing<S>()
    ensures { NothingIsMissing S }
{}

/// Where nothing is missing, the answer of the free run is that of the program's own run.
pub fn answers_are_one<S>()
    ensures { AnswersAreOne S }
{}

/// So the walks show that nothing is missing exactly if no fault of annotations stops the program's own run.
pub fn missing_exactly<S>()
    ensures { MissingExactly S }
{}

/// Both walks number the tasks alike, so that a task gets the lines that the second walk has for its number.
pub fn walks_number_alike<S>()
    ensures { WalksNumberAlike S }
{}
