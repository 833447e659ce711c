//! What holds of every free run: laws, each carried by a function that does nothing. A crate above calls the function
//! for its type of scripts, and then has the law.

ghost use Rattle.oss_freed.specs.Claims.{FreedFaultsAreItsOwn, FreedIsLively, FreedRunsNeedNoClauses};

/// Where a task of the free run stands before a fault of annotations, the program itself asks for that fault, or for
/// a cell that is not there.
pub fn freed_faults_are_its_own<S>()
    ensures { FreedFaultsAreItsOwn S }
{}

/// So a program that does neither has a free run whose answer is no fault of annotations.
pub fn freed_runs_need_no_clauses<S>()
    ensures { FreedRunsNeedNoClauses S }
{}

/// The free run of a lively program comes to its end, since the freed program is lively too.
pub fn freed_is_lively<S>()
    ensures { FreedIsLively S }
{}
