//! That nothing is told of a program exactly if its run is right: laws, each carried by a function that does nothing.
//!
//! The order of reading in the proofs: MovedBodies, MovedRuns and MovedBack (the runs of two programs that ask alike, whose scripts are moved) and
//! MovedWalks (what is known on the way of their free runs); EmptyPieces (a set without pieces has no cell of a global), FewCells (past the last cell
//! nothing is asked), EmptyWords and ToldNothing (nothing is told exactly where nothing is lacking and no line was told); ExactTheorem, for any two such
//! programs; CodeMissing and ProgramsExact, for a program and its code; ExactLaws.

ghost use Rattle.oss_missing_program_laws.specs.Exact.{CodesEndWellAlike, NothingIsToldExactly, ToldFaultsAreOwn};

/// What is told of a program is nothing exactly if its own run ends without a fault of annotations.
pub fn nothing_is_told_exactly()
    ensures { NothingIsToldExactly }
{}

/// Where nothing is told of clauses, the fault that is told is that of the program's own run.
pub fn told_faults_are_own()
    ensures { ToldFaultsAreOwn }
{}

/// The run of a program ends without a fault of annotations exactly if that of its code does.
pub fn codes_end_well_alike()
    ensures { CodesEndWellAlike }
{}
