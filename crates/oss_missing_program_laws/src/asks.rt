//! What bodies of programs ask for: laws, each carried by a function that does nothing.
//!
//! The order of reading in the proofs: CalmRuns (three runs of one body, under bounds that grow by one, and what is so of each in which no three
//! silent asks stand in a row and which releases plainly), CalmExpressions, CalmClauses, CalmMeanings, CalmNested, CalmSimple, CalmStatements and
//! CalmPrograms, a layer of the tree each, with the laws of programs; ReleaseForms and ParsedReleases, with the law of texts.

ghost use Rattle.oss_missing_program_laws.specs.Asks.{ProgramsReleasePlainly, ProgramsSettleInTwo, TextsReleaseByDependencies};

/// No body of a program has three silent asks in a row.
pub fn programs_settle_in_two()
    ensures { ProgramsSettleInTwo }
{}

/// A program in which each `release` has dependencies alone, and no reductions, releases by no clause of a reduction.
pub fn programs_release_plainly()
    ensures { ProgramsReleasePlainly }
{}

/// In the program as which a text is read, its task loops written out, each `release` has dependencies alone.
pub fn texts_release_by_dependencies()
    ensures { TextsReleaseByDependencies }
{}
