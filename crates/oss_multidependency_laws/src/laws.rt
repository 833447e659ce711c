//! What holds of every program with multidependencies, accepted or not: laws, each carried by a function that
//! does nothing.

ghost use Rattle.oss_multidependency_laws.specs.Claims.{GroupingsHaveOneOutcome, SpelledMeansTheSame, UnrolledClausesMeanTheSame, UnrolledProgramsHaveOneOutcome, UnrolledSectionsMeanTheSame, UnrolledTextsHaveOneOutcome};

/// An expression with a number spelled in place of a name means what it means where the newest local has this
/// name and this number, and is signed.
pub fn spelled_means_the_same()
    ensures { SpelledMeansTheSame }
{}

/// Sections with their multidependencies unrolled evaluate the same, have the same faults, and declare the same
/// cells in the same order.
pub fn unrolled_sections_mean_the_same()
    ensures { UnrolledSectionsMeanTheSame }
{}

/// So do clauses.
pub fn unrolled_clauses_mean_the_same()
    ensures { UnrolledClausesMeanTheSame }
{}

/// However the clauses of creations and releases and the sections of waits group their cells, the sequential
/// run has one outcome.
pub fn groupings_have_one_outcome<S>()
    ensures { GroupingsHaveOneOutcome S }
{}

/// A program in which calls and declarations fit, and the program with its multidependencies unrolled, have one
/// outcome.
pub fn unrolled_programs_have_one_outcome()
    ensures { UnrolledProgramsHaveOneOutcome }
{}

/// So have the program as which a text is accepted, and this program with its multidependencies unrolled: what
/// is an outcome of one is one of the other.
pub fn unrolled_texts_have_one_outcome()
    ensures { UnrolledTextsHaveOneOutcome }
{}
