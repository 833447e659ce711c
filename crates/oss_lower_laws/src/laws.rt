//! What holds of the code of every program, accepted or not: laws, each carried by a function that does
//! nothing. A crate above calls the function, and then has the law.

ghost use Rattle.oss_lower_laws.specs.Programs.{AProgramHasOneOutcome, AcceptedPlacesAreTold, AcceptedProgramsHaveOneOutcome, BoundsAreEnough, CodesAreOne, CodesAreSound, CodesAskAlike, MainOutcomesAlike, OutcomesAlike, OutcomesAreOne, ProgramsAreLively, ProgramsHaveCodes, ProgramsHaveOneOutcome};

/// The code that a program becomes is a code of it: each body of the program has a place in the code, and the
/// body at that place asks for the same, on the same lines, after any answers. `main` is at the first
/// instruction.
pub fn codes_ask_alike()
    ensures { CodesAskAlike }
{}

/// The code of a program is sound, so that `Code::build` takes it.
pub fn codes_are_sound()
    ensures { CodesAreSound }
{}

/// A program is lowered to one code.
pub fn codes_are_one()
    ensures { CodesAreOne }
{}

/// A program that has a code is lively: between two ticks a body of it asks for a bounded number of other things.
pub fn programs_are_lively()
    ensures { ProgramsAreLively }
{}

/// A program that has a code asks the same under each bound on calls and turns that its answers do not pass.
pub fn bounds_are_enough()
    ensures { BoundsAreEnough }
{}

/// The sequential run of a program gives what that of a code of it gives, and the other way round: the same
/// answer, as many tasks, and as many entries.
pub fn outcomes_alike()
    ensures { OutcomesAlike }
{}

/// So from the start, where the cells begin with numbers of 64 bits.
pub fn main_outcomes_alike()
    ensures { MainOutcomesAlike }
{}

/// The sequential run of a program has at most one outcome, whatever main and the cells are.
pub fn outcomes_are_one()
    ensures { OutcomesAreOne }
{}

/// The sequential run of a program that has a code has one outcome.
pub fn programs_have_one_outcome()
    ensures { ProgramsHaveOneOutcome }
{}

/// A program has a code where each of its globals has a place: it has a cell, no row of it has none, there are
/// at most 1,048,576 cells in all, and it begins with a number of 64 bits.
pub fn programs_have_codes()
    ensures { ProgramsHaveCodes }
{}

/// The sequential run of such a program, from the start and with so much fuel for each task, has one outcome.
pub fn a_program_has_one_outcome()
    ensures { AProgramHasOneOutcome }
{}

/// So has that of a program as which a text is accepted, each task loop in it written out.
pub fn accepted_programs_have_one_outcome()
    ensures { AcceptedProgramsHaveOneOutcome }
{}

/// Each global of a program as which a text is accepted, each task loop in it written out, has a place, and that
/// can be told in numbers of 32 bits. So what is asked where a global lies refuses no such program.
pub fn accepted_places_are_told()
    ensures { AcceptedPlacesAreTold }
{}
