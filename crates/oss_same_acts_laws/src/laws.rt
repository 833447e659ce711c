//! What holds of two programs whose bodies do the same acts: laws, each carried by a function that does
//! nothing. A crate above calls the function for its types of scripts, and then has the law.

ghost use Rattle.oss_same_acts_laws.specs.AlikeWaves.{RunsByWavesAreAlike, TracesAreAlike};
ghost use Rattle.oss_same_acts_laws.specs.Claims.{AnswersAreAlike, BisimulationsTurn, CompleteAlike, JoinsAreAlike, LetsAreAlike, MovesAreAlike, OpeningsAreAlike, ProgramsDoAsThemselves, ResultsAreAlike, RunsAreAlike, StatesTurn, StepsAreAlike, StoppedAlike, TasksHavePartners};

/// A program does the same acts as itself.
pub fn programs_do_as_themselves<S>()
    ensures { ProgramsDoAsThemselves S }
{}

/// The opening states are alike where main begins alike.
pub fn openings_are_alike<S, T>()
    ensures { OpeningsAreAlike S T }
{}

/// A task of a state has a partner at the same path of a state that is alike.
pub fn tasks_have_partners<S, T>()
    ensures { TasksHavePartners S T }
{}

/// An act that may happen in the one state may happen in the other, and leads to states that are alike.
pub fn steps_are_alike<S, T>()
    ensures { StepsAreAlike S T }
{}

/// So does a cell that is given up.
pub fn lets_are_alike<S, T>()
    ensures { LetsAreAlike S T }
{}

/// And a slot that is joined.
pub fn joins_are_alike<S, T>()
    ensures { JoinsAreAlike S T }
{}

/// So each move of the one program is a move of the other.
pub fn moves_are_alike<S, T>()
    ensures { MovesAreAlike S T }
{}

/// And each run of the one is a run of the other.
pub fn runs_are_alike<S, T>()
    ensures { RunsAreAlike S T }
{}

/// What is complete in the one state is complete in the other.
pub fn complete_alike<S, T>()
    ensures { CompleteAlike S T }
{}

/// Where no move is left in the one state, none is left in the other.
pub fn stopped_alike<S, T>()
    ensures { StoppedAlike S T }
{}

/// States that are alike have the same answer.
pub fn answers_are_alike<S, T>()
    ensures { AnswersAreAlike S T }
{}

/// And the sequential runs have the same result.
pub fn results_are_alike<S, T>()
    ensures { ResultsAreAlike S T }
{}

/// The runs by waves have the same rounds, and come to states that are alike.
pub fn runs_by_waves_are_alike<S, T>()
    ensures { RunsByWavesAreAlike S T }
{}

/// So programs that do the same acts have the same traces.
pub fn traces_are_alike<S, T>()
    ensures { TracesAreAlike S T }
{}

/// Programs that do the same acts do so from the other side too.
pub fn bisimulations_turn<S, T>()
    ensures { BisimulationsTurn S T }
{}

/// And states that are alike are so.
pub fn states_turn<S, T>()
    ensures { StatesTurn S T }
{}
