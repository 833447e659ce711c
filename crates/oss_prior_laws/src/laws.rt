//! What holds of runs by turns, whatever the program is: laws, each carried by a function that does nothing. A
//! crate above calls the function for its type of scripts, and then has the law.

ghost use Rattle.oss_prior_laws.specs.Claims.{AnswerIsTheResult, CandidatesStay, EachBeginsOnce, HasOrder, OneOrder, OneRunByTurns, TurnsStop};

/// A program has one run by turns: the tasks that begin, in their order, and the state to which the turns come, but
/// for how it lists its tasks.
pub fn one_run_by_turns<S>()
    ensures { OneRunByTurns S }
{}

/// So it has one order.
pub fn one_order<S>()
    ensures { OneOrder S }
{}

/// A lively program has an order.
pub fn has_order<S>()
    ensures { HasOrder S }
{}

/// A task that can step can still do so after the turns of others, until its own.
pub fn candidates_stay<S>()
    ensures { CandidatesStay S }
{}

/// Turns come to a state of a run of the machine in which no move is left.
pub fn turns_stop<S>()
    ensures { TurnsStop S }
{}

/// The answer there is the result of the sequential run.
pub fn answer_is_the_result<S>()
    ensures { AnswerIsTheResult S }
{}

/// The tasks that begin are tasks of the state at the end, each once; and each task of it, if all are complete.
pub fn each_begins_once<S>()
    ensures { EachBeginsOnce S }
{}
