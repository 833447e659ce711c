//! What holds of every run of tasks, whatever the program is: laws, each carried by a function that does
//! nothing. A crate above calls the function for its type of scripts, and then has the law.

ghost use Rattle.oss_model.specs.Claims.{EveryMainIsASetting, OpeningAgrees, StepAgrees, LetAgrees, JoinAgrees, EveryStateAgrees, OpenTasksMove, RunKeepsOutput, ActsUpToFault, ActsUpToEnd, EarlierConflictsAreDone, EveryStopIsTheEnd, EveryAnswerIsTheResult, EveryResultIsTheAnswer, AnswersAreOne, DoneStays, WriteStays, ReadStays, JoinStays, ReadyStays, CompleteStays, WaitStays, TaskGoesOn, StepsExclude, JoinExcludes};
ghost use Rattle.oss_model.specs.Marks.{EveryReadHasAValue, NoValueIsMissed, OutStartsUnwritten};
ghost use Rattle.oss_model.specs.Matching.{MatchingForestsAgree, MatchingStateAgrees};
ghost use Rattle.oss_model.specs.Potential.{BodyFalls, CreationFalls};
ghost use Rattle.oss_model.specs.Termination.{RunEnds, RunHasResult};

/// Main may start over any memory of 64-bit numbers.
pub fn every_main_is_a_setting<S>()
    ensures { EveryMainIsASetting S }
{}

/// The opening state agrees with every stage of the sequential run.
pub fn opening_agrees<S>()
    ensures { OpeningAgrees S }
{}

/// An act that may happen takes a state that agrees to one that agrees.
pub fn step_agrees<S>()
    ensures { StepAgrees S }
{}

/// A cell that may be given up takes a state that agrees to one that agrees.
pub fn let_agrees<S>()
    ensures { LetAgrees S }
{}

/// A slot that may be joined takes a state that agrees to one that agrees.
pub fn join_agrees<S>()
    ensures { JoinAgrees S }
{}

/// Every state of every run agrees with every stage of the sequential run.
pub fn every_state_agrees<S>()
    ensures { EveryStateAgrees S }
{}

/// While a task is open, some move may be made, or the open task with the least key stands before a fault.
pub fn open_tasks_move<S>()
    ensures { OpenTasksMove S }
{}

/// The sequential run prints in point order.
pub fn run_keeps_output<S>()
    ensures { RunKeepsOutput S }
{}

/// The sequential run of a lively program comes to its end.
pub fn run_ends<S>()
    ensures { RunEnds S }
{}

/// So it has an answer.
pub fn run_has_result<S>()
    ensures { RunHasResult S }
{}

/// The acts of a state that are not past the fault of the sequential run are acts of that run.
pub fn acts_up_to_fault<S>()
    ensures { ActsUpToFault S }
{}

/// Where the sequential run has ended without a fault, the acts of a state are acts of that run.
pub fn acts_up_to_end<S>()
    ensures { ActsUpToEnd S }
{}

/// Where a touch is done, each touch of the sequential run before it that conflicts with it is done.
pub fn earlier_conflicts_are_done<S>()
    ensures { EarlierConflictsAreDone S }
{}

/// Where no move is left, a state has done what the sequential run has done at its end.
pub fn every_stop_is_the_end<S>()
    ensures { EveryStopIsTheEnd S }
{}

/// Where no move is left, the answer of the state is that of the sequential run: output, and cells or fault and line.
pub fn every_answer_is_the_result<S>()
    ensures { EveryAnswerIsTheResult S }
{}

/// Where no move is left, the answer of the sequential run is that of the state.
pub fn every_result_is_the_answer<S>()
    ensures { EveryResultIsTheAnswer S }
{}

/// A state has no two answers.
pub fn answers_are_one<S>()
    ensures { AnswersAreOne S }
{}

/// An access that is done stays so.
pub fn done_stays<S>()
    ensures { DoneStays S }
{}

/// An access in whose way nothing earlier stands for a write stays so.
pub fn write_stays<S>()
    ensures { WriteStays S }
{}

/// An access in whose way nothing earlier stands for a read stays so.
pub fn read_stays<S>()
    ensures { ReadStays S }
{}

/// An access in whose way nothing earlier stands for a join stays so.
pub fn join_stays<S>()
    ensures { JoinStays S }
{}

/// A task that is ready stays so.
pub fn ready_stays<S>()
    ensures { ReadyStays S }
{}

/// A task that is complete stays so.
pub fn complete_stays<S>()
    ensures { CompleteStays S }
{}

/// What a waiting act waits for stays met.
pub fn wait_stays<S>()
    ensures { WaitStays S }
{}

/// A task of a state is there after each move, with the same start, no act undone and no cell taken back.
pub fn task_goes_on<S>()
    ensures { TaskGoesOn S }
{}

/// Two tasks that may both act now touch no cell in conflict.
pub fn steps_exclude<S>()
    ensures { StepsExclude S }
{}

/// While a slot with a fold may be joined, no task that may act now touches the cell.
pub fn join_excludes<S>()
    ensures { JoinExcludes S }
{}

/// Partners in two matching forests of accesses are done and satisfied alike.
pub fn matching_forests_agree<K, L>()
    ensures { MatchingForestsAgree K L }
{}

/// The accesses of a state and their partners in a matching forest are done and satisfied alike.
pub fn matching_state_agrees<S, L>()
    ensures { MatchingStateAgrees S L }
{}

/// What a task loads, or folds into under a right to write, has a value for it: it began written, or the task
/// has written it.
pub fn every_read_has_a_value<S>()
    ensures { EveryReadHasAValue S }
{}

/// A task that touches a cell which has a value for it does not stand before the fault Unwritten.
pub fn no_value_is_missed<S>()
    ensures { NoValueIsMissed S }
{}

/// A new task has a cell unwritten exactly where it may write it and names it by `out` alone.
pub fn out_starts_unwritten<S>()
    ensures { OutStartsUnwritten S }
{}

/// What is left to do for a body of a lively program falls with each of its acts, but for the creation of a
/// task of its own.
pub fn every_body_falls<S>()
    ensures { BodyFalls S }
{}

/// Behind such a creation, what is left for the creator and for the new task together is less than what was
/// left for the creator.
pub fn every_creation_falls<S>()
    ensures { CreationFalls S }
{}
