//! What holds of runs by waves, whatever the program is: laws, each carried by a function that does nothing. A
//! crate above calls the function for its type of scripts, and then has the law.

ghost use Rattle.oss_wave_laws.specs.Alone.{PartFollows, PartGoesOn, WaveBegins, WaveFollows, WaveGoesOn};
ghost use Rattle.oss_wave_laws.specs.AtOnce.{PartAtOnce};
ghost use Rattle.oss_wave_laws.specs.Claims.{AnswerIsTheResult, HasRunByWaves, HasTrace, OneRunByWaves, OneTrace, PassMoves, ResultIsTheAnswer, RoundFalls, RoundMoves, RoundsStop, RunsGoOn, WaveMoves};
ghost use Rattle.oss_wave_laws.specs.Left.{EveryRunIsFinite, MovesFall, WeightsAreSummed};
ghost use Rattle.oss_wave_laws.specs.Parts.{OnePart, PartRuns};
ghost use Rattle.oss_wave_laws.specs.Waves.{TurnsStand, WaveCanBeMade};

/// A wave begins.
pub fn wave_begins<S>()
    ensures { WaveBegins S }
{}

/// An act that a task of a wave may do alone may be made after the parts of other tasks, and finds the same.
pub fn wave_goes_on<S>()
    ensures { WaveGoesOn S }
{}

/// The next act of a part that a body computes alone, over the memory of the wave's beginning, is a step of the
/// machine in the wave.
pub fn part_goes_on<S>()
    ensures { PartGoesOn S }
{}

/// A whole part that a body computes alone can be done in the wave.
pub fn part_follows<S>()
    ensures { PartFollows S }
{}

/// All parts of a wave, each computed over the memory of its beginning, can be done one after the other, in any order.
pub fn wave_follows<S>()
    ensures { WaveFollows S }
{}

/// A part may be done at once: where a state has just what the whole part leaves, its acts lead there.
pub fn part_at_once<S>()
    ensures { PartAtOnce S }
{}

/// The acts of a part are acts that its body may do alone.
pub fn part_runs<S>()
    ensures { PartRuns S }
{}

/// A body has one part only.
pub fn one_part<S>()
    ensures { OnePart S }
{}

/// In the state behind a wave each task has come where its part has come alone.
pub fn turns_stand<S>()
    ensures { TurnsStand S }
{}

/// Each act of the turns of a wave may be made at its turn.
pub fn wave_can_be_made<S>()
    ensures { WaveCanBeMade S }
{}

/// Weights may be summed over the tasks of a state in whatever order they are listed.
pub fn weights_are_summed<S>()
    ensures { WeightsAreSummed S }
{}

/// Each move leaves less to do.
pub fn moves_fall<S>()
    ensures { MovesFall S }
{}

/// No run of a lively program has more moves than are left at its beginning.
pub fn every_run_is_finite<S>()
    ensures { EveryRunIsFinite S }
{}

/// A state to which moves lead from a state of a run is one of a run.
pub fn runs_go_on<S>()
    ensures { RunsGoOn S }
{}

/// A wave is made of moves.
pub fn wave_moves<S>()
    ensures { WaveMoves S }
{}

/// So is a pass.
pub fn pass_moves<S>()
    ensures { PassMoves S }
{}

/// And a round.
pub fn round_moves<S>()
    ensures { RoundMoves S }
{}

/// A run by waves comes to a state of a run of the machine in which no move is left.
pub fn rounds_stop<S>()
    ensures { RoundsStop S }
{}

/// The result of the sequential run is the answer of that state.
pub fn result_is_the_answer<S>()
    ensures { ResultIsTheAnswer S }
{}

/// And it has no other.
pub fn answer_is_the_result<S>()
    ensures { AnswerIsTheResult S }
{}

/// A program has one run by waves: the rounds, and the state to which they come, but for how it lists its tasks.
pub fn one_run_by_waves<S>()
    ensures { OneRunByWaves S }
{}

/// So it has one trace.
pub fn one_trace<S>()
    ensures { OneTrace S }
{}

/// A round that begins where some move may be made leaves less to do.
pub fn round_falls<S>()
    ensures { RoundFalls S }
{}

/// A lively program has a run by waves.
pub fn has_run_by_waves<S>()
    ensures { HasRunByWaves S }
{}

/// So it has a trace.
pub fn has_trace<S>()
    ensures { HasTrace S }
{}
