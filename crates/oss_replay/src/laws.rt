//! What holds of each replay: laws, each carried by a function that does nothing. A crate above calls the
//! function, and then has the law.

ghost use Rattle.oss_replay.specs.Claims.{AReplayHasOneEnd, AnAnsweredReplayIsTheRun};

/// One thing at most comes of a schedule that is replayed: the answer, the move that is not enabled, or how
/// many tasks are not complete.
pub fn a_replay_has_one_end()
    ensures { AReplayHasOneEnd }
{}

/// Where that is an answer, it is the answer of the sequential run.
pub fn an_answered_replay_is_the_run()
    ensures { AnAnsweredReplayIsTheRun }
{}
