//! Laws of schedules and traces, each carried by a function that does nothing. A crate above calls the
//! function, and then has the law.
ghost use Rattle.oss_sched.specs.Schedules.{IsReadOnce};
ghost use Rattle.oss_sched.specs.Traces.{IsTraceRead};

use crate::moves::WaveRecord;

/// A law, with nothing to run: a text has at most one list of moves, none where a line is wrong, and at most one first
/// wrong line; and a line is at most one move, and none where it is empty or a comment.
#[tactic(auto, using(crate::proofs::OneReading::read_once))]
pub fn a_schedule_has_one_reading(text: &[u8])
    ensures { IsReadOnce text.now }
{}

/// A law, with nothing to run: the text of a record whose moves are within their limits is a schedule of these
/// moves, in their order.
#[tactic(auto, using(crate::proofs::TraceLemmas::trace_read))]
pub fn a_trace_is_a_schedule(waves: &WaveRecord)
    ensures { IsTraceRead waves.now }
{}
