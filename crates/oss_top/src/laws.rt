//! The laws of the replies of the top call.

ghost use Rattle.oss_top.specs.EveryOrder.{IsRunInEveryOrder};
ghost use Rattle.oss_top.specs.NothingMissing.{IsNothingMissing};
ghost use Rattle.oss_top.specs.OneReply.{IsDrawnOnce, IsExplainedOnce, IsMissedOnce, IsReplied, IsRepliedOnce, IsSpanned};

/// A law, with nothing to run: a text has one reply to a check, to a run, to a trace, to an audit and, as the
/// text that a soak makes, to a soak, and no other. So status, output and error output of each of these are
/// settled by the text. A run that tells which worker began each task is left out: those workers are free.
pub fn a_text_has_one_reply(text: &[u8])
    ensures { IsReplied text.now }
{}

/// A law, with nothing to run: a text has a reply to a span, and two have one status, one error output and the
/// same numbers of ticks. Which longest chain is told is free.
pub(crate) fn a_text_has_a_span(text: &[u8])
    ensures { IsSpanned text.now }
{}

/// A law, with nothing to run: a text has at most one reply to an explanation. So status, output and error output
/// of it are settled by the text and the fuel.
pub fn a_text_is_explained_in_one_way(text: &[u8])
    ensures { IsExplainedOnce text.now }
{}

/// A law, with nothing to run: a text has at most one reply with the graph of its tasks. So status, output and error
/// output of it are settled by the text and the fuel.
pub fn a_text_is_drawn_in_one_way(text: &[u8])
    ensures { IsDrawnOnce text.now }
{}

/// A law, with nothing to run: a text has at most one reply with what is missing of its clauses. So status, output
/// and error output of it are settled by the text and the fuel.
pub fn what_is_missing_is_told_in_one_way(text: &[u8])
    ensures { IsMissedOnce text.now }
{}

/// A law, with nothing to run: the reply with what is missing of an accepted text is that nothing is missing exactly
/// if the program's own run comes to its end; and it is a fault with an empty output exactly if that run comes to a
/// fault that is none of annotations, which it then tells.
pub fn nothing_is_missing_exactly(text: &[u8])
    ensures { IsNothingMissing text.now }
{}

/// A law, with nothing to run: the texts of a program and of a schedule have one reply to a replay, and no
/// other. So status, output and error output of a replay are settled by the texts and the fuel.
pub fn a_replay_has_one_reply(text: &[u8], schedule: &[u8])
    ensures { IsRepliedOnce text.now schedule.now }
{}

/// A law, with nothing to run: in whatever order the tasks of an accepted text run, as far as the moves of the
/// machine of tasks allow it, the answer is that of the reply to its run. Moves lead from the beginning of its
/// program to a state in which no move is left; such a state has an answer, and status, output and error output
/// of a run are those of this answer, with the lines behind it for which the run's options ask.
pub fn every_order_gives_the_reply(text: &[u8])
    ensures { IsRunInEveryOrder text.now }
{}
