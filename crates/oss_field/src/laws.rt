//! What calls of a field ask for can be met: laws, each carried by a function that does nothing.

ghost use Rattle.oss_field.specs.Meeting.{ReadersMayGive, ReadersMayLeave, TakersHold};

/// A job that was just taken is one that the seat holds.
pub fn takers_hold()
    ensures { TakersHold }
{}

/// A seat that holds the job of a task which has ended, and finds that its entry on a cell is not given up, stands to
/// give it up, if the task has no strong reduction there.
pub fn readers_may_give()
    ensures { ReadersMayGive }
{}

/// A seat that holds the job of a task which has ended, and finds that its entry of a strong reduction is neither left
/// nor given up, stands to leave the value of the slot.
pub fn readers_may_leave()
    ensures { ReadersMayLeave }
{}
