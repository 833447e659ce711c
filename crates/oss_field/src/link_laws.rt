//! What a link asks for can be met, also behind the messages that another link leaves: laws, each carried by a function that does nothing.

ghost use Rattle.oss_field.specs.LinkMeeting.{BegunMayLink, DeliveriesKeepMaking, FoldsKeepMaking, OthersMayLink};

/// A seat that has filled the count of a new task, and holds no message, stands to link each of the task's entries.
pub fn begun_may_link()
    ensures { BegunMayLink }
{}

/// After the link of one entry it stands to link another as before, once it holds no message: whatever it has done meanwhile,
/// if that has changed nothing of what it makes.
pub fn others_may_link()
    ensures { OthersMayLink }
{}

/// A message that is delivered changes nothing of what the seat makes.
pub fn deliveries_keep_making()
    ensures { DeliveriesKeepMaking }
{}

/// A fold changes nothing of what the seat makes.
pub fn folds_keep_making()
    ensures { FoldsKeepMaking }
{}
