//! What holds of the accesses to one cell, whatever keeps them: laws, each carried by a function that does
//! nothing. A crate above calls the function, and then has the law.

ghost use Rattle.oss_access_lists.specs.Claims.{BeginningsStand, DeliveriesKeep, DueIsSo, GiftsKeep, GiftsStay, LastTellsOfAll, OpeningsKeep, OpeningsStay, QuietIsAtRest, RestIsExact};

/// What is due by flags that are so is so: no flag comes too early.
pub fn due_is_so()
    ensures { DueIsSo }
{}

/// Where all that is due stands, each flag stands exactly where what it says is so: no flag is missing.
pub fn rest_is_exact()
    ensures { RestIsExact }
{}

/// There the flags of the last access of a list tell exactly whether all accesses in it are done.
pub fn last_tells_of_all()
    ensures { LastTellsOfAll }
{}

/// Where nothing waits, all that is due stands.
pub fn quiet_is_at_rest()
    ensures { QuietIsAtRest }
{}

/// At the beginning all that is due stands or waits, and what stands or waits is so.
pub fn beginnings_stand()
    ensures { BeginningsStand }
{}

/// An opening keeps it that all that is due stands or waits, and that what stands or waits is so.
pub fn openings_keep()
    ensures { OpeningsKeep }
{}

/// So does a gift.
pub fn gifts_keep()
    ensures { GiftsKeep }
{}

/// And so does the delivery of flags at one access.
pub fn deliveries_keep()
    ensures { DeliveriesKeep }
{}

/// What is so of an access stays so where another one is opened.
pub fn openings_stay()
    ensures { OpeningsStay }
{}

/// And where a task gives up the cell.
pub fn gifts_stay()
    ensures { GiftsStay }
{}
