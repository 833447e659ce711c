//! Laws, each carried by a function that does nothing. A crate above calls the function, and then has the law.

ghost use Rattle.oss_retire.specs.Claims.{ChildrenByLeft, DoneByLeft, DoneMayRetire, GiftsKeepRetired, LeftAreOrdered, LeftTell, MoreAreRetired, NoneAreRetired, OpeningsKeepRetired, RetiredTell};

/// What is left of the opened tasks goes from creators to their children.
pub fn left_are_ordered()
    ensures { LeftAreOrdered }
{}

/// Flags that tell of a task's access by what is left tell of it by all.
pub fn left_tell()
    ensures { LeftTell }
{}

/// Of a retired access all flags stand.
pub fn retired_tell()
    ensures { RetiredTell }
{}

/// An access that is left is done exactly where it is by what is left.
pub fn done_by_left()
    ensures { DoneByLeft }
{}

/// All children's accesses are done exactly where those that are left are.
pub fn children_by_left()
    ensures { ChildrenByLeft }
{}

/// All accesses that are done and may write may be retired at once.
pub fn done_may_retire()
    ensures { DoneMayRetire }
{}

/// Nothing need be retired.
pub fn none_are_retired()
    ensures { NoneAreRetired }
{}

/// What is retired stays so where more is given up.
pub fn gifts_keep_retired()
    ensures { GiftsKeepRetired }
{}

/// What is retired stays so where a task is opened.
pub fn openings_keep_retired()
    ensures { OpeningsKeepRetired }
{}

/// Of what is left more may be retired.
pub fn more_are_retired()
    ensures { MoreAreRetired }
{}
