//! What holds of the open tasks of each sequential run: laws, each carried by a function that does nothing.

ghost use Rattle.oss_free_tasks.specs.Claims.{FreeDeedsAreActs, OpenTasksGoOn};

/// Each act of a sequential run that is no fault leads to the open tasks behind it.
pub fn open_tasks_go_on<S>()
    ensures { OpenTasksGoOn S }
{}

/// The next act of a free run is what the counts of the first open task tell.
pub fn free_deeds_are_acts<S>()
    ensures { FreeDeedsAreActs S }
{}
