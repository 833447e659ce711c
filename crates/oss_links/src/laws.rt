//! Laws, each carried by a function that does nothing. A crate above calls the function, and then has the law.

ghost use Rattle.oss_links.specs.Claims.{AlikeHold, ChildSearchBegins, ChildSearchEnds, ChildSearchGoesBack, CreatorsAreHeld, CreatorsHold, EmptyListsHold, FlagsTell, GiftsHold, GiversAreHeld, LastChildTells, MainIsMet, MetByFlags, NewTablesHold, NoAccessNoChild, OpeningsAsideHold, OpeningsHold, SearchBegins, SearchEnds, SearchGoesBack, SearchGoesUp, TablesGive, TablesGrow, TablesLend, TablesShow, TablesStay, WaysAreTasks, WaysHinder};

/// A system that was told of no task has empty lists.
pub fn empty_lists_hold()
    ensures { EmptyListsHold }
{}

/// A task that is opened with the cell is held once its access is hung in the list of its creator.
pub fn openings_hold()
    ensures { OpeningsHold }
{}

/// A task that is opened without the cell changes nothing in its lists.
pub fn openings_aside_hold()
    ensures { OpeningsAsideHold }
{}

/// Where a task gives up the cell, its access is given up.
pub fn gifts_hold()
    ensures { GiftsHold }
{}

/// Nothing else matters than how the lists hang, whose the accesses are, and what is given up at this cell.
pub fn alike_hold()
    ensures { AlikeHold }
{}

/// The access of the creator of a task that may be opened may lend the cell: it is not given up, and its mode
/// covers the new one.
pub fn creators_hold()
    ensures { CreatorsHold }
{}

/// There is such an access, or the creator is main.
pub fn creators_are_held()
    ensures { CreatorsAreHeld }
{}

/// A task that may give up a range has an access to each of its cells.
pub fn givers_are_held()
    ensures { GiversAreHeld }
{}

/// The flags of an access tell of its task: what may go on by what was opened and given up.
pub fn flags_tell()
    ensures { FlagsTell }
{}

/// A task is met exactly where at each cell the flag stands that its access there asks for.
pub fn met_by_flags()
    ensures { MetByFlags }
{}

/// Main is met.
pub fn main_is_met()
    ensures { MainIsMet }
{}

/// All children's accesses are done exactly where the flags of the last one tell so.
pub fn last_child_tells()
    ensures { LastChildTells }
{}

/// The children of a task without an access to the cell have none there.
pub fn no_access_no_child()
    ensures { NoAccessNoChild }
{}

/// The search for what an access waits for begins at the access.
pub fn search_begins()
    ensures { SearchBegins }
{}

/// It goes past the access before, where that may be passed.
pub fn search_goes_back()
    ensures { SearchGoesBack }
{}

/// It goes up from the first of a list.
pub fn search_goes_up()
    ensures { SearchGoesUp }
{}

/// It ends at the access before, where that may not be passed.
pub fn search_ends()
    ensures { SearchEnds }
{}

/// What stands in the way of a task's access hinders the task.
pub fn ways_hinder()
    ensures { WaysHinder }
{}

/// The access that stands in the way is a task's.
pub fn ways_are_tasks()
    ensures { WaysAreTasks }
{}

/// The search for a child that is not done begins at the last one.
pub fn child_search_begins()
    ensures { ChildSearchBegins }
{}

/// It goes back past one that is over.
pub fn child_search_goes_back()
    ensures { ChildSearchGoesBack }
{}

/// It ends at one that is not over.
pub fn child_search_ends()
    ensures { ChildSearchEnds }
{}

/// The table with main's row alone is that of a system that was told of no task.
pub fn new_tables_hold()
    ensures { NewTablesHold }
{}

/// A task that may be opened with the cell has its creator in the table, by the number of its open.
pub fn tables_lend()
    ensures { TablesLend }
{}

/// Once its access is hung there, and its number appended, the table is that of the system with the task.
pub fn tables_grow()
    ensures { TablesGrow }
{}

/// A task without the cell leaves the table as it is.
pub fn tables_stay()
    ensures { TablesStay }
{}

/// A task that was opened with the cell is in the table, by the number of its open.
pub fn tables_show()
    ensures { TablesShow }
{}

/// Where its access is given up, the table is that of the system in which the task has given up the cell.
pub fn tables_give()
    ensures { TablesGive }
{}
