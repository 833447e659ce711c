//! The law of bodies in a list.

ghost use Rattle.oss_listed_laws.specs.Listed.{ListedTasksStand};

/// If a list has the bodies of all tasks of a state that a run can reach, each creator's before those of what it has created
/// and siblings in their order, then there are entries of a dependency system for these tasks, so that list, entries and
/// the cells that are given up stand for the state, as a core asks of what it keeps.
pub fn listed_tasks_stand()
    ensures { ListedTasksStand }
{}
