//! The laws of the jobs of a table.

ghost use Rattle.oss_close_laws.specs.Printed.{ListedBodiesPrint};
ghost use Rattle.oss_close_laws.specs.Tabled.{ClosedTablesList};

/// The words and slots of a table tell a state, as they do if nothing is under way. Then the bodies of the jobs in slot 0 and in
/// the slots of all numbers whose counts were filled, in rising order, are those of all tasks of the state: main's first, each
/// creator's before those of what it has created, and siblings in their order.
pub fn closed_tables_list()
    ensures { ClosedTablesList }
{}

/// Bodies of all tasks of a state in a list: what each of them has printed, one body after the other, is what a core may keep
/// as the prints of the state. Prints of one key are those of one body, so their order stays.
pub fn listed_bodies_print()
    ensures { ListedBodiesPrint }
{}
