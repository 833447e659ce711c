//! What the words over the rows of a state tell: laws, each carried by a function that does nothing. A crate above calls
//! the function for its types, and then has the law.

ghost use Rattle.oss_filing.specs.Opening.{FiledRowsRest, FiledRowsStand, PlannedRowsFit, RowCountsStand};

use oss_roles::jobs::Jobs;

/// Rows that are those of roles may be filed, and their tasks have counts.
pub fn planned_rows_fit()
    ensures { PlannedRowsFit }
{}

/// The words over the rows of a state stand for it: they keep their rule, their entries have the roles of the state's
/// accesses, all of these are filed, and what is given up is what the state has given up.
pub fn filed_rows_stand<S>()
    ensures { FiledRowsStand S }
{}

/// The counts over these words are those that the tasks of the state wait for.
pub fn row_counts_stand<S>()
    ensures { RowCountsStand S }
{}

/// With these words and counts, and the jobs of all tasks in their slots, a field is at rest at the state.
pub fn filed_rows_rest<S, J, R: Jobs<S, J>>()
    ensures { FiledRowsRest S J R.is_job }
{}
