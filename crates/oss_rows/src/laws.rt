//! What a book tells: laws, each carried by a function that does nothing.

ghost use Rattle.oss_rows.specs.Booked.{GrownBooksAreBooked, ToldAreLast};
ghost use Rattle.oss_rows.specs.OfTasks.{AllRowsAreOfState, CellRowsAreAdded, NewBooksAreOfNone, TaskRowsAreAdded};

/// A book to which the row of a new role was added has the roles with one more.
pub fn grown_books_are_booked()
    ensures { GrownBooksAreBooked }
{}

/// The last rows that a book has of a task's lists are the last that hang there, once the rows are filed.
pub fn told_are_last<S>()
    ensures { ToldAreLast S }
{}

/// A new book has no row.
pub fn new_books_are_of_none<S>()
    ensures { NewBooksAreOfNone S }
{}

/// The row of a task of a state itself is new, and with it the rows of the book are of tasks of the state still.
pub fn task_rows_are_added<S>()
    ensures { TaskRowsAreAdded S }
{}

/// The row of an access of a state is new, and with it the rows of the book are of tasks of the state still.
pub fn cell_rows_are_added<S>()
    ensures { CellRowsAreAdded S }
{}

/// With the rows of all tasks and accesses the rows are those of the state.
pub fn all_rows_are_of_state<S>()
    ensures { AllRowsAreOfState S }
{}
