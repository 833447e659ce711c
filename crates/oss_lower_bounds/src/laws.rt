//! What holds of every code and every text: laws, each carried by a function that does nothing. A crate above
//! calls the function, and then has the law.

ghost use Rattle.oss_lower_bounds.specs.Bounds.{CodesAreShort, NoTaskLoopIsLeft, PlacesAreCounted, PlacesAreShort, ScopesAgree, ScopesAreCounted, StatementsAreWritten, TaskEntriesFit, TextsAreSmall, TextsFitNumbers, WaysStayInside};

/// The code of a program has at most sixteen instructions for each part of the program and three more, and none
/// of them stands behind more values than there are parts, and one more.
pub fn codes_are_short()
    ensures { CodesAreShort }
{}

/// A program as which a text is read, each task loop in it written out, has at most four times as much size as
/// the text has bytes.
pub fn texts_are_small()
    ensures { TextsAreSmall }
{}

/// A statement leaves at most as many locals more in scope as it declares.
pub fn scopes_are_counted()
    ensures { ScopesAreCounted }
{}

/// Where a statement stands in a program, the locals in scope there and those that it declares are no more than
/// its function has.
pub fn places_are_counted()
    ensures { PlacesAreCounted }
{}

/// The numbers of the code that lowering writes are below 2^32 for each program as which a text of at most
/// 1,048,576 bytes is read, each task loop in it written out.
pub fn texts_fit_numbers()
    ensures { TextsFitNumbers }
{}

/// In a sound code of fewer than 2^32 instructions, the body of a task that is created begins at a place below
/// 2^32. So in such a code no creation is told as want of memory for its place.
pub fn task_entries_fit()
    ensures { TaskEntriesFit }
{}

/// In a sound code each way from an instruction leads to one. So of such a code that has fewer than 2^64
/// instructions no place ahead is told as want of memory.
pub fn ways_stay_inside()
    ensures { WaysStayInside }
{}

/// The instructions for the place of an expression are at most sixteen for each part of it, and none of them
/// stands behind more values than there are parts, with those that stood there before. So this holds too of code
/// that is thrown away, where the left side of an assignment designates no cell.
pub fn places_are_short()
    ensures { PlacesAreShort }
{}

/// The locals that are in scope behind a statement in its code are those that are in scope behind it in the text.
pub fn scopes_agree()
    ensures { ScopesAgree }
{}

/// The instructions of each statement of a function without task loops, written with the locals in scope with which
/// it stands in the text, stand together in the code of the program.
pub fn statements_are_written()
    ensures { StatementsAreWritten }
{}

/// With its task loops written out, as it is lowered, a program has none. So `statements_are_written` holds of each
/// statement of it.
pub fn no_task_loop_is_left()
    ensures { NoTaskLoopIsLeft }
{}
