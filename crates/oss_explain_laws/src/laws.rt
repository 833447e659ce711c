//! What holds of every explanation: a law, carried by a function that does nothing. A crate above calls the function,
//! and then has the law.

ghost use Rattle.oss_explain_laws.specs.Claims.{EndingsAlike, EndingsAreOne, FailuresAreOne};

/// The end of a program's run, with the explanation of its fault, is that of its code's run, and the other way round.
pub fn endings_alike()
    ensures { EndingsAlike }
{}

/// The run of a program has one end, and its fault one explanation, whatever the cells and the globals are.
pub fn endings_are_one<S>()
    ensures { EndingsAreOne S }
{}

/// In the run of a program one thing failed, whatever code it was lowered to.
pub fn failures_are_one()
    ensures { FailuresAreOne }
{}
