//! What a tree tells of a state of the machine whose tasks and prints it keeps: laws, each carried by a
//! function that does nothing. A crate above calls the function for its type of scripts, and then has the law.

ghost use Rattle.oss_tree.specs.Runs.{CompleteIsComplete, CompleteIsFinished, LeastIsLeast, OutputBeforeIsOutput, OutputIsOutput};

/// A task of the tree is complete just where the task of the state is.
pub fn complete_is_complete<S>()
    ensures { CompleteIsComplete S }
{}

/// All tasks of the tree are complete just where the state is finished.
pub fn complete_is_finished<S>()
    ensures { CompleteIsFinished S }
{}

/// The least open task of the tree is the open task of the state that stands first in point order.
pub fn least_is_least<S>()
    ensures { LeastIsLeast S }
{}

/// The output of the tree is the output of the state.
pub fn output_is_output<S>()
    ensures { OutputIsOutput S }
{}

/// The output of the tree up to a point is that of the state up to that key.
pub fn output_before_is_output<S>()
    ensures { OutputBeforeIsOutput S }
{}
