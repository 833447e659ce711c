//! What holds of every graph: a law, carried by a function that does nothing. A crate above calls the function, and then
//! has the law.

ghost use Rattle.oss_graph_laws.specs.Claims.{GraphsAlike, GraphsAreOne};

/// The graph of a program's run is that of its code's run, and the other way round; a body is named by its place in the
/// code.
pub fn graphs_alike()
    ensures { GraphsAlike }
{}

/// The run of a program has one graph, whatever the cells and the globals are.
pub fn graphs_are_one<S>()
    ensures { GraphsAreOne S }
{}
