//! What holds of the edges of every graph: laws, each carried by a function that does nothing. A crate above calls the
//! function, and then has the law.

ghost use Rattle.oss_graph_edges_laws.specs.Claims.{EdgesAreNearest, EdgesAreWaits, EdgesJoinNodes, GroupsAreWhole, NoEdgeLeadsPast, WaysAreDrawn};

/// A task whose access to a cell is satisfied waits no more for one on which it stands: that one's access is done. So each edge is a
/// wait that the definitions of waiting name.
pub fn edges_are_waits<S>()
    ensures { EdgesAreWaits S }
{}

/// Of two children of one task whose accesses to a cell conflict, a way of edges leads from the earlier one to the later one.
pub fn ways_are_drawn()
    ensures { WaysAreDrawn }
{}

/// An edge for a cell leads from an earlier access that conflicts with the later one, and no access between them conflicts with
/// both.
pub fn edges_are_nearest()
    ensures { EdgesAreNearest }
{}

/// Where an edge leads from one access of a cell to another, no way of edges for this cell leads there by a third one.
pub fn no_edge_leads_past()
    ensures { NoEdgeLeadsPast }
{}

/// The accesses of a cell from which edges lead to one are a whole group, and no others.
pub fn groups_are_whole()
    ensures { GroupsAreWhole }
{}

/// Both ends of each edge of a run's graph are nodes of it, of two children of one task, the earlier one first.
pub fn edges_join_nodes<S>()
    ensures { EdgesJoinNodes S }
{}
