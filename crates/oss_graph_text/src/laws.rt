//! Laws about the texts of graphs.

ghost use Rattle.oss_graph_text.specs.Claims.{BoxesHoldAllBelow, OneText};

/// A law, with nothing to run: a graph has one text.
pub fn a_graph_has_one_text()
    ensures { OneText }
{}

/// A law, with nothing to run: in a graph whose nodes rise in point order, the box of a task has all nodes that stand below
/// the task.
pub fn boxes_hold_all_below()
    ensures { BoxesHoldAllBelow }
{}
