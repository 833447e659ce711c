//! The lines of nodes, in boxes.

ghost use Rattle.std.specs.Prelude.{◌≡◌, ◌≤◌, ◌<◌, ◌+◌, ◌++◌, length, OnOk};
ghost use Rattle.oss_labels.specs.Lists.{label_at};
ghost use Rattle.oss_graph_text.specs.Adding.{AddsNodes};
ghost use Rattle.oss_graph_text.specs.Boxes.{box_begin, box_end, box_line, count_below as how_many_below};
ghost use Rattle.oss_graph_text.specs.Labels.{node_text};
ghost use Rattle.oss_graph_text.specs.Points.{indent};

use crate::labels::add_node;
use crate::points::is_below;
use crate::words::{add, add_indent, add_point};
use oss_labels::Labels;
use oss_task_graph::{Node, Stop};
use std::alloc::{AllocError, Global};

/// Adds nodes that stand in as many boxes as there are levels but one, each with those that stand below it. Condition: the
/// levels below can be counted.
pub(crate) fn add_nodes(
    alloc: Global,
    labels: &Labels,
    fault: &Option<Stop>,
    level: usize,
    nodes: &[Node],
    text: &mut Vec<u8>,
) -> Result<(), AllocError>
    requires { level + length nodes.now < 18446744073709551616 }
    ensures { OnOk result (AddsNodes (label_at labels.now) fault.now level nodes.now text.old.items text.new.items) }
{
    let mut left = nodes;
    'nodes: while let Some((node, rest)) = left.split_first() {
        let (below, past) = rest.split_at(count_below(node, rest));
        add_begin(alloc, labels, fault, level, node, below, text)?;
        add_nodes(alloc, labels, fault, level + 1, below, text)?;
        add_end(level, below, text)?;
        left = past;
    }
    Ok(())
}

/// How many of the nodes that follow this one directly stand below it.
fn count_below(node: &Node, rest: &[Node]) -> usize
    ensures same { result ≡ how_many_below node.now rest.now }
    ensures within { result ≤ length rest.now }
{
    let mut count = 0;
    for other in rest {
        if !is_below(node.task.as_slice(), other.task.as_slice()) {
            return count;
        }
        count += 1;
    }
    count
}

/// Adds the line of a node, and before it the begin of its box, if it has one.
fn add_begin(
    alloc: Global,
    labels: &Labels,
    fault: &Option<Stop>,
    level: usize,
    node: &Node,
    below: &[Node],
    text: &mut Vec<u8>,
) -> Result<(), AllocError>
    requires { level < 18446744073709551615 }
    ensures { OnOk result (text.new.items ≡ text.old.items ++ box_begin (label_at labels.now) fault.now level node.now below.now) }
{
    if below.is_empty() {
        return add_line(alloc, labels, fault, level, node, text);
    }
    add_box(alloc, level, node, text)?;
    add_line(alloc, labels, fault, level + 1, node, text)
}

/// Adds the line of a node.
fn add_line(
    alloc: Global,
    labels: &Labels,
    fault: &Option<Stop>,
    level: usize,
    node: &Node,
    text: &mut Vec<u8>,
) -> Result<(), AllocError>
    ensures { OnOk result (text.new.items ≡ text.old.items ++ (indent level ++ node_text (label_at labels.now) fault.now node.now)) }
{
    add_indent(level, text)?;
    add_node(alloc, labels, fault, node, text)
}

/// Adds the begin of a box.
fn add_box(alloc: Global, level: usize, node: &Node, text: &mut Vec<u8>) -> Result<(), AllocError>
    ensures { OnOk result (text.new.items ≡ text.old.items ++ box_line level node.now.task) }
{
    add_box_of(alloc, level, node.task.as_slice(), text)
}

/// Adds the begin of the box of a task.
fn add_box_of(
    alloc: Global,
    level: usize,
    task: &[u16],
    text: &mut Vec<u8>,
) -> Result<(), AllocError>
    ensures { OnOk result (text.new.items ≡ text.old.items ++ box_line level task.now) }
{
    add_indent(level, text)?;
    add(text, b"subgraph \"cluster ")?;
    add_point(alloc, task, text)?;
    add(text, b"\" {\n")
}

/// Adds the end of a box, if there is one.
fn add_end(level: usize, below: &[Node], text: &mut Vec<u8>) -> Result<(), AllocError>
    ensures { OnOk result (text.new.items ≡ text.old.items ++ box_end level below.now) }
{
    if below.is_empty() {
        return Ok(());
    }
    add_indent(level, text)?;
    add(text, b"}\n")
}
