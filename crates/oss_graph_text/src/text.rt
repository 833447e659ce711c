//! The text of a graph.

ghost use Rattle.std.specs.Prelude.{IfOk, OnOk};
ghost use Rattle.oss_labels.specs.Lists.{label_at};
ghost use Rattle.oss_graph_text.specs.Adding.{AddsGraph};
ghost use Rattle.oss_graph_text.specs.Text.{IsGraphText};

use crate::edges::add_edges;
use crate::end::add_end;
use crate::nodes::add_nodes;
use crate::words::add;
use oss_labels::Labels;
use oss_syntax::{Bytes, Program};
use oss_task_graph::{Graph, Node, Stop};
use std::alloc::{AllocError, Global};

/// The text of a graph of this program, for Graphviz: each task a line with its point, the label of its pragma if it has one,
/// and the line of its creation; those below a task in a box with it; each edge a line with its cells by name, dashed where
/// it is weak; a task without edges hangs on its creator, if that is not main; and the fault in red, in its task or below
/// all. An edge tells four pieces of its cells at most, and how many further cells it has; if there are more than 100
/// edges, the cells are tooltips. Out of memory is the one error.
pub fn graph_text(
    alloc: Global,
    program: &Program,
    labels: &Labels,
    graph: &Graph,
) -> Result<Bytes, AllocError>
    ensures { IfOk result (IsGraphText program.now.items (label_at labels.now) graph.now) }
{
    let mut text = Vec::new(alloc);
    add_all(
        alloc,
        program,
        labels,
        graph.nodes.as_slice(),
        &graph.fault,
        &mut text,
    )?;
    Ok(Bytes::from_vec(text))
}

/// Adds all of a graph with these nodes and this fault.
fn add_all(
    alloc: Global,
    program: &Program,
    labels: &Labels,
    nodes: &[Node],
    fault: &Option<Stop>,
    text: &mut Vec<u8>,
) -> Result<(), AllocError>
    ensures { OnOk result (AddsGraph program.now.items (label_at labels.now) nodes.now fault.now text.old.items text.new.items) }
{
    add(
        text,
        b"digraph tasks {\n  rankdir=LR;\n  node [shape=box];\n",
    )?;
    add_nodes(alloc, labels, fault, 1, nodes, text)?;
    add_edges(alloc, program, nodes, text)?;
    add_end(alloc, fault, text)?;
    add(text, b"}\n")
}
