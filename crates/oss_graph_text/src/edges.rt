//! The lines of edges.

ghost use Rattle.std.specs.Prelude.{◌≡◌, ◌++◌, OnOk};
ghost use Rattle.std.specs.List.{flat_map};
ghost use Rattle.oss_graph_text.specs.Edges.{cells_text, creation_text, edge_text, edges_text, ends_text, edges_to, hanging_text, has_many, sibling_text, style_text, told_by};

use crate::points::{above, is_deep};
use crate::words::{add, add_number, add_point, add_quoted};
use oss_pieces::{Globals, Piece, add_pieces_among};
use oss_syntax::Program;
use oss_task_graph::{Edge, Node};
use std::alloc::{AllocError, Global};

/// An edge tells at most so many pieces of its cells.
const MOST_PIECES: usize = 4;

/// So many edges at most have their cells beside them.
const MOST_LABELS: usize = 100;

/// Adds all edges, and for each task that has none the one from its creator. The globals go into a table, so that a piece
/// does not cost them.
pub(crate) fn add_edges(
    alloc: Global,
    program: &Program,
    nodes: &[Node],
    text: &mut Vec<u8>,
) -> Result<(), AllocError>
    ensures { OnOk result (text.new.items ≡ text.old.items ++ edges_text program.now.items nodes.now) }
{
    let globals = Globals::of(alloc, program.items.as_slice())?;
    add_all_edges(alloc, &globals, attribute(nodes), nodes, text)
}

/// By which attribute the cells of edges are told.
fn attribute(nodes: &[Node]) -> &'static [u8]
    ensures { result.now ≡ told_by nodes.now }
{
    if are_many(nodes) {
        b"tooltip"
    } else {
        b"label"
    }
}

/// Whether there are too many edges for all to have their cells beside them.
fn are_many(nodes: &[Node]) -> bool
    ensures { result ≡ has_many nodes.now }
{
    let mut left = MOST_LABELS;
    for node in nodes {
        let count = node.edges.len();
        if count > left {
            return true;
        }
        left -= count;
    }
    false
}

/// Adds the edges to these nodes, whose cells this attribute tells.
fn add_all_edges(
    alloc: Global,
    globals: &Globals<'_>,
    attribute: &[u8],
    nodes: &[Node],
    text: &mut Vec<u8>,
) -> Result<(), AllocError>
    ensures { OnOk result (text.new.items ≡ text.old.items ++ flat_map (edges_to globals.now attribute.now) nodes.now) }
{
    for node in nodes {
        add_edges_to(alloc, globals, attribute, node, text)?;
    }
    Ok(())
}

/// Adds the edges to a node.
fn add_edges_to(
    alloc: Global,
    globals: &Globals<'_>,
    attribute: &[u8],
    node: &Node,
    text: &mut Vec<u8>,
) -> Result<(), AllocError>
    ensures { OnOk result (text.new.items ≡ text.old.items ++ edges_to globals.now attribute.now node.now) }
{
    let task = node.task.as_slice();
    let edges = node.edges.as_slice();
    if edges.is_empty() {
        return add_hanging(alloc, task, text);
    }
    add_siblings(alloc, globals, attribute, task, edges, text)
}

/// Adds the edge from the creator of a task, if that is not main.
fn add_hanging(alloc: Global, task: &[u16], text: &mut Vec<u8>) -> Result<(), AllocError>
    ensures { OnOk result (text.new.items ≡ text.old.items ++ hanging_text task.now) }
{
    if is_deep(task) {
        return add_creation(alloc, task, text);
    }
    Ok(())
}

/// Adds the edge from the creator of a task.
fn add_creation(alloc: Global, task: &[u16], text: &mut Vec<u8>) -> Result<(), AllocError>
    ensures { OnOk result (text.new.items ≡ text.old.items ++ creation_text task.now) }
{
    add(text, b"  ")?;
    add_quoted(alloc, above(task), text)?;
    add(text, b" -> ")?;
    add_quoted(alloc, task, text)?;
    add(text, b" [color=gray, arrowhead=empty];\n")
}

/// Adds these edges to a task.
fn add_siblings(
    alloc: Global,
    globals: &Globals<'_>,
    attribute: &[u8],
    task: &[u16],
    edges: &[Edge],
    text: &mut Vec<u8>,
) -> Result<(), AllocError>
    ensures { OnOk result (text.new.items ≡ text.old.items
        ++ flat_map (edge_text globals.now attribute.now task.now) edges.now) }
{
    for edge in edges {
        add_edge(alloc, globals, attribute, task, edge, text)?;
    }
    Ok(())
}

/// Adds an edge to a task.
fn add_edge(
    alloc: Global,
    globals: &Globals<'_>,
    attribute: &[u8],
    task: &[u16],
    edge: &Edge,
    text: &mut Vec<u8>,
) -> Result<(), AllocError>
    ensures { OnOk result (text.new.items ≡ text.old.items ++ edge_text globals.now attribute.now task.now edge.now) }
{
    add_ends(alloc, task, edge.from, text)?;
    add_cells(alloc, globals, attribute, edge, text)?;
    add_style(edge.weak, text)?;
    add(text, b"];\n")
}

/// Adds from which child to which task an edge leads.
fn add_ends(alloc: Global, task: &[u16], from: u16, text: &mut Vec<u8>) -> Result<(), AllocError>
    ensures { OnOk result (text.new.items ≡ text.old.items ++ ends_text task.now from) }
{
    add(text, b"  ")?;
    add_sibling(alloc, task, from, text)?;
    add(text, b" -> ")?;
    add_quoted(alloc, task, text)
}

/// Adds the cells of an edge.
fn add_cells(
    alloc: Global,
    globals: &Globals<'_>,
    attribute: &[u8],
    edge: &Edge,
    text: &mut Vec<u8>,
) -> Result<(), AllocError>
    ensures { OnOk result (text.new.items ≡ text.old.items ++ cells_text globals.now attribute.now edge.now.cells) }
{
    add_pieces_by(alloc, globals, attribute, edge.cells.as_slice(), text)
}

/// Adds pieces, told by an attribute.
fn add_pieces_by(
    alloc: Global,
    globals: &Globals<'_>,
    attribute: &[u8],
    cells: &[Piece],
    text: &mut Vec<u8>,
) -> Result<(), AllocError>
    ensures { OnOk result (text.new.items ≡ text.old.items ++ cells_text globals.now attribute.now cells.now) }
{
    add(text, b" [")?;
    add(text, attribute)?;
    add(text, b"=\"")?;
    add_pieces_among(alloc, globals, cells, MOST_PIECES, text)?;
    add(text, b"\"")
}

/// Adds the point of another child of a task's creator, between quotes.
fn add_sibling(
    alloc: Global,
    task: &[u16],
    number: u16,
    text: &mut Vec<u8>,
) -> Result<(), AllocError>
    ensures { OnOk result (text.new.items ≡ text.old.items ++ sibling_text task.now number) }
{
    add(text, b"\"")?;
    add_point(alloc, above(task), text)?;
    add(text, b".")?;
    add_number(alloc, u32::from(number), text)?;
    add(text, b"\"")
}

/// Adds how an edge is drawn, if it is weak.
fn add_style(weak: bool, text: &mut Vec<u8>) -> Result<(), AllocError>
    ensures { OnOk result (text.new.items ≡ text.old.items ++ style_text weak) }
{
    if weak {
        return add(text, b", style=dashed");
    }
    Ok(())
}
