//! Edges, put together of their parts.

ghost use Rattle.std.specs.Prelude.{◌≡◌, ◌<◌, ◌||◌, ℕ, List as Items, length, IfOk, OnOk};
ghost use Rattle.std.specs.List.Sorted.{IsNonDecreasingBy};
ghost use Rattle.oss_syntax.specs.declared.tree.program.Item.{Item};
ghost use Rattle.oss_pieces.specs.CellSets.{has};
ghost use Rattle.oss_pieces.specs.Layouts.{grids_from};
ghost use Rattle.oss_task_edges.specs.Parts.{AreJoined, IsGathered, IsRunOf, any_strong, in_parts};

use crate::part::Part;
use oss_pieces::{CellSet, Layout};
use oss_syntax::List;
use oss_task_graph::Edge;
use std::alloc::{AllocError, Global};

/// The edges of which these are the parts, their earlier children rising. Their cells are told as pieces over the globals
/// of the layout.
pub(crate) fn edges_of(
    alloc: Global,
    layout: &Layout,
    mut parts: Vec<Part>,
) -> Result<List<Edge>, AllocError>
    ensures { IfOk result (λ edges. (items : Items Item) → layout.now ≡ grids_from items 0 →
        AreJoined items parts.items edges) }
{
    parts.sort_by_key(|part| part.from)?;
    joined(alloc, layout, parts.as_slice())
}

/// The same of parts whose earlier children rise.
fn joined(alloc: Global, layout: &Layout, parts: &[Part]) -> Result<List<Edge>, AllocError>
    requires { IsNonDecreasingBy (λ part. part.from) parts.now }
    ensures { IfOk result (λ edges. (items : Items Item) → layout.now ≡ grids_from items 0 →
        AreJoined items parts.now edges) }
{
    let mut edges = List::new(alloc);
    let mut at = 0;
    while at < parts.len() {
        let end = run_end(parts, at);
        edges.push(edge_of(alloc, layout, &parts[at..end])?)?;
        at = end;
    }
    Ok(edges)
}

/// The place behind the parts that follow one another from this place on and have one earlier child.
fn run_end(parts: &[Part], at: usize) -> usize
    requires { at < length parts.now }
    ensures { IsRunOf parts.now at result }
{
    let from = parts[at].from;
    let mut end = at + 1;
    while end < parts.len() && parts[end].from == from {
        end += 1;
    }
    end
}

/// The edge of these parts, which have one earlier child. Condition: there is one.
fn edge_of(alloc: Global, layout: &Layout, parts: &[Part]) -> Result<Edge, AllocError>
    requires { 0 < length parts.now }
    ensures { IfOk result (λ edge. (items : Items Item) → layout.now ≡ grids_from items 0 →
        IsGathered items parts.now edge) }
{
    let from = parts[0].from;
    let mut set = CellSet::new(alloc);
    let strong = gather(&mut set, parts)?;
    let cells = layout.pieces(&set)?;
    Ok(Edge {
        from,
        cells,
        weak: !strong,
    })
}

/// Adds the cells of all parts to a set, and answers whether a part is strong.
fn gather(set: &mut CellSet, parts: &[Part]) -> Result<bool, AllocError>
    ensures cells { OnOk result ((c : ℕ) → has set.new c ≡ (in_parts parts.now c || has set.old c)) }
    ensures strong { IfOk result (λ strong. strong ≡ any_strong parts.now) }
{
    let mut strong = false;
    for part in parts {
        set.add(part.range)?;
        strong = strong || part.strong;
    }
    Ok(strong)
}
