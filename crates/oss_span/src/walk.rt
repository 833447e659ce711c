//! A longest chain, read off the nodes.

ghost use Rattle.std.specs.Prelude.{◌≡◌, ◌<◌, IfOk, IfSome};
ghost use Rattle.oss_span.specs.Shown.{AreLinksOf, IsStep, below};

use crate::best::Best;
use crate::link::Link;
use crate::node::{Node, Verb};
use oss_model::Point;
use oss_syntax::List;
use std::alloc::{AllocError, Global};

/// What one node of a chain tells: its link, and where the chain before it ends.
struct Step {
    link: Link,
    end: Option<usize>,
    cell: u32,
}

/// The chain that ends so, its first event first.
pub(crate) fn links_of(
    alloc: Global,
    nodes: &[Node],
    points: &[Point],
    best: Best,
) -> Result<List<Link>, AllocError>
    ensures { IfOk result (λ links. AreLinksOf nodes.now points.now best links) }
{
    let mut links = Vec::new(alloc);
    let mut end = best.mark.end;
    let mut cell = best.cell;
    'nodes: while let Some(at) = end {
        match told_at(nodes, points, at, cell)? {
            None => break,
            Some(told) => {
                let Step {
                    link,
                    end: before,
                    cell: other,
                } = told;
                links.push(link)?;
                end = below(before, at);
                cell = other;
            }
        }
    }
    links.reverse();
    Ok(List::from_vec(links))
}

/// The node, where it stands before another one.
fn below(end: Option<usize>, at: usize) -> Option<usize>
    ensures value { result ≡ below end at }
    ensures less { IfSome result (λ before. before < at) }
{
    match end {
        Some(before) => { if before < at { Some(before) } else { None } }
        None => None,
    }
}

/// What a node tells, at a cell.
fn told_at(
    nodes: &[Node],
    points: &[Point],
    at: usize,
    cell: u32,
) -> Result<Option<Step>, AllocError>
    ensures { IfOk result (λ step. IsStep nodes.now points.now at cell step) }
{
    let Some(node) = nodes.get(at) else {
        return Ok(None);
    };
    match *node {
        Node::Acts {
            task,
            end,
            count,
            before,
        } => {
            let Some(point) = points.get(task) else {
                return Ok(None);
            };
            Ok(Some(Step {
                link: Link::Acts(point.copy()?, end.saturating_sub(count), count),
                end: before.mark.end,
                cell: before.cell,
            }))
        }
        Node::Gives {
            task,
            verb,
            before,
            cell: other,
        } => {
            let Some(point) = points.get(task) else {
                return Ok(None);
            };
            Ok(Some(Step {
                link: given(verb, point.copy()?, cell),
                end: before,
                cell: other.unwrap_or(cell),
            }))
        }
    }
}

/// The link of a cell that is given up.
fn given(verb: Verb, point: Point, cell: u32) -> Link
    ensures { result ≡ Rattle.oss_span.specs.Shown.given_link verb point cell }
{
    match verb {
        Verb::Let => Link::Let(point, cell),
        Verb::Join => Link::Join(point, cell),
    }
}
