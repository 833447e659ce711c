//! Creations of tasks, and their ends.

ghost use Rattle.std.specs.Prelude.{length, ◌+◌, ◌≡◌, [], IfOk, OnOk};
ghost use Rattle.oss_span.specs.Frames.{AreClosed, Grows, IsClosed, IsOpened, IsValue, before_giving, kept_of, verb_of};

use crate::best::{Best, Mark, no_best};
use crate::frame::{CELLS, Frame};
use crate::marks::{Change, Marks};
use crate::node::{Node, Verb};
use crate::run::Run;
use crate::table::{change_all, open_table};
use oss_ranges::RangeMap;
use oss_syntax::{Access, List, Range};
use std::alloc::{AllocError, Global};

/// What stands before the giving of a cell: its ticks, the node at its end, and the cell of that, or none where
/// it is the same cell.
#[derive(Clone, Copy)]
pub(crate) struct Before {
    pub(crate) ticks: u64,
    pub(crate) end: Option<usize>,
    pub(crate) cell: Option<u32>,
}

/// The frame of a new task with this number and these accesses; after want of memory the run is given up.
pub(crate) fn open_child(
    alloc: Global,
    nodes: &mut List<Node>,
    creator: &mut Frame,
    task: usize,
    wait: bool,
    accesses: &[Access],
) -> Result<Frame, AllocError>
    ensures { IfOk result (λ child. IsOpened task wait accesses.now creator.old creator.new child nodes.old nodes.new) }
{
    let best = creator.run.seal(creator.task, nodes)?;
    let table = open_table(alloc, &creator.table, accesses)?;
    Ok(Frame {
        task,
        wait,
        run: Run {
            acts: 0,
            ticks: best.mark.ticks,
            count: 0,
            before: best,
        },
        left: no_best(),
        newest: no_best(),
        table,
    })
}

/// A task has ended, and its creator goes on. After want of memory the run is given up.
pub(crate) fn close_child(
    nodes: &mut List<Node>,
    creator: &mut Frame,
    child: &Frame,
) -> Result<(), AllocError>
    ensures { OnOk result (IsClosed creator.old creator.new child.now nodes.old nodes.new) }
{
    let mut run = child.run;
    let last = run.seal(child.task, nodes)?;
    let kept = kept(child.wait, last, child.left);
    let lets = close_cells(nodes, &mut creator.table, child.task, &child.table, kept)?;
    let left = last.or(lets).or(child.left);
    creator.left = creator.left.or(left);
    creator.newest = left;
    Ok(())
}

/// The end of a task, with what the clause `wait` adds.
fn kept(wait: bool, last: Best, left: Best) -> Best
    ensures { result ≡ kept_of wait last left }
{
    if wait { last.or(left) } else { last }
}

/// Each cell of a task that has ended is given up, and its creator keeps that. It gives the longest chain to
/// one of them.
fn close_cells(
    nodes: &mut List<Node>,
    creator: &mut RangeMap<Marks>,
    task: usize,
    child: &RangeMap<Marks>,
    kept: Best,
) -> Result<Best, AllocError>
    ensures cells { IfOk result (λ b. AreClosed (length nodes.old) nodes.new task kept child.now.pieces
        creator.old.pieces creator.new.pieces 1048576 b) }
    ensures grows { OnOk result (Grows nodes.old nodes.new) }
{
    let mut lets = no_best();
    let mut from = 0;
    while from < CELLS {
        let (found, to) = child.run_from(from, CELLS);
        if let Some(marks) = found {
            let value = give(nodes, task, marks, kept)?;
            change_all(
                creator,
                Range { lo: from, hi: to },
                Change::Close(value.or(marks.given), marks.mode),
            )?;
            lets = lets.or(Best {
                mark: value,
                cell: from,
            });
        }
        from = to;
    }
    Ok(lets)
}

/// The chain to the giving of a cell of a task that has ended, as a node.
fn give(nodes: &mut List<Node>, task: usize, marks: Marks, kept: Best) -> Result<Mark, AllocError>
    ensures value { IfOk result (λ value. IsValue (length nodes.old) nodes.new task marks kept value) }
    ensures grows { OnOk result (Grows nodes.old nodes.new) }
    ensures more { OnOk result (length nodes.new ≡ length nodes.old + 1) }
{
    let before = before_giving(marks, kept);
    let value = Mark {
        ticks: before.ticks,
        end: Some(nodes.len()),
    };
    nodes.push(Node::Gives {
        task,
        verb: verb_of(marks),
        before: before.end,
        cell: before.cell,
    })?;
    Ok(value)
}

/// A cell of a reduction of the task itself is joined.
fn verb_of(marks: Marks) -> Verb
    ensures { result ≡ verb_of marks }
{
    if marks.is_strong_fold() {
        Verb::Join
    } else {
        Verb::Let
    }
}

/// What stands before the giving of a cell.
fn before_giving(marks: Marks, kept: Best) -> Before
    ensures { result ≡ before_giving marks kept }
{
    if marks.is_freed {
        return Before {
            ticks: marks.freed.ticks,
            end: marks.freed.end,
            cell: None,
        };
    }
    if marks.is_strong_fold() && kept.mark.ticks < marks.join_way.ticks {
        return Before {
            ticks: marks.join_way.ticks,
            end: marks.join_way.end,
            cell: None,
        };
    }
    Before {
        ticks: kept.mark.ticks,
        end: kept.mark.end,
        cell: Some(kept.cell),
    }
}
