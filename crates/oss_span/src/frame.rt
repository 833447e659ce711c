//! What is kept of a task that has not ended.

ghost use Rattle.std.specs.Prelude.{◌≡◌, OnOk};
ghost use Rattle.oss_span.specs.Frames.{IsActed, IsOther, IsReleased, IsStartOf, IsWaitOf, is_tick};

use crate::best::{Best, no_best};
use crate::marks::{Marks, Way};
use crate::node::Node;
use crate::run::Run;
use crate::table::{greatest, greatest_of, release_all};
use oss_body::Act;
use oss_ranges::RangeMap;
use oss_syntax::{Access, List, Range};
use std::alloc::AllocError;

/// All cells that a program may have.
pub(crate) const CELLS: u32 = 1_048_576;

/// What is kept of a task: its number, in the order of creations; whether it has the clause `wait`; the longest
/// chain to its last act; those to what all ended tasks below it have left, and to what its newest child and
/// those below that have left; and its cells.
pub(crate) struct Frame {
    pub(crate) task: usize,
    pub(crate) wait: bool,
    pub(crate) run: Run,
    pub(crate) left: Best,
    pub(crate) newest: Best,
    pub(crate) table: RangeMap<Marks>,
}

// By hand, so that who lets one go calls this, and does not take it apart at each exit.
impl Drop for Frame {
    fn drop(self) {
        let Frame {
            task: _,
            wait: _,
            run,
            left,
            newest,
            table,
        } = self;
        drop(run);
        drop(left);
        drop(newest);
        drop(table);
    }
}

/// The act is a tick.
fn is_tick(act: &Act) -> bool
    ensures { result ≡ is_tick act.now }
{
    match act {
        Act::Tick => true,
        Act::Load(_) => false,
        Act::Store(_, _) => false,
        Act::Fold { .. } => false,
        Act::Create { .. } => false,
        Act::Await => false,
        Act::Wait => false,
        Act::WaitOn(_) => false,
        Act::Release { .. } => false,
        Act::Print { .. } => false,
        Act::End => false,
        Act::Fault { .. } => false,
    }
}

impl Frame {
    /// The longest chain to an event that the next act waits for, beside the act before it.
    fn other(&self, act: &Act) -> Best
        ensures { IsOther self.now act.now result }
    {
        self.start().or(self.waited(act))
    }

    /// That to what stands in the way of the first act.
    fn start(&self) -> Best
        ensures { IsStartOf self.now result }
    {
        if self.run.acts == 0 {
            greatest(&self.table, Range { lo: 0, hi: CELLS }, Way::Start)
        } else {
            no_best()
        }
    }

    /// That to what a wait waits for.
    fn waited(&self, act: &Act) -> Best
        ensures { IsWaitOf self.now act.now result }
    {
        match act {
            Act::Wait => self.left,
            Act::Await => self.newest,
            Act::WaitOn(ranges) => greatest_of(&self.table, ranges.as_slice(), Way::Given),
            Act::Tick => no_best(),
            Act::Load(_) => no_best(),
            Act::Store(_, _) => no_best(),
            Act::Fold { .. } => no_best(),
            Act::Create { .. } => no_best(),
            Act::Release { .. } => no_best(),
            Act::Print { .. } => no_best(),
            Act::End => no_best(),
            Act::Fault { .. } => no_best(),
        }
    }

    /// The task does its next act. After want of memory the run is given up.
    pub(crate) fn act(&mut self, act: &Act, nodes: &mut List<Node>) -> Result<(), AllocError>
        ensures { OnOk result (IsActed act.now self.old self.new nodes.old nodes.new) }
    {
        let other = self.other(act);
        match self.run.after(other, is_tick(act)) {
            Some(run) => self.run = run,
            None => return Err(AllocError),
        }
        match act {
            Act::Release { clauses, included } => {
                if *included {
                    Ok(())
                } else {
                    self.release(clauses.as_slice(), nodes)
                }
            }
            Act::Create { included, .. } => {
                if *included {
                    self.newest = no_best();
                }
                Ok(())
            }
            Act::Tick => Ok(()),
            Act::Load(_) => Ok(()),
            Act::Store(_, _) => Ok(()),
            Act::Fold { .. } => Ok(()),
            Act::Await => Ok(()),
            Act::Wait => Ok(()),
            Act::WaitOn(_) => Ok(()),
            Act::Print { .. } => Ok(()),
            Act::End => Ok(()),
            Act::Fault { .. } => Ok(()),
        }
    }

    /// The task has released these cells by its last act.
    fn release(&mut self, clauses: &[Access], nodes: &mut List<Node>) -> Result<(), AllocError>
        ensures { OnOk result (IsReleased clauses.now self.old self.new nodes.old nodes.new) }
    {
        let best = self.run.seal(self.task, nodes)?;
        release_all(&mut self.table, clauses, best.mark)
    }
}
