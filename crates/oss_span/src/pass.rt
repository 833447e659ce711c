//! One pass beside the sequential run: what is kept of the tasks that have not ended.

ghost use Rattle.std.specs.Prelude.{◌≡◌, List as Items, OnOk, IfOk};
ghost use Rattle.oss_code.specs.declared.code.CodeParts.{CodeParts};
ghost use Rattle.oss_span.specs.Passes.{IsBegun, IsDown, IsOn, IsTold, IsUp};

use crate::best::{Best, no_best, no_mark};
use crate::close::{close_child, open_child};
use crate::frame::Frame;
use crate::link::Link;
use crate::marks::Marks;
use crate::node::Node;
use crate::run::Run;
use crate::table::open_table;
use crate::walk::links_of;
use oss_body::{Act, Body};
use oss_model::Point;
use oss_ranges::RangeMap;
use oss_syntax::List;
use std::alloc::{AllocError, Global};
use std::mem;

/// The nodes of all chains that are kept, the points of the tasks in the order of their creations, what is kept
/// of the task that runs and of those above it, the oldest first, and the ticks so far.
pub(crate) struct Pass {
    pub(crate) alloc: Global,
    pub(crate) nodes: List<Node>,
    pub(crate) points: List<Point>,
    pub(crate) frame: Frame,
    pub(crate) above: List<Frame>,
    pub(crate) work: u64,
}

// By hand, so that who lets one go calls this, and does not take it apart at each exit.
impl Drop for Pass {
    fn drop(self) {
        let Pass {
            alloc: _,
            nodes,
            points,
            frame,
            above,
            work: _,
        } = self;
        drop(nodes);
        drop(points);
        drop(frame);
        drop(above);
    }
}

/// Before the first act of main.
pub(crate) fn begin_pass(alloc: Global, main: &Body) -> Result<Pass, AllocError>
    ensures { IfOk result (λ pass. IsBegun main.now pass) }
{
    let accesses = main.accesses()?;
    let none: RangeMap<Marks> = RangeMap::new(alloc);
    let table = open_table(alloc, &none, accesses.as_slice())?;
    let mut points = List::new(alloc);
    points.push(main.point().copy()?)?;
    Ok(Pass {
        alloc,
        nodes: List::new(alloc),
        points,
        frame: Frame {
            task: 0,
            wait: main.waits(),
            run: Run {
                acts: 0,
                ticks: 0,
                count: 0,
                before: no_best(),
            },
            left: no_best(),
            newest: no_best(),
            table,
        },
        above: List::new(alloc),
        work: 0,
    })
}

impl Pass {
    /// The task that runs does its next act. After want of memory the run is given up.
    pub(crate) fn act(&mut self, act: &Act) -> Result<(), AllocError>
        ensures { OnOk result (IsOn act.now self.old self.new) }
    {
        if let Act::Tick = act {
            self.work = self.work.saturating_add(1);
        }
        self.frame.act(act, &mut self.nodes)
    }

    /// The act was the creation of the task with this body, which runs now. After want of memory the run is given up.
    pub(crate) fn down(&mut self, body: &Body) -> Result<(), AllocError>
        ensures { OnOk result (IsDown body.now self.old self.new) }
    {
        let accesses = body.accesses()?;
        let task = self.points.len();
        let child = open_child(
            self.alloc,
            &mut self.nodes,
            &mut self.frame,
            task,
            body.waits(),
            accesses.as_slice(),
        )?;
        self.points.push(body.point().copy()?)?;
        let creator = mem::replace(&mut self.frame, child);
        self.above.push(creator)
    }

    /// The act ended the task, and its creator runs now. After want of memory the run is given up.
    pub(crate) fn up(&mut self) -> Result<(), AllocError>
        ensures { OnOk result (IsUp self.old self.new) }
    {
        match self.above.pop() {
            None => Ok(()),
            Some(creator) => {
                let child = mem::replace(&mut self.frame, creator);
                close_child(&mut self.nodes, &mut self.frame, &child)
            }
        }
    }

    /// Main has ended: a longest chain of all, and its ticks.
    pub(crate) fn told(&mut self) -> Result<(u64, List<Link>), AllocError>
        ensures { IfOk result (λ told. IsTold self.old told.0 told.1) }
    {
        let last = self.frame.run.seal(self.frame.task, &mut self.nodes)?;
        let best = last.or(self.frame.left);
        let links = links_of(
            self.alloc,
            self.nodes.as_slice(),
            self.points.as_slice(),
            best,
        )?;
        Ok((best.mark.ticks, links))
    }
}
