//! What is found on the way of a run.

ghost use Rattle.std.specs.Prelude.{◌≡◌, ◌≤◌, [], List as Items, OnOk, IfOk};
ghost use Rattle.oss_grammar.specs.Layout.{cells_in};
ghost use Rattle.oss_graph.specs.Finding.{IsBack, IsDown, IsFollowed, IsNewIn};

use crate::coming::Coming;
use oss_body::Body;
use oss_pieces::Layout;
use oss_syntax::{List, Program};
use oss_task_edges::Siblings;
use oss_task_graph::{Graph, Node, Stop};
use std::alloc::{AllocError, Global};
use std::mem;

/// The nodes so far; and the children of the task that runs, and of each that waits above it, the oldest first.
pub(crate) struct Found {
    alloc: Global,
    layout: Layout,
    nodes: List<Node>,
    top: Siblings,
    above: List<Siblings>,
}

// By hand, so that who lets one go calls this, and does not take it apart at each exit.
impl Drop for Found {
    fn drop(self) {
        let Found {
            alloc: _,
            layout,
            nodes,
            top,
            above,
        } = self;
        drop(layout);
        drop(nodes);
        drop(top);
        drop(above);
    }
}

impl Found {
    /// At the beginning of a run main runs, and there is no node.
    pub(crate) fn new(alloc: Global, program: &Program) -> Result<Found, AllocError>
        requires { cells_in program.now.items ≤ 1048576 }
        ensures { IfOk result (λ found. IsNewIn program.now.items found) }
    {
        let layout = Layout::of(alloc, program)?;
        Ok(Found {
            alloc,
            layout,
            nodes: List::new(alloc),
            top: Siblings::new(alloc),
            above: List::new(alloc),
        })
    }

    /// An act was made, behind which this body runs, and so many wait above it. It has created a task, whose body that is; or
    /// none that is a node.
    pub(crate) fn follow(
        &mut self,
        body: &Body,
        waiting: usize,
        coming: Option<Coming>,
    ) -> Result<(), AllocError>
        ensures { OnOk result (IsFollowed body.now waiting coming self.old self.new) }
    {
        match coming {
            Some(coming) => self.go_down(body, coming),
            None => {
                self.go_back(waiting);
                Ok(())
            }
        }
    }

    /// The task that runs has created the one of this body, which runs next.
    fn go_down(&mut self, body: &Body, coming: Coming) -> Result<(), AllocError>
        ensures { OnOk result (IsDown body.now coming self.old self.new) }
    {
        let accesses = body.accesses()?;
        let edges = self
            .top
            .add(&self.layout, coming.number, accesses.as_slice())?;
        let task = body.point().copy()?;
        self.nodes.push(Node {
            task,
            line: coming.line,
            entry: coming.entry,
            edges,
        })?;
        let creator = mem::replace(&mut self.top, Siblings::new(self.alloc));
        self.above.push(creator)
    }

    /// No task was created. If one more waited than do now, the one that ran has ended, and its creator runs.
    fn go_back(&mut self, waiting: usize)
        ensures { IsBack waiting self.old self.new }
    {
        if self.above.len() > waiting {
            match self.above.pop() {
                Some(creator) => self.top = creator,
                None => {}
            }
        }
    }

    /// The graph of these nodes, and of this fault, if there is one.
    pub(crate) fn graph(self, fault: Option<Stop>) -> Graph
        ensures nodes { result.nodes ≡ self.nodes }
        ensures fault { result.fault ≡ fault }
    {
        let Found {
            alloc: _,
            layout,
            nodes,
            top,
            above,
        } = self;
        drop(layout);
        drop(top);
        drop(above);
        Graph { nodes, fault }
    }
}
