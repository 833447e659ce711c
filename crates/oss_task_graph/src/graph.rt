//! What the graph of a run holds.

use oss_model::Point;
use oss_pieces::Piece;
use oss_syntax::{FaultKind, List};

/// That a task stands on an earlier child of its creator.
pub struct Edge {
    /// The number of the earlier child: its creator had created so many before it.
    pub from: u16,
    /// For which cells: over the globals of the program, in rising order.
    pub cells: List<Piece>,
    /// On each of these cells the access of the one or of the other is weak.
    pub weak: bool,
}

// By hand, so that who lets one go calls this, and does not take it apart at each exit.
impl Drop for Edge {
    fn drop(self) {
        let Edge {
            from: _,
            cells,
            weak: _,
        } = self;
        drop(cells);
    }
}

/// A task that was created, and that is not included in another one's body. Main was not created, and is none.
pub struct Node {
    pub task: Point,
    /// The line of its creation.
    pub line: u32,
    /// The instruction with which its body begins: the place of its label, if it has one.
    pub entry: u32,
    /// On which earlier children of its creator it stands, their numbers rising. A task without any hangs on its creator.
    pub edges: List<Edge>,
}

// By hand, so that who lets one go calls this, and does not take it apart at each exit.
impl Drop for Node {
    fn drop(self) {
        let Node {
            task,
            line: _,
            entry: _,
            edges,
        } = self;
        drop(task);
        drop(edges);
    }
}

/// The fault that stopped a run.
pub struct Stop {
    /// In the body of this task, which is main or a node.
    pub task: Point,
    pub kind: FaultKind,
    pub line: u32,
}

// By hand, so that who lets one go calls this, and does not take it apart at each exit.
impl Drop for Stop {
    fn drop(self) {
        let Stop {
            task,
            kind: _,
            line: _,
        } = self;
        drop(task);
    }
}

/// The graph of the tasks of a run.
#[derive(Drop)]
pub struct Graph {
    /// In point order: each task stands directly before the first of those below it.
    pub nodes: List<Node>,
    /// `None` where main has ended.
    pub fault: Option<Stop>,
}
