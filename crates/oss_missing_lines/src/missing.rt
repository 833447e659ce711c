//! The lines of a program, as data.

use oss_explanation::{Held, Touching, Word};
use oss_model::Point;
use oss_pieces::Piece;
use oss_syntax::{FaultKind, List};

/// A clause that has to stand in place of others.
pub struct Wanting {
    pub word: Word,
    /// The cells that it names, over the globals of the program, in rising order.
    pub cells: List<Piece>,
    /// The words in whose place it stands, each once, in text order.
    pub old: List<Word>,
}

// By hand, so that who lets one go calls this, and does not take it apart at each exit.
impl Drop for Wanting {
    fn drop(self) {
        let Wanting {
            word: _,
            cells,
            old,
        } = self;
        drop(cells);
        drop(old);
    }
}

/// That a task touches a cell which one of its children still has: it has to wait before.
#[derive(Clone, Copy)]
pub struct MissingWait {
    pub touch: Touching,
    pub cell: u32,
    /// The line of the touch.
    pub line: u32,
    /// The first child that hinders it: the task had created so many before it.
    pub child: u32,
    /// The line of the child's creation.
    pub created: u32,
    /// The word by which the child has the cell once what its clauses lack is mended.
    pub word: Word,
}

/// That a task uses cells which it has released.
pub struct LateUse {
    /// Over the globals of the program, in rising order.
    pub cells: List<Piece>,
    /// The line of the use.
    pub line: u32,
}

// By hand, so that who lets one go calls this, and does not take it apart at each exit.
impl Drop for LateUse {
    fn drop(self) {
        let LateUse { cells, line: _ } = self;
        drop(cells);
    }
}

/// What a task does too early, or too late.
#[derive(Drop)]
pub enum Late {
    Wait(MissingWait),
    Use(LateUse),
}

/// What is missing of one task.
pub struct TaskMissing {
    /// Main's point is 0.
    pub task: Point,
    /// The line of its creation; 0 of main.
    pub line: u32,
    /// The clauses that it lacks, in the order in which words are told: those by one word are one clause.
    pub lacks: List<Held>,
    /// The clauses that have to stand in place of others, in the same order.
    pub wants: List<Wanting>,
    /// Waits that are missing, and uses behind a release, in the order of the run.
    pub late: List<Late>,
}

// By hand, so that who lets one go calls this, and does not take it apart at each exit.
impl Drop for TaskMissing {
    fn drop(self) {
        let TaskMissing {
            task,
            line: _,
            lacks,
            wants,
            late,
        } = self;
        drop(task);
        drop(lacks);
        drop(wants);
        drop(late);
    }
}

/// The fault that stopped a run.
#[derive(Clone, Copy)]
pub struct RunFault {
    pub kind: FaultKind,
    pub line: u32,
}

/// All that is missing of the clauses of a program.
pub struct Missing {
    /// Main, and then each task that was created, in order of creation, also those of which nothing is missing.
    pub tasks: List<TaskMissing>,
    /// `None` where main has ended.
    pub fault: Option<RunFault>,
}

// By hand, so that who lets one go calls this, and does not take it apart at each exit.
impl Drop for Missing {
    fn drop(self) {
        let Missing { tasks, fault: _ } = self;
        drop(tasks);
    }
}
