//! What an explanation of a fault holds.

use oss_model::Point;
use oss_pieces::Piece;
use oss_syntax::{List, Op};

/// What the clauses of a task that name a cell say together of it, weak or not: `in(x) out(x)` is `inout(x)`.
#[derive(Clone, Copy, PartialEq, Eq)]
pub enum Use {
    In,
    Out,
    Inout,
    Reduction(Op),
}

/// A word of a clause: `weakin`, `reduction(+)`.
#[derive(Clone, Copy, PartialEq, Eq)]
pub struct Word {
    pub named: Use,
    pub strong: bool,
}

/// The cells that a task has by one word.
pub struct Held {
    pub word: Word,
    pub cells: List<Piece>,
}

// By hand, so that who lets one go calls this, and does not take it apart at each exit.
impl Drop for Held {
    fn drop(self) {
        let Held { word: _, cells } = self;
        drop(cells);
    }
}

/// What the task was about to do.
#[derive(Drop)]
pub enum Deed {
    /// A tick: a statement, a test of a loop or a call.
    Ticks,
    Reads(u32),
    Writes(u32),
    Folds(u32, Op),
    /// A creation, before its clauses are evaluated.
    Begins,
    /// A creation, after its clauses were evaluated.
    Creates,
    /// A release of these cells.
    Releases(List<Piece>),
    /// A `taskwait on` of these cells.
    WaitsOn(List<Piece>),
    Calls,
    Divides,
    Shifts,
    /// It names a cell or a section that its global does not have.
    Misses,
}

/// The cells of a directive that fail: the one with the lowest number, and all of them.
pub struct Failing {
    pub first: u32,
    pub all: List<Piece>,
}

// By hand, so that who lets one go calls this, and does not take it apart at each exit.
impl Drop for Failing {
    fn drop(self) {
        let Failing { first: _, all } = self;
        drop(all);
    }
}

/// The holders of a cell that were created after the first one.
#[derive(Drop)]
pub enum Later {
    None,
    One(Point),
    /// So many, from this one to that one.
    Several(u32, Point, Point),
}

/// How a cell is touched.
#[derive(Clone, Copy, PartialEq, Eq)]
pub enum Touching {
    Reading,
    Writing,
    Folding(Op),
}

/// Why the task may not do it, by the kind of the fault.
#[derive(Drop)]
pub enum Reason {
    /// It may make so many ticks, and has made them.
    OutOfFuel(u32),
    /// A call would open a frame too many.
    TooManyFrames,
    /// The new task would have too many above it.
    TooDeep,
    TooManyTasks,
    /// What the task was about to do says it all: a division by 0, or a place outside of its global.
    Plain,
    ShiftRange,
    /// The clauses of the new task have these words for a cell, each once, in text order.
    MixedAccess(List<Word>, Failing),
    /// The task released the first of these cells on this line.
    Released(u32, Failing),
    /// A touch of the cell, of which the task has this much.
    NoRight(u32, Touching, Option<Word>),
    /// The new task would have the first of these cells by the first word; its creator has it by the second, if any.
    CreationNotCovered(Word, Option<Word>, Failing),
    /// The directive names the first of these cells by the first word; the task has it by the second, if any.
    ReleaseNotCovered(Word, Option<Word>, Failing),
    /// No clause of the task names these cells.
    WaitNotCovered(Failing),
    /// The task has the cell by a reduction with this operator.
    BadReduction(u32, Op),
    /// This child, created on this line, whose body begins with this instruction, has the cell by this word, and those
    /// later ones hinder the touch too.
    Lent {
        cell: u32,
        child: Point,
        line: u32,
        entry: u32,
        word: Word,
        later: Later,
    },
    Unwritten(u32),
}

/// How a task on the way to the one that acts came to be.
pub struct Link {
    pub task: Point,
    /// The line of its creation.
    pub line: u32,
    /// The instruction with which its body begins.
    pub entry: u32,
    /// It runs in the body of its creator.
    pub included: bool,
}

// By hand, so that who lets one go calls this, and does not take it apart at each exit.
impl Drop for Link {
    fn drop(self) {
        let Link {
            task,
            line: _,
            entry: _,
            included: _,
        } = self;
        drop(task);
    }
}

/// The explanation of a fault.
pub struct Explained {
    /// The task that acts: an included one too.
    pub task: Point,
    /// The point of the task that it would create next.
    pub next: Point,
    /// The line of the fault.
    pub line: u32,
    pub deed: Deed,
    pub reason: Reason,
    /// How the task came to be, and each one above it but main; the innermost first.
    pub chain: List<Link>,
    /// What the task has by its clauses, a word each; main has none.
    pub holds: List<Held>,
    /// What the new task would have, a word each, if its clauses name a cell that is released or not covered.
    pub wants: List<Held>,
}

// By hand, so that who lets one go calls this, and does not take it apart at each exit.
impl Drop for Explained {
    fn drop(self) {
        let Explained {
            task,
            next,
            line: _,
            deed,
            reason,
            chain,
            holds,
            wants,
        } = self;
        drop(task);
        drop(next);
        drop(deed);
        drop(reason);
        drop(chain);
        drop(holds);
        drop(wants);
    }
}
