//! What a task that has not ended keeps of a cell that it declares.

ghost use Rattle.std.specs.Prelude.{◌≡◌, Option};
ghost use Rattle.oss_span.specs.Changes.{before_of, changed, is_fold_of, is_strong_fold, opened, picked};

use crate::best::{Mark, no_mark};
use oss_syntax::{Mode, Op};

/// What is kept of a cell: how the task declares it; of what its ended children and those below them gave up of
/// it the longest chains, of all, of those below no read, and of those before the run of one reduction that
/// stands last; whether the task has released it, and the chain to that; and the longest chains of what stands
/// in the way of a write, a read and a join by the task.
#[derive(Clone, Copy, PartialEq, Eq)]
pub(crate) struct Marks {
    pub(crate) mode: Mode,
    pub(crate) strong: bool,
    pub(crate) given: Mark,
    pub(crate) changed: Mark,
    pub(crate) run: Option<Op>,
    pub(crate) before: Mark,
    pub(crate) is_freed: bool,
    pub(crate) freed: Mark,
    pub(crate) write_way: Mark,
    pub(crate) read_way: Mark,
    pub(crate) join_way: Mark,
}

/// What happens to the cells of a range.
#[derive(Clone, Copy)]
pub(crate) enum Change {
    /// The task releases them by an act to which this chain leads.
    Release(Mark),
    /// A child that declared them so has ended; this is the longest chain to what it and those below it gave up.
    Close(Mark, Mode),
}

/// Which longest chain is asked for.
#[derive(Clone, Copy)]
pub(crate) enum Way {
    /// That to what children gave up.
    Given,
    /// That to what stands in the way of the first act.
    Start,
}

/// What a new task keeps of a cell that it declares so, whose creator keeps this of it.
pub(crate) fn opened_at(creator: Option<Marks>, mode: Mode, strong: bool) -> Marks
    ensures { result ≡ opened creator mode strong }
{
    match creator {
        Some(marks) => marks.opened(mode, strong),
        None => Marks::unused(mode, strong).opened(mode, strong),
    }
}

/// The mode is that of a reduction with this operator.
fn is_fold(op: Op, mode: Mode) -> bool
    ensures { result ≡ is_fold_of op mode }
{
    match mode {
        Mode::Fold(other) => op == other,
        Mode::Read => false,
        Mode::Write => false,
    }
}

impl Marks {
    ghost use Rattle.oss_span.specs.Changes.{before_of, changed, closed, freed, is_strong_fold, join_of, opened_by, picked, unused};

    /// What is kept of a cell that no child has named.
    fn unused(mode: Mode, strong: bool) -> Marks
        ensures { result ≡ unused mode strong }
    {
        Marks {
            mode,
            strong,
            given: no_mark(),
            changed: no_mark(),
            run: None,
            before: no_mark(),
            is_freed: false,
            freed: no_mark(),
            write_way: no_mark(),
            read_way: no_mark(),
            join_way: no_mark(),
        }
    }

    /// What stands before the run of this reduction.
    fn before_run(self, op: Op) -> Mark
        ensures { result ≡ before_of op self }
    {
        match self.run {
            Some(other) => { if op == other { self.before } else { self.given } }
            None => self.given,
        }
    }

    /// What stands in the way of the join of a child that declares the cell so.
    fn join_of(self, mode: Mode) -> Mark
        ensures { result ≡ join_of mode self }
    {
        match mode {
            Mode::Fold(op) => {
                let above = if is_fold(op, self.mode) {
                    self.join_way
                } else {
                    self.write_way
                };
                self.before_run(op).or(above)
            }
            Mode::Read => no_mark(),
            Mode::Write => no_mark(),
        }
    }

    /// What a child keeps that declares the cell so.
    fn opened(self, mode: Mode, strong: bool) -> Marks
        ensures { result ≡ opened_by self mode strong }
    {
        let mut marks = Marks::unused(mode, strong);
        marks.write_way = self.given.or(self.write_way);
        marks.read_way = self.changed.or(self.read_way);
        marks.join_way = self.join_of(mode);
        marks
    }

    /// The cell is one of a reduction of the task itself.
    pub(crate) fn is_strong_fold(self) -> bool
        ensures { result ≡ is_strong_fold self }
    {
        match self.mode {
            Mode::Fold(_) => self.strong,
            Mode::Read => false,
            Mode::Write => false,
        }
    }

    /// What is kept after a change.
    pub(crate) fn changed(self, change: Change) -> Marks
        ensures { result ≡ changed change self }
    {
        match change {
            Change::Release(mark) => self.freed(mark),
            Change::Close(gave, mode) => self.closed(gave, mode),
        }
    }

    /// What is kept after a release. That of a cell of a reduction of the task itself leaves all as it is.
    fn freed(self, mark: Mark) -> Marks
        ensures { result ≡ freed mark self }
    {
        let mut marks = self;
        if !self.is_strong_fold() {
            marks.is_freed = true;
            marks.freed = self.freed.or(mark);
        }
        marks
    }

    /// What is kept after the end of a child.
    fn closed(self, gave: Mark, mode: Mode) -> Marks
        ensures { result ≡ closed gave mode self }
    {
        let mut marks = self;
        marks.given = self.given.or(gave);
        match mode {
            Mode::Read => marks.run = None,
            Mode::Write => {
                marks.changed = self.changed.or(gave);
                marks.run = None;
            }
            Mode::Fold(op) => {
                marks.changed = self.changed.or(gave);
                marks.run = Some(op);
                marks.before = self.before_run(op);
            }
        }
        marks
    }

    /// The longest chain that is asked for: that to what stands in the way of the first act only where the task
    /// itself reads or writes.
    pub(crate) fn picked(self, way: Way) -> Mark
        ensures { result ≡ picked way self }
    {
        match way {
            Way::Given => self.given,
            Way::Start => self.start(),
        }
    }

    /// The longest chain to what stands in the way of the first act.
    fn start(self) -> Mark
        ensures { result ≡ picked Way.Start self }
    {
        if !self.strong {
            return no_mark();
        }
        match self.mode {
            Mode::Read => self.read_way,
            Mode::Write => self.write_way,
            Mode::Fold(_) => no_mark(),
        }
    }
}
