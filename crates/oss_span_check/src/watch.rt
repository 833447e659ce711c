//! What is kept beside the sequential run.

ghost use Rattle.std.specs.Prelude.{◌≡◌, ◌<◌, ◌+◌, ◌^◌, [], List as Items, IfOk, IsOk, OnOk};
ghost use Rattle.oss_span_check.specs.Following.{IsDown, IsFollowed, IsOn, IsStill, IsUp, IsWhatOf, with_note};

use crate::note::{Made, Note, What};
use crate::record::Record;
use oss_body::{Act, Body};
use oss_model::Point;
use oss_syntax::List;
use std::alloc::{AllocError, Global};

/// What is kept beside a stage of the run.
pub(crate) struct Watch {
    /// Where memory is taken from.
    pub(crate) alloc: Global,
    /// The record so far.
    pub(crate) recorded: Record,
    /// How many acts the task that runs has done.
    pub(crate) acts: u64,
    /// How many acts each of the tasks above it has done, with the creation that it waits for, the oldest first.
    pub(crate) above: List<u64>,
}

// By hand, so that who lets one go calls this, and does not take it apart at each exit.
impl Drop for Watch {
    fn drop(self) {
        let Watch {
            alloc: _,
            recorded,
            acts: _,
            above,
        } = self;
        drop(recorded);
        drop(above);
    }
}

/// What is noted of an act, if anything is.
fn what_of(alloc: Global, act: &Act) -> Result<Option<What>, AllocError>
    ensures { IfOk result (λ what. IsWhatOf act.now what) }
{
    match act {
        Act::Tick => Ok(Some(What::Tick)),
        Act::Await => Ok(Some(What::Await)),
        Act::Wait => Ok(Some(What::Wait)),
        Act::WaitOn(ranges) => {
            let ranges = Vec::from_slice(alloc, ranges.as_slice())?;
            Ok(Some(What::WaitOn(List::from_vec(ranges))))
        }
        Act::Release { clauses, included } => {
            if *included {
                return Ok(None);
            }
            let clauses = Vec::from_slice(alloc, clauses.as_slice())?;
            Ok(Some(What::Release(List::from_vec(clauses))))
        }
        Act::End => Ok(Some(What::End)),
        Act::Load(_) => Ok(None),
        Act::Store(_, _) => Ok(None),
        Act::Fold { .. } => Ok(None),
        Act::Create { .. } => Ok(None),
        Act::Print { .. } => Ok(None),
        Act::Fault { .. } => Ok(None),
    }
}

/// Notes an act, if there is something to note. Where memory is wanting the notes stay.
fn add_note(
    notes: &mut List<Note>,
    point: Point,
    number: u64,
    what: Option<What>,
) -> Result<(), AllocError>
    ensures { OnOk result (notes.new ≡ with_note notes.old point number what) }
{
    match what {
        None => Ok(()),
        Some(what) => notes.push(Note {
            point,
            number,
            what,
        }),
    }
}

impl Watch {
    /// Before the first act of main.
    pub(crate) fn new(alloc: Global) -> Watch
        ensures notes { result.recorded.notes ≡ [] }
        ensures made { result.recorded.made ≡ [] }
        ensures acts { result.acts ≡ 0 }
        ensures above { result.above ≡ [] }
    {
        Watch {
            alloc,
            recorded: Record {
                notes: List::new(alloc),
                made: List::new(alloc),
            },
            acts: 0,
            above: List::new(alloc),
        }
    }

    /// The act of a body that stands next is noted. After want of memory the run is given up.
    pub(crate) fn note(&mut self, act: &Act, body: &Body) -> Result<(), AllocError>
        ensures { OnOk result (IsOn act.now body.now self.old self.new) }
    {
        let what = what_of(self.alloc, act)?;
        let point = body.point().copy()?;
        add_note(&mut self.recorded.notes, point, self.acts, what)
    }

    /// The act was the creation of the task with this body, which runs now. After want of memory the run is given up.
    fn down(&mut self, body: &Body) -> Result<(), AllocError>
        ensures { OnOk result (IsDown body.now self.old self.new) }
    {
        let made = Made {
            point: body.point().copy()?,
            number: self.acts,
            wait: body.waits(),
            accesses: body.accesses()?,
        };
        self.recorded.made.push(made)?;
        self.above.push(more(self.acts)?)?;
        self.acts = 0;
        Ok(())
    }

    /// The act ended the task, and its creator runs now.
    fn up(&mut self)
        ensures { IsUp self.old self.new }
    {
        match self.above.pop() {
            None => {}
            Some(acts) => self.acts = acts,
        }
    }

    /// The task goes on. It takes no memory, and succeeds where the task has done fewer than 18,446,744,073,709,551,615 acts.
    fn still(&mut self) -> Result<(), AllocError>
        ensures still { OnOk result (IsStill self.old self.new) }
        ensures fits { self.old.acts + 1 < 2 ^ 64 → IsOk result }
    {
        self.acts = more(self.acts)?;
        Ok(())
    }

    /// The act is done; there were so many tasks above the one that ran, and are so many above the one with
    /// this body, which runs now. After want of memory the run is given up.
    pub(crate) fn follow(&mut self, depth: usize, now: usize, body: &Body) -> Result<(), AllocError>
        ensures { OnOk result (IsFollowed depth now body.now self.old self.new) }
    {
        if depth < now {
            self.down(body)
        } else if now < depth {
            self.up();
            Ok(())
        } else {
            self.still()
        }
    }
}

/// One more, where the number fits. It takes no memory, and tells of want of it at 18,446,744,073,709,551,615 alone.
fn more(n: u64) -> Result<u64, AllocError>
    ensures more { IfOk result (λ more. more ≡ n + 1) }
    ensures fits { n + 1 < 2 ^ 64 → IsOk result }
{
    match n.checked_add(1) {
        Some(more) => Ok(more),
        None => Err(AllocError),
    }
}
