//! The system itself: words tell whether something may go on, and plain lists tell who stands in the way.

ghost use Rattle.std.specs.Prelude.{◌≡◌, ◌<◌, ◌≤◌, ◌↔◌, ℕ, IfOk, IfSome, IsTrue, OnOk, Some, None, min};
ghost use Rattle.oss_deps.specs.Seen.{IsNew, Seen};
ghost use Rattle.oss_word_deps.specs.Booked.{IsBooked};
ghost use Rattle.oss_word_deps.specs.Shelved.{AreRight, Shelved};
ghost use Rattle.oss_word_deps.specs.Worded.{seen_by};

use crate::beside::{give_in, make_room, open_in};
use crate::words::Words;
use oss_deps::{Deps, PlainDeps};
use oss_model::TaskNo;
use oss_syntax::{Access, List, Range};
use std::alloc::{AllocError, Global};
use std::marker::Model;

/// How many entries a net has at first, where it may have as many.
const FIRST: u32 = 65_536;

/// A dependency system that reads its answers off a net of access words, with one entry for each task and cell.
/// Beside the net it keeps plain lists of what it was told. Where a task needs more entries than are left, it
/// makes a net of twice the size, as often as needed, and links and gives up there what the old one has; and
/// where the most entries are too few, it gives the net up and answers from the lists.
pub struct WordDeps {
    /// The most entries that a net may have.
    most: u32,
    /// Plain lists of all that it was told, for what the words do not tell.
    kept: PlainDeps,
    /// The net with its book, until it is given up.
    words: Option<Words>,
}

// By hand, so that who lets one go calls this, and does not take it apart at each exit.
impl Drop for WordDeps {
    fn drop(self) {
        let WordDeps {
            most: _,
            kept,
            words,
        } = self;
        drop(kept);
        drop(words);
    }
}

impl Model for WordDeps {
    ghost use Rattle.oss_word_deps.specs.Shelved.{AreRight};
    ghost use Rattle.oss_word_deps.specs.Worded.{Worded, entries_of};

    ghost Value = { Worded };

    ghost view = { λ d. record { lists = d.kept; entries = entries_of d.words } };

    ghost invariant = { λ d. AreRight d.most d.kept d.words };
}

/// The words at the beginning, of at most so many entries.
fn first_words(alloc: Global, most: u32) -> Result<Option<Words>, AllocError>
    requires { most ≤ 16777216 }
    ensures booked { IfOk result (λ made. IfSome made (λ w. (s : Seen) → IsNew s → IsBooked s w.ledger)) }
    ensures size { IfOk result (λ made. IfSome made (λ w. w.size ≤ most)) }
    ensures first { IfOk result (λ made. IfSome made (λ w. w.size ≡ min most 65536)) }
{
    if most < 2 {
        Ok(None)
    } else if most < FIRST {
        Words::new(alloc, most)
    } else {
        Words::new(alloc, FIRST)
    }
}

impl WordDeps {
    /// No task is opened. `most` is from 1 to 16,777,216: so many entries its net has at most, of which one
    /// stands for main, and the first 65,536 of them where those are fewer. It is an error where memory is wanted. That
    /// there is a net tests ask (`entries`) and no clause says: entries of a net are drawn, and who draws cannot know
    /// that enough are left.
    pub fn new(alloc: Global, most: u32) -> Result<WordDeps, AllocError>
        requires { (0 < most) × (most ≤ 16777216) }
        ensures new { IfOk result (λ deps. IsNew (seen_by deps)) }
        ensures entries { IfOk result (λ deps. IfSome deps.entries (λ n. n ≤ most)) }
        ensures first { IfOk result (λ deps. IfSome deps.entries (λ n. n ≡ min most 65536)) }
    {
        let words = first_words(alloc, most)?;
        Ok(WordDeps {
            most,
            kept: PlainDeps::new(alloc),
            words,
        })
    }

    /// How many entries its net has, of which one stands for main. None: it has given the net up, and answers
    /// from its lists.
    pub fn entries(&self) -> Option<u32>
        ensures { result ≡ self.now.entries }
    {
        match &self.words {
            Some(words) => Some(words.size()),
            None => None,
        }
    }
}

/// What the words cost is told by the cells of the accesses: each has an entry of its own, which is linked and
/// given up in a few atomic steps, and is found by halving. `met` reads a word for each strong access of the
/// task to a cell, and `children_done` one for each cell of the range. `obstacle` and `undone_child` are asked
/// of the plain lists.
impl Deps for WordDeps {
    ghost use Rattle.oss_word_deps.specs.Worded.{seen_by};

    ghost seen = { seen_by };

    fn reserve(&mut self, accesses: &List<Access>) -> Result<(), AllocError> {
        make_room(&mut self.words, self.most, accesses.as_slice())?;
        self.kept.reserve(accesses)
    }

    fn open(
        &mut self,
        task: TaskNo,
        parent: TaskNo,
        accesses: &List<Access>,
    ) -> Result<(), AllocError> {
        make_room(&mut self.words, self.most, accesses.as_slice())?;
        self.kept.open(task, parent, accesses)?;
        open_in(&mut self.words, task.0, parent.0, accesses.as_slice());
        Ok(())
    }

    fn prepare(&mut self, range: Range) -> Result<(), AllocError> {
        // the invariant is known where a field is read
        let _ = self.most;
        self.kept.prepare(range)
    }

    fn give(&mut self, task: TaskNo, range: Range) {
        self.kept.give(task, range);
        give_in(&mut self.words, task.0, range);
    }

    fn met(&mut self, task: TaskNo) -> bool {
        match &mut self.words {
            Some(words) => words.is_met(task.0),
            None => self.kept.met(task),
        }
    }

    fn obstacle(&mut self, task: TaskNo) -> Option<TaskNo> {
        // the invariant is known where a field is read
        let _ = self.most;
        self.kept.obstacle(task)
    }

    fn may_join(&mut self, task: TaskNo, cell: u32) -> bool {
        match &mut self.words {
            Some(words) => words.may_join(task.0, cell),
            None => self.kept.may_join(task, cell),
        }
    }

    fn children_done(&mut self, task: TaskNo, range: Range) -> bool {
        match &mut self.words {
            Some(words) => words.children_done(task.0, range),
            None => self.kept.children_done(task, range),
        }
    }

    fn undone_child(&mut self, task: TaskNo, range: Range) -> Option<TaskNo> {
        // the invariant is known where a field is read
        let _ = self.most;
        self.kept.undone_child(task, range)
    }
}
