//! One fragment: the line of accesses that its cells share, and the number of the task of each access.

ghost use Rattle.std.specs.Prelude.{◌≡◌, ◌<◌, ◌++◌, [], ◌∷◌, ℕ, false, true, length, IfNone, IfOk, IfSome, OnErr, OnOk};
ghost use Rattle.oss_model.specs.Rights.{covers};
ghost use Rattle.oss_access_lists.specs.Steps.{IsGift, IsHung};
ghost use Rattle.oss_access_lists.specs.Tables.{gave_in, hang_at, opened_in, wires_of};
ghost use Rattle.oss_retire.specs.Remainder.{IsRemainder};
ghost use Rattle.oss_fragments.specs.Here.{AreEntries, IsEntry, IsShown, MayHang, bare, here_of};
ghost use Rattle.oss_fragments.specs.Stretches.{HasRoom, IsFragment};
ghost use Rattle.oss_fragments.specs.Changes.{HasSameEdges, IsGivenIn, IsOpenedIn, IsRoomier, IsThinner};

use crate::places::place_of;
use oss_access_lists::AccessList;
use oss_retire::{Remainder, has_spent, remainder_of};
use oss_syntax::Mode;
use std::alloc::{AllocError, Global};

/// Cells that no cut divides: all have the same accesses, which are kept once.
pub struct Fragment {
    /// The first of its cells.
    pub lo: u32,
    /// The first cell behind them.
    pub hi: u32,
    /// The first cell is a cut that was asked for.
    pub asked: bool,
    /// The number of the task of each access, main's first. They rise.
    pub tasks: Vec<usize>,
    /// The accesses, in the same order.
    pub line: AccessList,
}

// By hand, so that who lets one go calls this, and does not take it apart at each exit.
impl Drop for Fragment {
    fn drop(self) {
        let Fragment {
            lo: _,
            hi: _,
            asked: _,
            tasks,
            line,
        } = self;
        drop(tasks);
        drop(line);
    }
}

impl Fragment {
    /// All cells that a program may have, with main's access alone.
    pub(crate) fn whole(alloc: Global, hi: u32) -> Result<Fragment, AllocError>
        ensures lo { IfOk result (λ b. b.lo ≡ 0) }
        ensures hi { IfOk result (λ b. b.hi ≡ hi) }
        ensures asked { IfOk result (λ b. b.asked ≡ false) }
        ensures here { IfOk result (λ b. here_of b ≡ bare) }
        ensures settled { IfOk result (λ b. b.line.head ≡ 0) }
    {
        let mut tasks = Vec::with_capacity(alloc, 1)?;
        tasks.push_reserved(0);
        let line = AccessList::new(alloc)?;
        Ok(Fragment {
            lo: 0,
            hi,
            asked: false,
            tasks,
            line,
        })
    }

    /// A copy for the cells from `lo` on, with room for one more access.
    pub(crate) fn from(&self, lo: u32) -> Result<Fragment, AllocError>
        ensures lo { IfOk result (λ b. b.lo ≡ lo) }
        ensures hi { IfOk result (λ b. b.hi ≡ self.now.hi) }
        ensures asked { IfOk result (λ b. b.asked ≡ false) }
        ensures here { IfOk result (λ b. here_of b ≡ here_of self.now) }
        ensures settled { IfOk result (λ b. b.line.head ≡ self.now.line.head) }
        ensures room { IfOk result (λ b. HasRoom b) }
    {
        let mut tasks = self.tasks.clone()?;
        tasks.reserve(1)?;
        let mut line = self.line.copy()?;
        line.reserve()?;
        Ok(Fragment {
            lo,
            hi: self.hi,
            asked: false,
            tasks,
            line,
        })
    }

    /// Makes room for one more access.
    pub(crate) fn reserve(&mut self) -> Result<(), AllocError>
        ensures edges { HasSameEdges self.old self.new }
        ensures roomier { IsRoomier self.old self.new }
        ensures got { OnOk result (HasRoom self.new) }
    {
        self.tasks.reserve(1)?;
        self.line.reserve()
    }

    /// Leaves out the accesses that are spent, so that a copy of the fragment has none of them. It costs as
    /// much as there are accesses, and one look at each where none is spent. Err: memory is wanting, and
    /// nothing has changed.
    pub(crate) fn thin(&mut self, alloc: Global) -> Result<(), AllocError>
        requires right { IsFragment self.old }
        ensures edges { HasSameEdges self.old self.new }
        ensures thinner { IsThinner self.old self.new }
        ensures left { OnOk result (IsRemainder self.old.line.hangs self.old.line.stand self.old.tasks.items
            self.new.line.hangs self.new.tasks.items) }
        ensures err { OnErr result (self.new ≡ self.old) }
    {
        if !has_spent(&self.line) {
            return Ok(());
        }
        let mut rest = remainder_of(alloc, &self.line, self.tasks.as_slice())?;
        // the tables are new and may be full: a fragment that had room for one more access is to have it still
        rest.line.reserve()?;
        rest.numbers.reserve(1)?;
        let Remainder { line, numbers } = rest;
        self.line = line;
        self.tasks = numbers;
        Ok(())
    }

    /// The access of a task, by the number of its open; main's is 0. None: none is kept here; the task has
    /// none, or it was left out. It costs the logarithm of the number of accesses.
    pub fn entry_of(&self, number: usize) -> Option<usize>
        requires { AreEntries (here_of self.now) }
        ensures found { IfSome result (λ at. IsEntry (here_of self.now) number at) }
        ensures none { IfNone result ((at : ℕ) → IsEntry (here_of self.now) number at → ⊥) }
    {
        place_of(self.tasks.as_slice(), number)
    }

    /// Opens a task, by the number of its open, below its creator. Its flags stand.
    pub(crate) fn open(&mut self, number: usize, parent: usize, mode: Mode)
        requires right { IsFragment self.old }
        requires may { MayHang number parent mode (here_of self.old) }
        requires room { HasRoom self.old }
        ensures edges { HasSameEdges self.old self.new }
        ensures opened { IsOpenedIn number parent mode self.old self.new }
    {
        match place_of(self.tasks.as_slice(), parent) {
            Some(above) => self.hang(number, above, mode),
            None => unreachable!(),
        }
    }

    /// Hangs the access of a task below another one.
    fn hang(&mut self, number: usize, above: usize, mode: Mode)
        requires within { above < length self.old.line.hangs }
        requires held { (hang_at self.old.line.hangs above).gave ≡ false }
        requires covered { covers (hang_at self.old.line.hangs above).mode mode ≡ true }
        requires room { HasRoom self.old }
        ensures edges { HasSameEdges self.old self.new }
        ensures hangs { self.new.line.hangs ≡ opened_in self.old.line.hangs above mode }
        ensures hung { IsHung (wires_of self.old.line.hangs) (wires_of self.new.line.hangs) above
            (length self.old.line.hangs) }
        ensures settled { self.new.line.head ≡ 0 }
        ensures tasks { self.new.tasks.items ≡ self.old.tasks.items ++ number ∷ [] }
    {
        match self.line.open(above, mode) {
            Ok(()) => {}
            Err(_) => unreachable!(),
        }
        self.line.settle();
        self.tasks.push_reserved(number);
    }

    /// A task gives up its cells. What follows stands. It takes no memory.
    pub(crate) fn give(&mut self, number: usize)
        requires right { IsFragment self.old }
        requires shown { IsShown number (here_of self.old) }
        ensures edges { HasSameEdges self.old self.new }
        ensures given { IsGivenIn number self.old self.new }
    {
        match place_of(self.tasks.as_slice(), number) {
            Some(at) => self.drop_at(at),
            None => unreachable!(),
        }
    }

    /// An access is given up.
    fn drop_at(&mut self, at: usize)
        requires main { at ≡ 0 → ⊥ }
        requires within { at < length self.old.line.hangs }
        ensures edges { HasSameEdges self.old self.new }
        ensures hangs { self.new.line.hangs ≡ gave_in self.old.line.hangs at }
        ensures given { IsGift (wires_of self.old.line.hangs) (wires_of self.new.line.hangs) at }
        ensures settled { self.new.line.head ≡ 0 }
        ensures tasks { self.new.tasks.items ≡ self.old.tasks.items }
        ensures room { HasRoom self.old → HasRoom self.new }
    {
        self.line.give(at);
        AccessList::settle(&mut self.line);
    }
}
