//! All tables of a line of accesses behind one invariant. The work on the tables is in `queue`, which takes
//! them one by one.

ghost use Rattle.std.specs.Prelude.{ℕ, ◌≡◌, ◌<◌, ◌==◌, [], ◌∷◌, length, false, true, IfOk, IsOk, OnOk, OnErr};
ghost use Rattle.oss_access_lists.specs.Kept.{HasRoom};
ghost use Rattle.oss_access_lists.specs.Wires.{AreWired};
ghost use Rattle.oss_model.specs.Rights.{covers};
ghost use Rattle.oss_access_lists.specs.Flags.{AreAtRest, Flag, IsListed, Means, has};
ghost use Rattle.oss_access_lists.specs.Steps.{IsGift, IsHung};
ghost use Rattle.oss_access_lists.specs.Tables.{AreTables, AreWithin, gave_in, hang_at, marks_at, no_hang, opened_in, wires_of};

use crate::hang::Hang;
use crate::marks::{Marks, hang_at, main_marks, marks_at, no_hang, no_marks};
use crate::queue;
use oss_syntax::Mode;
use std::alloc::{AllocError, Global};
use std::marker::Model;

/// The accesses to one cell, or to cells that are all alike, in lists: the accesses of the children of an
/// access hang below it, one behind the other, in the order of creation. They go by numbers in the order of
/// their openings; 0 is main's. Flags move along the lists: a call of `open` or `give` posts them, and `settle`
/// delivers what is posted. To open, give up and settle a chain of accesses one by one costs as much as there
/// are accesses: no call walks over all of them.
pub struct AccessList {
    /// The links, the mode and the gift of each access, by its number.
    hangs: Vec<Hang>,
    /// The flags that stand, in the same order.
    stand: Vec<Marks>,
    /// The flags that wait for their delivery.
    posted: Vec<Marks>,
    /// The next access at which flags wait, for each at which some do.
    behind: Vec<usize>,
    /// The first access at which flags wait, 0 where there is none.
    head: usize,
}

// By hand, so that who lets one go calls this, and does not take it apart at each exit.
impl Drop for AccessList {
    fn drop(self) {
        let AccessList {
            hangs,
            stand,
            posted,
            behind,
            head: _,
        } = self;
        drop(hangs);
        drop(stand);
        drop(posted);
        drop(behind);
    }
}

impl Model for AccessList {
    ghost use Rattle.std.specs.Prelude.{vec_capacity};
    ghost use Rattle.oss_access_lists.specs.Kept.{Kept};

    ghost Value = { Kept };

    ghost use Rattle.oss_access_lists.specs.Tables.{AreTables};

    ghost view = { λ l. record {
      hangs = l.hangs.items;
      stand = l.stand.items;
      posted = l.posted.items;
      behind = l.behind.items;
      head = l.head;
      rooms = record {
        hangs = vec_capacity l.hangs;
        stand = vec_capacity l.stand;
        posted = vec_capacity l.posted;
        behind = vec_capacity l.behind;
      };
    } };

    ghost invariant = { λ l. AreTables l.hangs.items l.stand.items l.posted.items l.behind.items l.head };
}

impl AccessList {
    /// The line of a cell that no task has an access to: main is there alone. Err: memory is wanting.
    pub fn new(alloc: Global) -> Result<AccessList, AllocError>
        ensures main { IfOk result (λ l. l.hangs ≡ no_hang ∷ []) }
        ensures rest { IfOk result (λ l. l.head ≡ 0) }
    {
        let hangs = of_one(alloc, no_hang())?;
        let stand = of_one(alloc, main_marks())?;
        let posted = of_one(alloc, no_marks())?;
        let behind: Vec<usize> = of_one(alloc, 0)?;
        Ok(AccessList {
            hangs,
            stand,
            posted,
            behind,
            head: 0,
        })
    }

    /// Takes the memory for one more access, so that the next `open` cannot fail. Err: memory is wanting, which
    /// it is not where there is enough already. Nothing else changes.
    pub fn reserve(&mut self) -> Result<(), AllocError>
        ensures same { self.new ≡ record self.old { rooms = self.new.rooms } }
        ensures ok { OnOk result (HasRoom self.new) }
        ensures sure { HasRoom self.old → IsOk result }
    {
        queue::reserve(
            &mut self.hangs,
            &mut self.stand,
            &mut self.posted,
            &mut self.behind,
        )
    }

    /// Hangs an access at the end of the list of `above`, the access of its creator, or 0 for main. Its number
    /// is the `count` before. Its flags stand once the line is settled. Err: memory is wanting, which it is not
    /// behind `reserve`, and nothing has changed but for how much memory is there. It costs the same for each
    /// line, but for what the tables take to grow.
    pub fn open(&mut self, above: usize, mode: Mode) -> Result<(), AllocError>
        requires within { above < length self.old.hangs }
        requires held { (hang_at self.old.hangs above).gave ≡ false }
        requires covered { covers (hang_at self.old.hangs above).mode mode ≡ true }
        ensures opened { OnOk result (self.new.hangs ≡ opened_in self.old.hangs above mode) }
        ensures hung { OnOk result (IsHung (wires_of self.old.hangs) (wires_of self.new.hangs) above
            (length self.old.hangs)) }
        ensures same { OnErr result (self.new ≡ record self.old { rooms = self.new.rooms }) }
        ensures sure { HasRoom self.old → IsOk result }
    {
        self.head = queue::open(
            &mut self.hangs,
            &mut self.stand,
            &mut self.posted,
            &mut self.behind,
            self.head,
            above,
            mode,
        )?;
        Ok(())
    }

    /// The task of the access gives up the cell. What follows stands once the line is settled. It takes no
    /// memory, and costs the same for each line.
    pub fn give(&mut self, at: usize)
        requires main { at ≡ 0 → ⊥ }
        requires within { at < length self.old.hangs }
        ensures gave { self.new.hangs ≡ gave_in self.old.hangs at }
        ensures given { IsGift (wires_of self.old.hangs) (wires_of self.new.hangs) at }
        ensures rooms { self.new.rooms ≡ self.old.rooms }
        ensures room { HasRoom self.old → HasRoom self.new }
    {
        self.head = queue::give(
            self.hangs.as_mut_slice(),
            self.stand.as_slice(),
            self.posted.as_mut_slice(),
            self.behind.as_mut_slice(),
            self.head,
            at,
        );
    }

    /// Delivers the flags that wait, until none does. It takes no memory. It costs as much as there are
    /// accesses that get a flag: an access gets each of its six flags once, over all calls together.
    pub fn settle(&mut self)
        ensures hangs { self.new.hangs ≡ self.old.hangs }
        ensures rest { self.new.head ≡ 0 }
        ensures rooms { self.new.rooms ≡ self.old.rooms }
        ensures room { HasRoom self.old → HasRoom self.new }
    {
        queue::settle(
            self.hangs.as_slice(),
            self.stand.as_mut_slice(),
            self.posted.as_mut_slice(),
            self.behind.as_mut_slice(),
            self.head,
        );
        self.head = 0;
    }

    /// The flags of an access, in a line that is settled: each stands exactly where what it says is so. It
    /// costs one look.
    pub fn flags(&self, at: usize) -> Marks
        requires rest { self.now.head ≡ 0 }
        requires main { at ≡ 0 → ⊥ }
        requires within { at < length self.now.hangs }
        ensures sound { (f : Flag) → has f result ≡ true → Means (wires_of self.now.hangs) f at }
        ensures stand { result ≡ marks_at self.now.stand at }
        ensures complete { (f : Flag) → Means (wires_of self.now.hangs) f at → has f result ≡ true }
    {
        marks_at(self.stand.as_slice(), at)
    }

    /// Whether nothing waits. Its clauses tell besides what holds of each line: the lists are such as grow by
    /// openings, each access hangs in one, no link leads out of the line, and where nothing waits all that is
    /// due stands. So the laws of `laws` hold of it.
    pub fn is_settled(&self) -> bool
        ensures settled { result ≡ (self.now.head == 0) }
        ensures wired { AreWired (wires_of self.now.hangs) }
        ensures listed { (v : ℕ) → (v ≡ 0 → ⊥) → v < length self.now.hangs → IsListed (wires_of self.now.hangs) v }
        ensures within { AreWithin self.now.hangs (length self.now.hangs) }
        ensures rest { self.now.head ≡ 0 → AreAtRest (wires_of self.now.hangs) (marks_at self.now.stand) }
    {
        self.head == 0
    }

    /// How many accesses were opened, with main's: the number of the next one.
    pub fn count(&self) -> usize
        ensures { result ≡ length self.now.hangs }
    {
        self.hangs.len()
    }

    /// The links, the mode and the gift of an access, or of main; past the last access, those of one that hangs
    /// nowhere. It costs one look.
    pub fn hang(&self, at: usize) -> Hang
        ensures { result ≡ hang_at self.now.hangs at }
    {
        hang_at(self.hangs.as_slice(), at)
    }

    /// The same line once more: where cells that were alike are parted, the flags that stand, those that wait
    /// and the links stay for each of them. The memory that is reserved is not copied. Err: memory is wanting.
    /// It costs as much as there are accesses.
    pub fn copy(&self) -> Result<AccessList, AllocError>
        ensures { IfOk result (λ l. l ≡ record self.now { rooms = l.rooms }) }
    {
        let hangs = self.hangs.clone()?;
        let stand = self.stand.clone()?;
        let posted = self.posted.clone()?;
        let behind = self.behind.clone()?;
        Ok(AccessList {
            hangs,
            stand,
            posted,
            behind,
            head: self.head,
        })
    }
}

/// A table with one row.
fn of_one<T: Copy>(alloc: Global, first: T) -> Result<Vec<T>, AllocError>
    ensures { IfOk result (λ table. table.items ≡ first ∷ []) }
{
    let mut table = Vec::new(alloc);
    table.push(first)?;
    Ok(table)
}
