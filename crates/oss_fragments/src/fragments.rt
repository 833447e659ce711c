//! All cells of a program, as a map from cells to fragments. Fragments are only divided, and never joined again.

ghost use Rattle.std.specs.Prelude.{◌≡◌, ◌≤◌, ◌<◌, ◌||◌, ℕ, List as Items, IfNone, IfSome, MatchBool, MatchOption, OnErr, OnOk, false, true};
ghost use Rattle.oss_syntax.specs.declared.access.Access.{Access as Meant};
ghost use Rattle.oss_deps.specs.Opens.{IsRising, access_at};
ghost use Rattle.oss_deps.specs.Seen.{in_range, is_access_end, is_end};
ghost use Rattle.oss_fragments.specs.Here.{IsGivenUp, IsLess, IsOpened, IsShown, MayHang, bare};
ghost use Rattle.oss_fragments.specs.Kept.{here_at, is_cut};
ghost use Rattle.oss_fragments.specs.Stretches.{AreReady};
ghost use Rattle.oss_fragments.specs.Visits.{IsPartOf};

use crate::cutting::{ask_all, ask_ends, is_cut_at};
use crate::fragment::Fragment;
use crate::giving::give_over;
use crate::opening::open_all;
use crate::reserving::{make_ready, split_around};
use crate::splitting::cover;
use oss_ranges::RangeMap;
use oss_syntax::{Access, Range};
use std::alloc::{AllocError, Global};
use std::marker::Model;

/// The accesses to all cells of a program. Accesses that overlap in part are cut into fragments, after Perez,
/// Beltran, Labarta and Ayguadé (IPDPS 2017): cells that no cut divides are one fragment, and have one line of
/// accesses; where a fragment is divided the line is copied, without the accesses that are spent: done, and
/// nothing earlier in the way of a write. These are left out of both parts, since nothing depends on them any
/// more, so many cuts behind many finished accesses stay cheap. What a call costs is told by the fragments that
/// it comes to, and not by their cells; a cut costs the accesses of the fragment that it divides. An access
/// takes 84 bytes in each of its fragments, and up to twice that where tables have grown. All flags that are
/// due stand between two calls. Also after want of memory, each cell's accesses tell the same of the opened
/// tasks as before.
pub struct Fragments {
    alloc: Global,
    /// The place of the fragment of each cell.
    map: RangeMap<usize>,
    /// The fragments, in the order in which they were made; none before the first opening or preparation.
    fragments: Vec<Fragment>,
    /// The end of all cells is a cut that was asked for. No fragment begins there, so none can keep it.
    ended: bool,
}

// By hand, so that who lets one go calls this, and does not take it apart at each exit.
impl Drop for Fragments {
    fn drop(self) {
        let Fragments {
            alloc: _,
            map,
            fragments,
            ended: _,
        } = self;
        drop(map);
        drop(fragments);
    }
}

impl Model for Fragments {
    ghost use Rattle.oss_fragments.specs.Kept.{Kept};

    ghost Value = { Kept };

    ghost use Rattle.oss_fragments.specs.Stretches.{AreFragments};

    ghost view = { λ f. record { fragments = f.fragments.items; pieces = f.map.pieces; ended = f.ended } };

    ghost invariant = { λ f. AreFragments f.map.pieces f.fragments.items };
}

impl Fragments {
    /// Each cell has main's access alone, and there is no cut. It takes no memory.
    pub fn new(alloc: Global) -> Fragments
        ensures here { (c : ℕ) → here_at result c ≡ bare }
        ensures cuts { (k : ℕ) → is_cut result k ≡ false }
    {
        Fragments {
            alloc,
            map: RangeMap::new(alloc),
            fragments: Vec::new(alloc),
            ended: false,
        }
    }

    /// Makes room for one more access to each cell of these, so that `open` with them takes no memory. Other
    /// accesses that are ready stay so. Err: memory is wanting. In both cases no cut is new, and by each cell's
    /// accesses the same is told of the opened tasks: accesses on which nothing depends any more may be left
    /// out.
    pub fn reserve(&mut self, accesses: &[Access]) -> Result<(), AllocError>
        ensures ok { OnOk result (AreReady accesses.now self.new.fragments) }
        ensures here { (c : ℕ) → IsLess (here_at self.old c) (here_at self.new c) }
        ensures cuts { (k : ℕ) → is_cut self.new k ≡ is_cut self.old k }
        ensures ready { (others : Items Meant) → AreReady others self.old.fragments →
            AreReady others self.new.fragments }
    {
        cover(self.alloc, &mut self.map, &mut self.fragments)?;
        make_ready(self.alloc, &mut self.map, &mut self.fragments, accesses)
    }

    /// The ends of a range become cuts. Err: memory is wanting, and no cut is new. In both cases accesses that
    /// are ready stay so, and by each cell's accesses the same is told of the opened tasks: accesses on which
    /// nothing depends any more may be left out. Where both ends are cuts it costs two looks and takes no memory.
    pub fn prepare(&mut self, range: Range) -> Result<(), AllocError>
        ensures ok { OnOk result ((k : ℕ) → is_cut self.new k ≡ (is_cut self.old k || is_end range k)) }
        ensures err { OnErr result ((k : ℕ) → is_cut self.new k ≡ is_cut self.old k) }
        ensures here { (c : ℕ) → IsLess (here_at self.old c) (here_at self.new c) }
        ensures ready { (accesses : Items Meant) → AreReady accesses self.old.fragments →
            AreReady accesses self.new.fragments }
    {
        if self.has_cut(range.lo) && self.has_cut(range.hi) {
            return Ok(());
        }
        self.cut(range)
    }

    /// Whether a cell is known to be a cut.
    fn has_cut(&self, cell: u32) -> bool
        ensures { result ≡ true → is_cut self.now cell ≡ true }
    {
        is_cut_at(&self.map, self.fragments.as_slice(), self.ended, cell)
    }

    /// The ends of a range become cuts, as `prepare` says.
    fn cut(&mut self, range: Range) -> Result<(), AllocError>
        ensures ok { OnOk result ((k : ℕ) → is_cut self.new k ≡ (is_cut self.old k || is_end range k)) }
        ensures err { OnErr result ((k : ℕ) → is_cut self.new k ≡ is_cut self.old k) }
        ensures here { (c : ℕ) → IsLess (here_at self.old c) (here_at self.new c) }
        ensures ready { (accesses : Items Meant) → AreReady accesses self.old.fragments →
            AreReady accesses self.new.fragments }
    {
        cover(self.alloc, &mut self.map, &mut self.fragments)?;
        split_around(self.alloc, &mut self.map, &mut self.fragments, range)?;
        ask_ends(&self.map, &mut self.fragments, &mut self.ended, range);
        Ok(())
    }

    /// Opens a task, by the number of its open, below its creator: in each cell of an access it hangs behind
    /// the other children there. The ends of the accesses become cuts. It takes no memory. Condition: room was
    /// made for the accesses; they rise; and in each of their cells the creator has an access that it has not
    /// given up and that covers the new one, and no access that is kept there is of this number or a greater
    /// one.
    pub fn open(&mut self, number: usize, parent: usize, accesses: &[Access])
        requires rising { IsRising accesses.now }
        requires ready { AreReady accesses.now self.old.fragments }
        requires may { (c : ℕ) → IfSome (access_at accesses.now c) (λ a. MayHang number parent a.mode
            (here_at self.old c)) }
        ensures opened { (c : ℕ) → MatchOption (access_at accesses.now c) (here_at self.new c ≡
            here_at self.old c) (λ a. IsOpened number parent a.mode (here_at self.old c) (here_at self.new c)) }
        ensures cuts { (k : ℕ) → is_cut self.new k ≡ (is_cut self.old k || is_access_end accesses.now k) }
    {
        open_all(&self.map, &mut self.fragments, number, parent, accesses);
        ask_all(&self.map, &mut self.fragments, &mut self.ended, accesses);
    }

    /// A task gives up the cells of a range. It takes no memory. Condition: both ends of the range are cuts,
    /// and the task's access to each of its cells is kept there, as one that is not given up always is.
    pub fn give(&mut self, number: usize, range: Range)
        requires begins { is_cut self.old range.lo ≡ true }
        requires ends { is_cut self.old range.hi ≡ true }
        requires shown { (c : ℕ) → range.lo ≤ c → c < range.hi → IsShown number (here_at self.old c) }
        ensures given { (c : ℕ) → MatchBool (in_range range c) (IsGivenUp number (here_at self.old c)
            (here_at self.new c)) (here_at self.new c ≡ here_at self.old c) }
        ensures cuts { (k : ℕ) → is_cut self.new k ≡ is_cut self.old k }
        ensures ready { (accesses : Items Meant) → AreReady accesses self.old.fragments →
            AreReady accesses self.new.fragments }
    {
        give_over(&self.map, &mut self.fragments, number, range);
    }

    /// The fragment of a cell, and so the accesses to all cells up to its end. None where no cell has an access
    /// but main's. It takes no memory, and costs the logarithm of the number of fragments. Condition: a program
    /// may have the cell.
    pub fn at(&self, cell: u32) -> Option<&Fragment>
        requires { cell < 1048576 }
        ensures found { IfSome result (λ a. IsPartOf self.now cell a.now) }
        ensures none { IfNone result ((c : ℕ) → here_at self.now c ≡ bare) }
    {
        match self.map.get(cell) {
            Some(at) => Some(&self.fragments[at]),
            None => None,
        }
    }
}
