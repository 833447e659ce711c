//! A book and the net that follows it. A net that is too small is replaced by a larger one, made from the book.

ghost use Rattle.std.specs.Prelude.{◌≡◌, ◌↔◌, ◌<◌, ◌≤◌, ◌+◌, ◌&&◌, ℕ, [], false, true, IfErr, IfNone, IfOk, IfSome, IsOk, IsTrue, Ok, Some, length, slice_index, vec_capacity};
ghost use Rattle.oss_syntax.specs.declared.access.Op.{Op as Operator};
ghost use Rattle.oss_syntax.specs.declared.access.Mode.TheVariants.{Fold};
ghost use Rattle.oss_model.specs.Forest.{IsJoinSatisfied};
ghost use Rattle.oss_deps.specs.declared.opened.Open.{Open};
ghost use Rattle.oss_deps.specs.Opens.{AreChildrenDone, IsFolding, IsKnown, IsMet, IsOpened, mode_in, opened_forest};
ghost use Rattle.oss_deps.specs.Seen.{CanGive, Gives, IsNew, Opens, Seen};
ghost use Rattle.oss_words.specs.Views.{Among};
ghost use Rattle.oss_word_deps.specs.declared.entry.Entry.{Entry as Row};
ghost use Rattle.oss_word_deps.specs.declared.words.Kept.TheVariants.{Yes};
ghost use Rattle.oss_word_deps.specs.Asked.{IsLet};
ghost use Rattle.oss_word_deps.specs.Booked.{IsBooked, IsJob, cell_count};
ghost use Rattle.oss_word_deps.specs.Growing.{HasRoom};
ghost use Rattle.oss_word_deps.specs.Known.{Follows, HasGiven, HasLinked, IsAlone, Keeps};
ghost use Rattle.oss_word_deps.specs.Ledger.{entry_of, ledger_of, lists_of};
ghost use Rattle.oss_word_deps.specs.Shelved.{HasPlace, HasSameRows, IsAsLarge, IsJobFor, IsListDone, IsNoSmaller, MayFree, MayGiveOver, MayOpenAs, freed};
ghost use Rattle.oss_word_deps.specs.Sound.{IsSound};

use crate::book::Book;
use crate::entry::Job;
use crate::growing::extend;
use crate::lookups::{entry_at, entry_from, job_of};
use crate::own::OwnNet;
use oss_syntax::{Access, Mode, Range};
use oss_words::{EntryState, state_of};
use std::alloc::{AllocError, Global};
use std::marker::Model;

/// A book, and a net in which all that it has is linked and given up.
pub(crate) struct Words {
    alloc: Global,
    net: OwnNet,
    book: Book,
}

// By hand, so that who lets one go calls this, and does not take it apart at each exit.
impl Drop for Words {
    fn drop(self) {
        let Words {
            alloc: _,
            net,
            book,
        } = self;
        drop(net);
        drop(book);
    }
}

impl Model for Words {
    ghost use Rattle.oss_word_deps.specs.Known.{Follows};
    ghost use Rattle.oss_word_deps.specs.Ledger.{ledger_of};
    ghost use Rattle.oss_word_deps.specs.Shelved.{Shelved};
    ghost use Rattle.oss_word_deps.specs.Sound.{IsSound};
    ghost use Rattle.std.specs.Prelude.{vec_capacity};

    ghost Value = { Shelved };

    ghost view = { λ w. record {
      ledger = ledger_of w.book;
      size = w.net.size;
      entries_room = vec_capacity w.book.entries;
      marks_room = vec_capacity w.book.marks;
      jobs_room = vec_capacity w.book.jobs;
    } };

    ghost invariant = { λ w. Follows w.net.known w.net.size (ledger_of w.book) × IsSound (ledger_of w.book) };
}

/// Links the entries from a place on.
fn link_from(net: &mut OwnNet, book: &Book, from: usize)
    requires sound { IsSound (ledger_of book.now) }
    requires alone { IsAlone net.old.known net.old.size × (net.old.known.view.held ≡ []) }
    requires linked { HasLinked net.old.known book.now.entries.items from }
    requires inside { (from ≤ length book.now.entries.items) × (length book.now.entries.items < net.old.size) ×
        (net.old.size ≤ 16777216) }
    requires free { (v : ℕ) (e : Row) → from < v → entry_of book.now.entries.items v ≡ Some e →
        Among e.info.parent net.old.known.view.gives → ⊥ }
    ensures linked { HasLinked net.new.known book.now.entries.items (length book.now.entries.items) }
    ensures alone { IsAlone net.new.known net.new.size × (net.new.known.view.held ≡ []) }
    ensures gives { net.new.known.view.gives ≡ net.old.known.view.gives }
    ensures size { net.new.size ≡ net.old.size }
{
    for at in from..book.entries.len() {
        net.link(at as u32 + 1, book.entries[at]);
    }
}

/// Gives up each entry that is marked so.
fn give_marked(net: &mut OwnNet, book: &Book)
    requires sound { IsSound (ledger_of book.now) }
    requires alone { IsAlone net.old.known net.old.size × (net.old.known.view.held ≡ []) }
    requires linked { HasLinked net.old.known book.now.entries.items (length book.now.entries.items) }
    requires bare { net.old.known.view.gives ≡ [] }
    requires inside { (length book.now.entries.items < net.old.size) × (net.old.size ≤ 16777216) }
    ensures follows { Follows net.new.known net.new.size (ledger_of book.now) }
    ensures size { net.new.size ≡ net.old.size }
{
    for at in 0..book.marks.len() {
        if book.marks[at].given {
            net.give(at as u32 + 1);
        }
    }
}

/// A net of this size that follows a book. `None` where its entries could not be drawn.
fn follow(alloc: Global, size: u32, book: &Book) -> Result<Option<OwnNet>, AllocError>
    requires sound { IsSound (ledger_of book.now) }
    requires size { (2 ≤ size) × (size ≤ 16777216) × (length book.now.entries.items < size) }
    ensures { IfOk result (λ made. IfSome made (λ own. (own.size ≡ size) ×
        Follows own.known size (ledger_of book.now))) }
{
    match OwnNet::new(alloc, size)? {
        Some(mut net) => {
            link_from(&mut net, book, 0);
            give_marked(&mut net, book);
            Ok(Some(net))
        }
        None => Ok(None),
    }
}

/// Twice the size, as often as more is wanted, but at most `most`.
fn doubled(size: u32, wanted: u32, most: u32) -> u32
    requires { (0 < size) × (wanted ≤ most) × (size ≤ most) × (most ≤ 16777216) }
    ensures { (wanted ≤ result) × (size ≤ result) × (result ≤ most) }
{
    let mut found = size;
    while found < wanted {
        found = if found <= most / 2 { 2 * found } else { most };
    }
    found
}

/// Room for so many entries more, and for a task. It is an error where memory is wanted.
fn reserve_rows(book: &mut Book, count: usize) -> Result<(), AllocError>
    ensures rows { ledger_of book.new ≡ ledger_of book.old }
    ensures room { length book.old.marks.items ≡ length book.old.entries.items →
        IfOk result (λ _. HasRoom count book.new × (length book.new.jobs.items < vec_capacity book.new.jobs)) }
    ensures more { (vec_capacity book.old.entries ≤ vec_capacity book.new.entries) ×
        (vec_capacity book.old.marks ≤ vec_capacity book.new.marks) ×
        (vec_capacity book.old.jobs ≤ vec_capacity book.new.jobs) }
    ensures sure { length book.old.marks.items ≡ length book.old.entries.items → HasRoom count book.old →
        length book.old.jobs.items < vec_capacity book.old.jobs → IsOk result }
{
    book.entries.reserve(count)?;
    book.marks.reserve(count)?;
    book.jobs.reserve(1)
}

/// A row of zeros.
fn zeros(alloc: Global, count: usize) -> Result<Vec<u32>, AllocError>
    ensures { IfOk result (λ v. (length v.items ≡ count) × ((k : ℕ) → slice_index v.items k ≡ 0)) }
{
    Vec::from_elem(alloc, 0, count)
}

/// An access is done, and all before it in its list.
fn is_over(state: EntryState) -> bool
    ensures { result ≡ (state.clear && state.done) }
{
    state.done && state.clear
}

/// Marks an entry as given up.
fn mark_given(book: &mut Book, entry: u32)
    requires { (0 < entry) × (entry ≤ length book.old.marks.items) }
    ensures freed { ledger_of book.new ≡ freed (ledger_of book.old) entry }
    ensures room { (vec_capacity book.new.entries ≡ vec_capacity book.old.entries) ×
        (vec_capacity book.new.marks ≡ vec_capacity book.old.marks) ×
        (vec_capacity book.new.jobs ≡ vec_capacity book.old.jobs) }
{
    book.marks[entry as usize - 1].given = true;
}

/// Whether words are kept, where a task needs more entries than are left.
#[derive(Clone, Copy)]
pub(crate) enum Kept {
    /// There is room for the task.
    Yes,
    /// A net of that size may not be had: the words are to be given up.
    No,
}

impl Words {
    /// How many entries the net has.
    pub(crate) fn size(&self) -> u32
        ensures { result ≡ self.now.size }
    {
        self.net.size()
    }

    /// An empty book, and its net. `None` where the entries could not be drawn.
    pub(crate) fn new(alloc: Global, size: u32) -> Result<Option<Words>, AllocError>
        requires { (2 ≤ size) × (size ≤ 16777216) }
        ensures booked { IfOk result (λ made. IfSome made (λ w. (s : Seen) → IsNew s → IsBooked s w.ledger)) }
        ensures size { IfOk result (λ made. IfSome made (λ w. w.size ≡ size)) }
    {
        let mains = zeros(alloc, 1_048_576)?;
        let book = Book {
            entries: Vec::new(alloc),
            marks: Vec::new(alloc),
            jobs: Vec::new(alloc),
            mains,
        };
        match OwnNet::new(alloc, size)? {
            Some(net) => Ok(Some(Words { alloc, net, book })),
            None => Ok(None),
        }
    }

    /// Makes room for a task with so many cells, in a net of at most `most` entries. It is an error where
    /// memory is wanted.
    pub(crate) fn make_room(&mut self, count: u32, most: u32) -> Result<Kept, AllocError>
        requires count { count ≤ 16777216 }
        requires most { (self.old.size ≤ most) × (most ≤ 16777216) }
        ensures ledger { self.new.ledger ≡ self.old.ledger }
        ensures most { self.new.size ≤ most }
        ensures more { IsNoSmaller self.old self.new }
        ensures room { result ≡ Ok Yes → HasPlace count self.new }
        ensures sure { HasPlace count self.old → result ≡ Ok Yes }
    {
        reserve_rows(&mut self.book, count as usize)?;
        let wanted = self.book.entries.len() as u32 + count + 1;
        if wanted <= self.net.size() {
            return Ok(Kept::Yes);
        }
        if wanted > most {
            return Ok(Kept::No);
        }
        let size = doubled(self.net.size(), wanted, most);
        match follow(self.alloc, size, &self.book)? {
            Some(net) => {
                self.net = net;
                Ok(Kept::Yes)
            }
            None => Ok(Kept::No),
        }
    }

    /// The job of a task; `None` for main.
    fn job(&self, task: u64) -> Option<Job>
        requires { (s : Seen) × IsBooked s self.now.ledger × IsKnown s.opens task }
        ensures { IsJobFor self.now.ledger task result }
    {
        // the invariant is known where a field is read
        let _ = &self.alloc;
        if task == 0 {
            return None;
        }
        match job_of(self.book.jobs.as_slice(), task) {
            Some(at) => Some(self.book.jobs[at]),
            None => unreachable!(),
        }
    }

    /// Opens a task.
    pub(crate) fn open(&mut self, task: u64, parent: u64, accesses: &[Access])
        requires may { (s : Seen) × (o : Open) × MayOpenAs s o task parent accesses.now self.old.ledger }
        requires room { HasPlace (cell_count accesses.now) self.old }
        ensures booked { (s t : Seen) (o : Open) → MayOpenAs s o task parent accesses.now self.old.ledger →
            Opens o s t → IsBooked t self.new.ledger }
        ensures size { self.new.size ≡ self.old.size }
    {
        let creator = self.job(parent);
        let from = self.book.entries.len();
        extend(&mut self.book, task, creator, accesses);
        link_from(&mut self.net, &self.book, from);
    }

    /// Gives up an entry.
    fn give_one(&mut self, entry: u32)
        requires { MayFree self.old.ledger entry }
        ensures freed { self.new.ledger ≡ freed self.old.ledger entry }
        ensures sound { IsSound self.new.ledger }
        ensures same { IsAsLarge self.old self.new }
    {
        mark_given(&mut self.book, entry);
        self.net.give(entry);
    }

    /// Gives up the cells of a range for a task.
    pub(crate) fn give(&mut self, task: u64, range: Range)
        requires may { (s : Seen) × IsBooked s self.old.ledger × CanGive task range s }
        ensures booked { (s t : Seen) → IsBooked s self.old.ledger → CanGive task range s →
            Gives task range s t → IsBooked t self.new.ledger }
        ensures rows { HasSameRows self.old.ledger self.new.ledger }
        ensures same { IsAsLarge self.old self.new }
    {
        match self.job(task) {
            Some(job) => self.give_over(job, range),
            None => unreachable!(),
        }
    }

    /// Gives up the entries of a task in a range.
    fn give_over(&mut self, job: Job, range: Range)
        requires may { (s : Seen) × MayGiveOver s job range self.old.ledger }
        ensures booked { (s t : Seen) → MayGiveOver s job range self.old.ledger → Gives job.task range s t →
            IsBooked t self.new.ledger }
        ensures rows { HasSameRows self.old.ledger self.new.ledger }
        ensures same { IsAsLarge self.old self.new }
    {
        let from = entry_from(self.book.entries.as_slice(), job, range.lo);
        let to = entry_from(self.book.entries.as_slice(), job, range.hi);
        for entry in from..to {
            self.give_one(entry);
        }
    }

    /// Whether what an entry's access waits for has come.
    fn is_let(&mut self, entry: u32) -> bool
        requires { (0 < entry) × (entry ≤ length self.old.ledger.entries) }
        ensures lets { (s : Seen) (e : Row) → IsBooked s self.old.ledger →
            entry_of self.old.ledger.entries entry ≡ Some e → (IsTrue result ↔ IsLet s.opens s.given e) }
        ensures same { self.new ≡ self.old }
    {
        let info = self.book.entries[entry as usize - 1].info;
        if !info.strong {
            return true;
        }
        match info.mode {
            Mode::Read => state_of(self.net.flags(entry)).reads,
            Mode::Write => state_of(self.net.flags(entry)).writes,
            Mode::Fold(_) => true,
        }
    }

    /// Whether the task may begin, as far as its cells go.
    pub(crate) fn is_met(&mut self, task: u64) -> bool
        requires { (s : Seen) × IsBooked s self.old.ledger × IsKnown s.opens task }
        ensures met { (s : Seen) → IsBooked s self.old.ledger → IsKnown s.opens task →
            (IsTrue result ↔ IsMet s.opens s.given task) }
        ensures same { self.new ≡ self.old }
    {
        match self.job(task) {
            Some(job) => self.are_let(job),
            None => true,
        }
    }

    /// Whether what the accesses of a task wait for has come.
    fn are_let(&mut self, job: Job) -> bool
        requires { IsJob self.old.ledger.entries job }
        ensures met { (s : Seen) → IsBooked s self.old.ledger → (IsTrue result ↔ IsMet s.opens s.given job.task) }
        ensures same { self.new ≡ self.old }
    {
        for entry in job.first..job.end {
            if !self.is_let(entry) {
                return false;
            }
        }
        true
    }

    /// Whether the slot of the task may be joined into the cell.
    pub(crate) fn may_join(&mut self, task: u64, cell: u32) -> bool
        requires { (s : Seen) × IsBooked s self.old.ledger × IsFolding s.opens task cell }
        ensures join { (s : Seen) (op : Operator) → IsBooked s self.old.ledger →
            mode_in s.opens cell task ≡ Fold op → IsFolding s.opens task cell →
            (IsTrue result ↔ IsJoinSatisfied (opened_forest s.opens s.given cell) op task) }
        ensures same { self.new ≡ self.old }
    {
        match self.job(task) {
            Some(job) => match entry_at(self.book.entries.as_slice(), job, cell) {
                Some(entry) => state_of(self.net.flags(entry)).folds,
                None => unreachable!(),
            },
            None => unreachable!(),
        }
    }

    /// Whether an access is done, and all before it in its list; of an empty list, for which 0 stands, all are.
    fn are_done(&mut self, last: u32) -> bool
        requires { last ≤ length self.old.ledger.entries }
        ensures none { last ≡ 0 → IsTrue result }
        ensures done { (e : Row) → entry_of self.old.ledger.entries last ≡ Some e →
            (IsTrue result ↔ IsListDone (lists_of self.old.ledger e.cell) last) }
        ensures same { self.new ≡ self.old }
    {
        if last == 0 {
            return true;
        }
        is_over(state_of(self.net.flags(last)))
    }

    /// Whether each access of main's children to a cell of the range is done.
    fn main_is_done(&mut self, range: Range) -> bool
        requires { (s : Seen) × IsBooked s self.old.ledger }
        ensures done { (s : Seen) → IsBooked s self.old.ledger →
            (IsTrue result ↔ ((c : ℕ) → range.lo ≤ c → c < range.hi → AreChildrenDone s.opens s.given 0 c)) }
        ensures same { self.new ≡ self.old }
    {
        for cell in range.lo..range.hi {
            let last = self.book.mains[cell as usize];
            if !self.are_done(last) {
                return false;
            }
        }
        true
    }

    /// Whether each access of a child of a task to a cell of the range is done.
    fn task_is_done(&mut self, job: Job, range: Range) -> bool
        requires { (s : Seen) × IsBooked s self.old.ledger × IsJob self.old.ledger.entries job }
        ensures done { (s : Seen) → IsBooked s self.old.ledger → IsOpened s.opens job.task →
            (IsTrue result ↔ ((c : ℕ) → range.lo ≤ c → c < range.hi → AreChildrenDone s.opens s.given job.task c)) }
        ensures same { self.new ≡ self.old }
    {
        let from = entry_from(self.book.entries.as_slice(), job, range.lo);
        let to = entry_from(self.book.entries.as_slice(), job, range.hi);
        for entry in from..to {
            let last = self.book.marks[entry as usize - 1].last;
            if !self.are_done(last) {
                return false;
            }
        }
        true
    }

    /// Whether each access of a child of the task, or of main, to a cell of the range is done.
    pub(crate) fn children_done(&mut self, task: u64, range: Range) -> bool
        requires { (s : Seen) × IsBooked s self.old.ledger × IsKnown s.opens task }
        ensures done { (s : Seen) → IsBooked s self.old.ledger → IsKnown s.opens task →
            (IsTrue result ↔ ((c : ℕ) → range.lo ≤ c → c < range.hi → AreChildrenDone s.opens s.given task c)) }
        ensures same { self.new ≡ self.old }
    {
        match self.job(task) {
            Some(job) => self.task_is_done(job, range),
            None => self.main_is_done(range),
        }
    }
}
