//! A new task is written into the book, with one entry for each cell of its accesses. Room was made before, so
//! this cannot fail.

ghost use Rattle.std.specs.Prelude.{◌≡◌, ◌<◌, ◌≤◌, ◌+◌, ◌-◌, ◌++◌, ℕ, [], ◌∷◌, length, vec_capacity, None, Some};
ghost use Rattle.oss_syntax.specs.declared.access.Access.{Access as Meant};
ghost use Rattle.oss_deps.specs.declared.opened.Open.{Open};
ghost use Rattle.oss_deps.specs.Seen.{Opens, Seen};
ghost use Rattle.oss_word_deps.specs.Booked.{IsBooked, cell_count};
ghost use Rattle.oss_word_deps.specs.declared.entry.Entry.{Entry as Row};
ghost use Rattle.oss_word_deps.specs.declared.entry.Job.{Job as Span};
ghost use Rattle.oss_word_deps.specs.Growing.{HasAdded, HasRoom, HasSameRoom, IsFrontOf, IsGrowing, IsParent, MayAdd, MayExtend, grown, new_entry, place_behind, with_last, with_main};
ghost use Rattle.oss_word_deps.specs.Ledger.{entry_of, last_of, ledger_of};
ghost use Rattle.oss_word_deps.specs.Sound.{IsSound};

use crate::book::Book;
use crate::entry::{Entry, Job, Mark};
use crate::lookups::entry_at;
use oss_syntax::Access;
use oss_words::{After, EntryInfo};

/// Where a new child of `parent` is linked, whose last child is `last`; 0 is main, and no child.
fn place_for(parent: u32, last: u32) -> After
    ensures { result ≡ place_behind parent last }
{
    if last != 0 {
        After::Sibling(last)
    } else if parent != 0 {
        After::FirstOf(parent)
    } else {
        After::FirstOfMain
    }
}

/// The last child of an entry, or of main at a cell.
fn last_child(book: &Book, parent: u32, cell: u32) -> u32
    requires sound { IsSound (ledger_of book.now) }
    requires cell { cell < 1048576 }
    requires parent { (t : ℕ) × IsParent (ledger_of book.now) t cell parent }
    ensures { result ≡ last_of (ledger_of book.now) cell parent }
{
    if parent == 0 {
        book.mains[cell as usize]
    } else {
        book.marks[parent as usize - 1].last
    }
}

/// From now on an entry is the last child of its parent, which is another entry, or main at a cell.
fn set_last(book: &mut Book, parent: u32, cell: u32, entry: u32)
    requires sound { IsSound (ledger_of book.old) }
    requires cell { cell < 1048576 }
    requires parent { parent ≤ length book.old.entries.items }
    ensures entries { (book.new.entries ≡ book.old.entries) × (book.new.jobs ≡ book.old.jobs) }
    ensures marks { book.new.marks.items ≡ with_last book.old.marks.items parent entry }
    ensures room { vec_capacity book.new.marks ≡ vec_capacity book.old.marks }
    ensures mains { book.new.mains.items ≡ with_main book.old.mains.items parent cell entry }
{
    if parent == 0 {
        book.mains[cell as usize] = entry;
    } else {
        book.marks[parent as usize - 1].last = entry;
    }
}

/// Writes the access of a new task to a cell into the book, below the parent.
fn add(book: &mut Book, task: u64, depth: u8, parent: u32, first: u32, access: Access, cell: u32)
    requires sound { IsSound (ledger_of book.old) }
    requires cell { cell < 1048576 }
    requires parent { (t : ℕ) × IsParent (ledger_of book.old) t cell parent }
    requires most { length book.old.entries.items + 1 < 16777216 }
    requires room { (length book.old.entries.items < vec_capacity book.old.entries) ×
        (length book.old.entries.items < vec_capacity book.old.marks) }
    ensures grown { ledger_of book.new ≡ grown (ledger_of book.old) parent
        (new_entry (ledger_of book.old) task depth parent first access cell) }
    ensures room { (vec_capacity book.new.entries ≡ vec_capacity book.old.entries) ×
        (vec_capacity book.new.marks ≡ vec_capacity book.old.marks) × (book.new.jobs ≡ book.old.jobs) }
{
    let number = book.entries.len() as u32 + 1;
    let after = place_for(parent, last_child(book, parent, cell));
    set_last(book, parent, cell, number);
    let info = EntryInfo {
        mode: access.mode,
        strong: access.strong,
        depth,
        parent,
        task: first,
    };
    book.entries.push_reserved(Entry {
        task,
        cell,
        info,
        after,
    });
    book.marks.push_reserved(Mark {
        last: 0,
        given: false,
    });
}

/// The entry of a task's creator at a cell; 0 where that is main.
fn parent_at(book: &Book, creator: Option<Job>, cell: u32) -> u32
    requires { (s : Seen) × (o : Open) × (depth : ℕ) × (first : ℕ) × (access : Meant) ×
        MayAdd s o depth first cell creator access cell (ledger_of book.now) }
    ensures { (s : Seen) (o : Open) (depth first : ℕ) (access : Meant) →
        MayAdd s o depth first cell creator access cell (ledger_of book.now) →
        IsParent (ledger_of book.now) o.parent cell result }
{
    match creator {
        Some(job) => match entry_at(book.entries.as_slice(), job, cell) {
            Some(entry) => entry,
            None => unreachable!(),
        },
        None => 0,
    }
}

/// Writes an access of a new task into the book.
fn add_over(book: &mut Book, task: u64, depth: u8, creator: Option<Job>, first: u32, access: Access)
    requires may { (s : Seen) × (o : Open) × MayAdd s o depth first access.range.lo creator access
        access.range.lo (ledger_of book.old) × (o.task ≡ task) }
    requires most { length book.old.entries.items + (access.range.hi - access.range.lo) < 16777216 }
    requires room { HasRoom (access.range.hi - access.range.lo) book.old }
    ensures grown { (s : Seen) (o : Open) → MayAdd s o depth first access.range.lo creator access
        access.range.lo (ledger_of book.old) → o.task ≡ task →
        IsGrowing s o depth first access.range.hi (ledger_of book.new) ×
        HasAdded first access access.range.hi (ledger_of book.old) (ledger_of book.new) }
    ensures count { length book.new.entries.items ≡
        length book.old.entries.items + (access.range.hi - access.range.lo) }
    ensures same { HasSameRoom book.old book.new }
{
    for cell in access.range.lo..access.range.hi {
        let parent = parent_at(book, creator, cell);
        add(book, task, depth, parent, first, access, cell);
    }
}

/// Writes a new task into the book, behind all others. `None` is main, as its creator.
pub(crate) fn extend(book: &mut Book, task: u64, creator: Option<Job>, accesses: &[Access])
    requires may { (s : Seen) × (o : Open) × MayExtend s o creator (ledger_of book.old) × (o.task ≡ task) ×
        (o.accesses ≡ accesses.now) }
    requires most { length book.old.entries.items + cell_count accesses.now < 16777216 }
    requires room { HasRoom (cell_count accesses.now) book.old ×
        (length book.old.jobs.items < vec_capacity book.old.jobs) }
    ensures booked { (s t : Seen) (o : Open) → MayExtend s o creator (ledger_of book.old) → o.task ≡ task →
        o.accesses ≡ accesses.now → Opens o s t → IsBooked t (ledger_of book.new) }
    ensures sound { IsSound (ledger_of book.new) }
    ensures new { (v : ℕ) (e : Row) → length book.old.entries.items < v →
        entry_of book.new.entries.items v ≡ Some e → e.task ≡ task }
    ensures front { IsFrontOf (ledger_of book.old) (ledger_of book.new) }
    ensures count { length book.new.entries.items ≡ length book.old.entries.items + cell_count accesses.now }
{
    let first = book.entries.len() as u32 + 1;
    let depth = depth_below(creator);
    for access in accesses {
        add_over(book, task, depth, creator, first, *access);
    }
    let end = book.entries.len() as u32 + 1;
    book.jobs.push_reserved(Job {
        task,
        depth,
        first,
        end,
    });
}

/// How deep a task is nested, by its creator.
fn depth_below(creator: Option<Job>) -> u8
    requires { (job : Span) → creator ≡ Some job → job.depth < 64 }
    ensures none { creator ≡ None → result ≡ 1 }
    ensures some { (job : Span) → creator ≡ Some job → result ≡ 1 + job.depth }
{
    match creator {
        Some(job) => job.depth + 1,
        None => 1,
    }
}
