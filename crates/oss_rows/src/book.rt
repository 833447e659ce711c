//! A book of rows.

ghost use Rattle.std.specs.Prelude.{◌≡◌, ◌<◌, ◌≤◌, ◌+◌, ◌-◌, ◌++◌, ℕ, List, [], ◌∷◌, IfErr, IfOk, None, Option, Some, length, slice_index, slice_set};
ghost use Rattle.oss_roles.specs.Roles.{Role};
ghost use Rattle.oss_rows.specs.Booked.{Contents, IsBooked, IsNew, behind, grown, last_in, lasts_with, mains_with};

use oss_filing::Row;
use oss_syntax::Mode;
use oss_words::{After, EntryInfo};
use std::alloc::{AllocError, Global};
use std::marker::Model;

/// What is told of a new row.
#[derive(Clone, Copy)]
pub struct NewRow {
    /// How the task accesses the cell.
    pub mode: Mode,
    /// The task itself may touch the cell, and not only its children.
    pub strong: bool,
    /// How many tasks the task lies below: 1 for a child of main. At most 64.
    pub depth: u8,
    /// The entry above: that of the task above on the same cell, or of the task above itself; 0 for main.
    pub parent: u32,
    /// The number of the task: that of its own entry.
    pub task: u32,
    /// The cell; `None` for the row of the task itself.
    pub cell: Option<u32>,
    /// The task has given up the entry.
    pub given: bool,
}

/// Rows, of which the first is that of the entry 1, with the last of each list.
pub struct Book {
    /// The rows.
    rows: Vec<Row>,
    /// The last child of each entry on its site, 0 where there is none. Entry 0 is main itself.
    lasts: Vec<u32>,
    /// The last entry of main's children on each cell, 0 where there is none.
    mains: Vec<u32>,
}

// By hand, so that who lets one go calls this, and does not take it apart at each exit.
impl Drop for Book {
    fn drop(self) {
        let Book { rows, lasts, mains } = self;
        drop(rows);
        drop(lasts);
        drop(mains);
    }
}

impl Model for Book {
    ghost use Rattle.oss_rows.specs.Booked.{Contents};

    ghost Value = { Contents };

    ghost view = { λ b. record { rows = b.rows.items; lasts = b.lasts.items; mains = b.mains.items } };
}

/// A row of zeros.
fn zeros(alloc: Global, count: usize) -> Result<Vec<u32>, AllocError>
    ensures { IfOk result (λ v. (length v.items ≡ count) × ((k : ℕ) → slice_index v.items k ≡ 0)) }
{
    Vec::from_elem(alloc, 0, count)
}

/// Where a row stands whose last sibling is `last`, and the entry above `parent`; 0 is none.
fn place_for(parent: u32, last: u32) -> After
    ensures { result ≡ behind parent last }
{
    if last != 0 {
        After::Sibling(last)
    } else if parent != 0 {
        After::FirstOf(parent)
    } else {
        After::FirstOfMain
    }
}

/// The last row on a site below a parent, 0 where there is none.
fn last_below(lasts: &[u32], mains: &[u32], parent: u32, cell: Option<u32>) -> u32
    requires parent { parent < length lasts.now }
    requires cell { (c : ℕ) → cell ≡ Some c → c < length mains.now }
    ensures { result ≡ last_in lasts.now mains.now parent cell }
{
    if parent != 0 {
        return lasts[parent as usize];
    }
    match cell {
        Some(cell) => mains[cell as usize],
        None => lasts[0],
    }
}

/// From now on an entry is the last on its site below the parent.
fn set_last(lasts: &mut [u32], mains: &mut [u32], parent: u32, cell: Option<u32>, entry: u32)
    requires parent { parent < length lasts.old }
    requires cell { (c : ℕ) → cell ≡ Some c → c < length mains.old }
    ensures lasts { lasts.new ≡ lasts_with lasts.old parent cell entry }
    ensures mains { mains.new ≡ mains_with mains.old parent cell entry }
{
    if parent != 0 {
        lasts[parent as usize] = entry;
        return;
    }
    match cell {
        Some(cell) => mains[cell as usize] = entry,
        None => lasts[0] = entry,
    }
}

impl Book {
    /// An empty book, for a program of so many cells. Want of memory is the one error.
    pub fn new(alloc: Global, cells: u32) -> Result<Book, AllocError>
        ensures booked { IfOk result (λ book. IsBooked book (λ e. None)) }
        ensures cells { IfOk result (λ book. length book.mains ≡ cells) }
    {
        let mains = zeros(alloc, cells as usize)?;
        let lasts = zeros(alloc, 1)?;
        Ok(Book {
            rows: Vec::new(alloc),
            lasts,
            mains,
        })
    }

    /// The rows.
    pub fn rows(&self) -> &[Row]
        ensures { result.now ≡ self.now.rows }
    {
        self.rows.as_slice()
    }

    /// Adds the row of a new entry behind all others, and answers its number. Want of memory is the one error: then the
    /// book is as it was. Conditions: the row is that of some role which is new (`IsNew`), and there are fewer than
    /// 16,777,214 rows.
    pub fn add(&mut self, new: NewRow) -> Result<u32, AllocError>
        requires may { (role : ℕ → Option Role) × (r : Role) × IsBooked self.old role × IsNew self.old role new r }
        requires most { length self.old.rows + 2 < 16777216 }
        ensures number { IfOk result (λ e. e ≡ 1 + length self.old.rows) }
        ensures grown { IfOk result (λ _. self.new ≡ grown self.old new) }
        ensures same { IfErr result (λ _. self.new ≡ self.old) }
    {
        self.rows.reserve(1)?;
        self.lasts.reserve(1)?;
        let number = self.rows.len() as u32 + 1;
        let last = last_below(
            self.lasts.as_slice(),
            self.mains.as_slice(),
            new.parent,
            new.cell,
        );
        set_last(
            self.lasts.as_mut_slice(),
            self.mains.as_mut_slice(),
            new.parent,
            new.cell,
            number,
        );
        let info = EntryInfo {
            mode: new.mode,
            strong: new.strong,
            depth: new.depth,
            parent: new.parent,
            task: new.task,
        };
        self.rows.push_reserved(Row {
            info,
            after: place_for(new.parent, last),
            given: new.given,
        });
        self.lasts.push_reserved(0);
        Ok(number)
    }
}
