//! The globals of a program by number, in a table, so that a cell or a piece is written without a way through all of them.

ghost use Rattle.std.specs.Prelude.{◌≡◌, ◌≤◌, ◌<◌, ◌++◌, ℕ, IfOk, length, map, slice_get, slice_index};
ghost use Rattle.std.specs.List.Sorted.{IsNonDecreasing};
ghost use Rattle.std.specs.Option.{option_copied};
ghost use Rattle.oss_pieces.specs.Begins.{begins_from, name_at};
ghost use Rattle.oss_pieces.specs.Names.{cell_name};
ghost use Rattle.oss_pieces.specs.Numbered.{globals_of};

use oss_syntax::{GlobalDef, Item};
use std::alloc::{AllocError, Global};
use std::marker::Model;

/// The globals of a program by number, in text order: contracts see the items of the program.
pub struct Globals<'p> {
    items: &'p [Item],
    list: Vec<&'p GlobalDef>,
    /// The number of the first cell of each; the highest number where it is above that.
    begins: Vec<u64>,
}

/// A place in a global, counted from 0. The global need not have so many cells.
#[derive(Clone, Copy)]
pub(crate) struct Spot<'p> {
    pub(crate) global: &'p GlobalDef,
    pub(crate) place: u64,
}

// By hand, so that who lets one go calls this, and does not take it apart at each exit.
impl<'p> Drop for Globals<'p> {
    fn drop(self) {
        let Globals {
            items: _,
            list,
            begins,
        } = self;
        drop(list);
        drop(begins);
    }
}

impl<'p> Model for Globals<'p> {
    ghost use Rattle.std.specs.Prelude.{◌≡◌, List, map};
    ghost use Rattle.std.specs.Coded.{coded_list};
    ghost use Rattle.oss_syntax.specs.declared.tree.program.Item.{Item};
    ghost use Rattle.oss_syntax.specs.contracts.tree.program.Item as item;
    ghost use Rattle.oss_pieces.specs.Begins.{begins_from};
    ghost use Rattle.oss_pieces.specs.Numbered.{globals_of};

    ghost Value = { List Item };

    ghost coded = { coded_list item.the_row.coded };

    ghost view = { λ g. g.items.now };

    ghost invariant = { λ g. (map (λ d. d.now) g.list.items ≡ globals_of g.items.now) × (g.begins.items ≡ begins_from 0 (globals_of g.items.now)) };
}

impl<'p> Globals<'p> {
    /// The globals among these items. Out of memory is the one error.
    pub fn of(alloc: Global, items: &'p [Item]) -> Result<Globals<'p>, AllocError>
        ensures { IfOk result (λ globals. globals ≡ items.now) }
    {
        let list = globals_among(alloc, items)?;
        let begins = begins_of(alloc, list.as_slice())?;
        Ok(Globals {
            items,
            list,
            begins,
        })
    }

    /// The global with this number, counted from 0.
    pub(crate) fn numbered(&self, number: usize) -> Option<&'p GlobalDef>
        ensures { option_copied result ≡ slice_get (globals_of self.now) number }
    {
        self.list.get(number).copied()
    }

    /// The last global that begins at this cell or before it, with the place of the cell behind its first one.
    pub(crate) fn spot_of(&self, cell: u32) -> Option<Spot<'p>>
        ensures { name_at result ≡ cell_name self.now cell }
    {
        let cell = u64::from(cell);
        let number = begun(self.begins.as_slice(), cell).checked_sub(1)?;
        let begin = self.begins[number];
        let global = self.list[number];
        Some(Spot {
            global,
            place: cell - begin,
        })
    }
}

/// How many of these numbers, which do not fall, are at most this one.
fn begun(begins: &[u64], cell: u64) -> usize
    requires { IsNonDecreasing begins.now }
    ensures there { result ≤ length begins.now }
    ensures before { (j : ℕ) → j < result → slice_index begins.now j ≤ cell }
    ensures behind { (j : ℕ) → result ≤ j → j < length begins.now → cell < slice_index begins.now j }
{
    begins.partition_point(|begin| *begin <= cell)
}

/// Where each of these globals begins.
fn begins_of(alloc: Global, list: &[&GlobalDef]) -> Result<Vec<u64>, AllocError>
    ensures { IfOk result (λ begins. begins.items ≡ begins_from 0 (map (λ d. d.now) list.now)) }
{
    let mut begins = Vec::new(alloc);
    let mut begin: u64 = 0;
    for global in list {
        begins.push(begin)?;
        begin = begin.saturating_add(global.cells.unwrap_or(1));
    }
    Ok(begins)
}

/// The globals among these items, in text order.
fn globals_among<'p>(alloc: Global, items: &'p [Item]) -> Result<Vec<&'p GlobalDef>, AllocError>
    ensures { IfOk result (λ list. map (λ d. d.now) list.items ≡ globals_of items.now) }
{
    let mut list = Vec::new(alloc);
    for item in items {
        match item {
            Item::Global(global) => list.push(global)?,
            Item::Function(_) => {}
        }
    }
    Ok(list)
}
