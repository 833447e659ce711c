//! The globals and functions of a program.
ghost use Rattle.std.specs.Prelude.{◌≡◌, ◌++◌, IfOk, OnOk, map, slice_get};
ghost use Rattle.std.specs.Option.{option_copied};
ghost use Rattle.oss_grammar.specs.Scopes.{item_name};
ghost use Rattle.oss_lower_expressions.specs.Tables.{found_at, founds_from};
ghost use Rattle.oss_meaning.specs.Names.{found, functions_of, global_found, item_found};

use crate::numbers::deeper;
use crate::scope::Scope;
use oss_meaning::Found;
use oss_syntax::{Function, GlobalDef, Item};
use oss_types::NameTable;
use std::alloc::{AllocError, Global};
use std::marker::Model;

/// The globals and functions of a program, which are found by name at once: contracts see its items.
pub struct Names<'p> {
    alloc: Global,
    items: &'p [Item],
    table: NameTable<'p>,
    found: Vec<Found>,
    functions: Vec<&'p Function>,
}

// By hand, so that who lets one go calls this, and does not take it apart at each exit.
impl<'p> Drop for Names<'p> {
    fn drop(self) {
        let Names {
            alloc: _,
            items: _,
            table,
            found,
            functions,
        } = self;
        drop(table);
        drop(found);
        drop(functions);
    }
}

impl<'p> Model for Names<'p> {
    ghost use Rattle.std.specs.Prelude.{List};
    ghost use Rattle.oss_syntax.specs.declared.tree.program.Item.{Item};
    ghost use Rattle.std.specs.Coded.{coded_list};
    ghost use Rattle.oss_syntax.specs.contracts.tree.program.Item as item;
    ghost use Rattle.oss_lower_expressions.specs.Tables.{AreNamed};

    ghost Value = { List Item };

    ghost coded = { coded_list item.the_row.coded };

    ghost view = { λ n. n.items.now };

    ghost invariant = { λ n. AreNamed n.items.now n.table n.found.items n.functions.items };
}

impl<'p> Names<'p> {
    /// The globals and functions of these items. Want of memory is the one error.
    pub fn of(alloc: Global, items: &'p [Item]) -> Result<Names<'p>, AllocError>
        ensures { IfOk result (λ names. names ≡ items.now) }
    {
        let mut table = NameTable::new(alloc);
        let mut found = Vec::new(alloc);
        let mut functions = Vec::new(alloc);
        add_all(items, &mut table, &mut found, &mut functions)?;
        Ok(Names {
            alloc,
            items,
            table,
            found,
            functions,
        })
    }

    /// The allocator of its tables.
    pub fn alloc(&self) -> Global {
        self.alloc
    }

    /// What the first item of this name is.
    #[tactic(auto, using(crate::proofs::NameLemmas::founds))]
    pub fn item(&self, name: &[u8]) -> Found
        ensures { result ≡ item_found self.now name.now }
    {
        found_at(self.found.as_slice(), self.table.place(name))
    }

    /// What a name stands for where these locals are in scope: a local hides the globals and functions of its name.
    pub fn named(&self, scope: &Scope<'_>, name: &[u8]) -> Found
        ensures { result ≡ found self.now scope.now name.now }
    {
        match scope.find(name) {
            Found::Unknown => self.item(name),
            local => local,
        }
    }

    /// The functions, in text order.
    pub fn functions(&self) -> &[&'p Function]
        ensures { map (λ f. f.now) result.now ≡ functions_of self.now }
    {
        self.functions.as_slice()
    }

    /// The function with this number.
    pub fn function(&self, number: u32) -> Option<&'p Function>
        ensures { option_copied result ≡ slice_get (functions_of self.now) number }
    {
        self.functions.get(number as usize).copied()
    }
}

/// Adds the globals and functions of a program to tables that have none yet.
fn add_all<'p>(
    items: &'p [Item],
    table: &mut NameTable<'p>,
    found: &mut Vec<Found>,
    functions: &mut Vec<&'p Function>,
) -> Result<(), AllocError>
    ensures named { OnOk result (table.new ≡ table.old ++ map item_name items.now) }
    ensures found { OnOk result (found.new.items ≡ found.old.items ++ founds_from 0 0 items.now) }
    ensures numbered { OnOk result (map (λ f. f.now) functions.new.items ≡
        map (λ f. f.now) functions.old.items ++ functions_of items.now) }
{
    let mut globals = 0u32;
    let mut count = 0u32;
    for item in items {
        match item {
            Item::Global(global) => {
                table.add(global.name.as_slice())?;
                found.push(found_global(globals, global))?;
                globals = deeper(globals, 1)?;
            }
            Item::Function(function) => {
                table.add(function.name.as_slice())?;
                found.push(Found::Function(count))?;
                functions.push(function)?;
                count = deeper(count, 1)?;
            }
        }
    }
    Ok(())
}

/// What stands at a place, if there is one.
fn found_at(found: &[Found], place: Option<usize>) -> Found
    ensures { result ≡ found_at found.now place }
{
    match place {
        Some(place) => match found.get(place) {
            Some(found) => *found,
            None => Found::Unknown,
        },
        None => Found::Unknown,
    }
}

/// What the name of a global stands for.
fn found_global(number: u32, global: &GlobalDef) -> Found
    ensures { result ≡ global_found global.now.cells global.now.columns number global.now.kind }
{
    match (global.cells, global.columns) {
        (None, _) => Found::Scalar(number, global.kind),
        (Some(_), None) => Found::Array(number, global.kind),
        (Some(_), Some(_)) => Found::Grid(number, global.kind),
    }
}
