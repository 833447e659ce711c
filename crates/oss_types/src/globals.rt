//! The globals and functions of a program, by name.
ghost use Rattle.std.specs.Prelude.{◌≡◌, IfOk};
ghost use Rattle.std.specs.Option.{option_copied};
ghost use Rattle.oss_grammar.specs.Scopes.{item_name, item_named, item_place, function_named, is_again, meaning, global_meaning};

use crate::scope::Scope;
use crate::table::NameTable;
use oss_grammar::Named;
use oss_syntax::{Function, GlobalDef, Item, Name};
use std::alloc::{AllocError, Global};
use std::marker::Model;

/// The globals and functions of a program: contracts see its items.
#[derive(Drop)]
pub struct Globals<'p> {
    items: &'p [Item],
    names: NameTable<'p>,
}

impl<'p> Model for Globals<'p> {
    ghost use Rattle.std.specs.Prelude.{◌≡◌, List, map};
    ghost use Rattle.oss_syntax.specs.declared.tree.program.Item.{Item};
    ghost use Rattle.oss_grammar.specs.Scopes.{item_name};
    ghost use Rattle.std.specs.Coded.{coded_list};
    ghost use Rattle.oss_syntax.specs.contracts.tree.program.Item as item;

    ghost Value = { List Item };

    ghost coded = { coded_list item.the_row.coded };

    ghost view = { λ g. g.items.now };

    ghost invariant = { λ g. g.names ≡ map item_name g.items.now };
}

impl<'p> Globals<'p> {
    /// The globals and functions of these items. Want of memory is the one error.
    pub fn of(alloc: Global, items: &'p [Item]) -> Result<Globals<'p>, AllocError>
        ensures { IfOk result (λ globals. globals ≡ items.now) }
    {
        let mut names = NameTable::new(alloc);
        for item in items {
            names.add(name_of(item).as_slice())?;
        }
        Ok(Globals { items, names })
    }

    /// The place of the first item of this name.
    fn place(&self, name: &[u8]) -> Option<usize>
        ensures { result ≡ item_place self.now name.now }
    {
        self.names.place(name)
    }

    /// The first item of this name; `None` where there is none.
    fn find(&self, name: &[u8]) -> Option<&'p Item>
        ensures { option_copied result ≡ item_named self.now name.now }
    {
        match self.place(name) {
            Some(place) => self.items.get(place),
            None => None,
        }
    }

    /// The function of this name; `None` where the first item of this name is none.
    pub fn function(&self, name: &[u8]) -> Option<&'p Function>
        ensures { option_copied result ≡ function_named self.now name.now }
    {
        match self.find(name) {
            Some(Item::Function(function)) => Some(function),
            Some(Item::Global(_)) => None,
            None => None,
        }
    }

    /// Whether the item at this place declares its name again.
    pub fn declares_again(&self, place: usize, name: &[u8]) -> bool
        ensures { result ≡ is_again self.now place name.now }
    {
        match self.place(name) {
            Some(first) => first != place,
            None => true,
        }
    }

    /// What a name stands for where these locals are in scope.
    pub fn named(&self, locals: &Scope<'_, '_>, name: &[u8]) -> Named
        ensures { result ≡ meaning self.now locals.now name.now }
    {
        match locals.kind(name) {
            Some(kind) => Named::Local(kind),
            None => match self.find(name) {
                Some(Item::Global(global)) => named_global(global),
                Some(Item::Function(_)) => Named::Function,
                None => Named::Missing,
            },
        }
    }
}

/// What the name of a global stands for, which its cells and columns tell.
fn named_global(global: &GlobalDef) -> Named
    ensures { result ≡ global_meaning global.now.cells global.now.columns global.now.kind }
{
    match (global.cells, global.columns) {
        (None, _) => Named::Scalar(global.kind),
        (Some(_), None) => Named::Array(global.kind),
        (Some(_), Some(_)) => Named::Grid(global.kind),
    }
}

/// The name of a global or function.
pub(crate) fn name_of(item: &Item) -> &Name
    ensures { result.now ≡ item_name item.now }
{
    match item {
        Item::Global(global) => &global.name,
        Item::Function(function) => &function.name,
    }
}
