//! Programs with each task loop written out.
ghost use Rattle.std.specs.Prelude.{◌≡◌, [], ◌∷◌, ◌++◌, IfOk, OnOk};
ghost use Rattle.oss_syntax.specs.declared.tree.program.Item.TheVariants as items;
ghost use Rattle.oss_grammar.specs.TaskLoops.{item_written, program_written};

use crate::statements::statements;
use oss_syntax::{Function, Item, List, Program};
use std::alloc::{AllocError, Global};

/// The program with each task loop in it written out as its block, in the statements of other task loops too.
/// All else of it stays: the globals, the names, the order and the lines.
///
/// Want of memory is the one error.
pub fn write_out(alloc: Global, program: Program) -> Result<Program, AllocError>
    ensures { IfOk result (λ done. done ≡ program_written program) }
{
    let Program { items } = program;
    let mut done = List::new(alloc);
    for item in items.into_vec() {
        add(alloc, item, &mut done)?;
    }
    Ok(Program { items: done })
}

/// Adds an item with the task loops in it written out.
fn add(alloc: Global, item: Item, done: &mut List<Item>) -> Result<(), AllocError>
    ensures { OnOk result (done.new ≡ done.old ++ item_written item ∷ []) }
{
    let item = written_item(alloc, item)?;
    done.push(item)
}

/// An item with the task loops in it written out.
fn written_item(alloc: Global, item: Item) -> Result<Item, AllocError>
    ensures { IfOk result (λ done. done ≡ item_written item) }
{
    match item {
        Item::Global(global) => Ok(Item::Global(global)),
        Item::Function(function) => written_function(alloc, function),
    }
}

/// A function with the task loops in it written out.
fn written_function(alloc: Global, function: Function) -> Result<Item, AllocError>
    ensures { IfOk result (λ done. done ≡ item_written (items.Function function)) }
{
    let Function {
        name,
        result: returned,
        params,
        mark,
        body,
        line,
    } = function;
    let body = statements(alloc, body)?;
    Ok(Item::Function(Function {
        name,
        result: returned,
        params,
        mark,
        body,
        line,
    }))
}
