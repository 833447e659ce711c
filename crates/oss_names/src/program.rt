//! The rules on whole programs.
ghost use Rattle.std.specs.Prelude.{◌≡◌, ◌∷◌, ◌++◌, ◌+◌, ◌≤◌, [], IfOk, OnErr, OnOk};
ghost use Rattle.oss_grammar.specs.Broken.{first};
ghost use Rattle.oss_grammar.specs.Layout.{cells_of};
ghost use Rattle.oss_grammar.specs.ProgramRules.{body_around, function_rules, global_rules, has_main, is_wrong_function, mark_rules, passes_cells, returns_int, returns_nothing};
ghost use Rattle.oss_grammar.specs.StaticRules.{declare_all};
ghost use Rattle.oss_names.specs.PartChecks.{TellsFirst};
ghost use Rattle.oss_names.specs.Resolved.{IsChecked};

use crate::sections::{clauses, is_of_ints};
use crate::statements::{declare, statements};
use oss_grammar::{Around, Nearest};
use oss_syntax::{Function, GlobalDef, Item, Kind, Program, Refusal, Refused, RefusedKind};
use oss_types::{Globals, Locals, before, is_named_main, refused, refused_if};
use std::alloc::{AllocError, Global};

/// The most cells of a program.
const MOST_CELLS: u64 = 1_048_576;

/// Checks a program, and tells the first cell of each global and the number of all cells; or the first rule
/// that it breaks.
pub(crate) fn check(alloc: Global, program: &Program) -> Result<Vec<u32>, Refusal>
    ensures { IsChecked program.now result }
{
    let items = program.items.as_slice();
    let globals = match Globals::of(alloc, items) {
        Ok(globals) => globals,
        Err(full) => return Err(Refusal::Memory(full)),
    };
    let mut bounds = Vec::new(alloc);
    let mut cells = 0u32;
    let mut place = 0usize;
    for item in items {
        match item {
            Item::Global(global) => {
                match refusal_of_global(&globals, place, cells, global) {
                    Some(broken) => return Err(Refusal::Refused(broken)),
                    None => {}
                }
                match note(&mut bounds, cells) {
                    Ok(()) => {}
                    Err(full) => return Err(Refusal::Memory(full)),
                }
                cells = behind(cells, global.cells);
            }
            Item::Function(function) => check_function(alloc, &globals, place, function)?,
        }
        place += 1;
    }
    if !has_a_main(items) {
        return Err(Refusal::Refused(refused(RefusedKind::NoMain, 1)));
    }
    match note(&mut bounds, cells) {
        Ok(()) => Ok(bounds),
        Err(full) => Err(Refusal::Memory(full)),
    }
}

/// Adds a bound at the end. Where memory is wanting they stay.
fn note(bounds: &mut Vec<u32>, bound: u32) -> Result<(), AllocError>
    ensures added { OnOk result (bounds.new.items ≡ bounds.old.items ++ bound ∷ []) }
    ensures stays { OnErr result (bounds.new.items ≡ bounds.old.items) }
{
    bounds.push(bound)?;
    Ok(())
}

/// The first rule that a global breaks behind so many cells.
#[tactic(auto, using(oss_types::proofs::Firsts::firsts))]
fn refusal_of_global(
    globals: &Globals<'_>,
    place: usize,
    cells: u32,
    global: &GlobalDef,
) -> Option<Refused>
    requires { cells ≤ 1048576 }
    ensures { result ≡ first (global_rules globals.now place cells global.now) }
{
    let again = globals.declares_again(place, global.name.as_slice());
    let twice = refused_if(again, RefusedKind::DuplicateName, global.line);
    let many = passes(cells, global.cells);
    before(twice, refused_if(many, RefusedKind::TooLarge, global.line))
}

/// How many cells a global has.
fn size_of(cells: Option<u64>) -> u64
    ensures { result ≡ cells_of cells }
{
    match cells {
        None => 1,
        Some(cells) => cells,
    }
}

/// Whether a global has no cell, or there are too many cells with it.
fn passes(before: u32, cells: Option<u64>) -> bool
    requires { before ≤ 1048576 }
    ensures { result ≡ passes_cells before cells }
{
    let size = size_of(cells);
    let left = MOST_CELLS - before as u64;
    size == 0 || left < size
}

/// The number of cells with one more global.
fn behind(before: u32, cells: Option<u64>) -> u32
    requires { before + cells_of cells ≤ 1048576 }
    ensures { result ≡ before + cells_of cells }
{
    before + size_of(cells) as u32
}

/// Checks a function: its pragma, its name, its parameters and its body.
fn check_function<'p>(
    alloc: Global,
    globals: &Globals<'_>,
    place: usize,
    function: &'p Function,
) -> Result<(), Refusal>
    ensures { TellsFirst (function_rules globals.now place function.now) result }
{
    let again = globals.declares_again(place, function.name.as_slice());
    let twice = refused_if(again, RefusedKind::DuplicateName, function.line);
    let wrong = is_wrong(function);
    let unlike = refused_if(wrong, RefusedKind::WrongKind, function.line);
    let mark = match refusal_of_mark(alloc, globals, function) {
        Ok(mark) => mark,
        Err(full) => return Err(Refusal::Memory(full)),
    };
    match before(mark, before(twice, unlike)) {
        Some(broken) => return Err(Refusal::Refused(broken)),
        None => {}
    }
    let mut locals = Locals::none(alloc);
    declare(globals, 0, function.params.as_slice(), &mut locals)?;
    let around = around_body(function.result);
    statements(globals, around, function.body.as_slice(), &mut locals)
}

/// The first rule that the pragma of a function breaks, in which the parameters are in scope.
fn refusal_of_mark(
    alloc: Global,
    globals: &Globals<'_>,
    function: &Function,
) -> Result<Option<Refused>, AllocError>
    ensures { IfOk result (λ broken. broken ≡ first
        (mark_rules globals.now (declare_all globals.now 0 function.now.params []).locals function.now.mark)) }
{
    match &function.mark {
        Some(mark) => {
            let locals = Locals::parameters(alloc, function.params.as_slice())?;
            Ok(clauses(globals, &locals, mark.clauses.as_slice()))
        }
        None => Ok(None),
    }
}

/// What stands around the body of a function.
fn around_body(kind: Kind) -> Around
    ensures { result ≡ body_around kind }
{
    Around {
        start: 0,
        result: kind,
        nearest: Nearest::NoLoop,
        in_task: false,
    }
}

/// Whether a function is no `main` as it may be, or has a pragma and a result.
fn is_wrong(function: &Function) -> bool
    ensures { result ≡ is_wrong_function function.now }
{
    let main = is_named_main(function);
    let main_is_wrong = main && (!function.params.is_empty() || !is_int(function.result));
    let task_is_wrong = function.mark.is_some() && (main || !is_nothing(function.result));
    main_is_wrong || task_is_wrong
}

/// Whether a function of this result may be `main`.
fn is_int(kind: Kind) -> bool
    ensures { result ≡ returns_int kind }
{
    match kind {
        Kind::Num(number) => is_of_ints(number),
        _ => false,
    }
}

/// Whether a function of this result may have a pragma: nothing waits for its task where it is called, so it
/// can give no value.
fn is_nothing(kind: Kind) -> bool
    ensures { result ≡ returns_nothing kind }
{
    match kind {
        Kind::Nothing => true,
        _ => false,
    }
}

/// Whether one of the items is a function `main`.
fn has_a_main(items: &[Item]) -> bool
    ensures { result ≡ has_main items.now }
{
    for item in items {
        match item {
            Item::Function(function) => {
                if is_named_main(function) {
                    return true;
                }
            }
            Item::Global(_) => {}
        }
    }
    false
}
