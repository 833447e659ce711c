//! Pointers of a code, and the asks for the cells to which they point.
ghost use Rattle.std.specs.Prelude.{◌≡◌, ◌∷◌, Ok, None, reverse};
ghost use Rattle.std.specs.Option.{option_map};
ghost use Rattle.oss_grammar.specs.Values.{kept};
ghost use Rattle.oss_model.specs.Bodies.Ask.{Fold, Read, Write};
ghost use Rattle.oss_meaning.specs.Expressions.{value_at};
ghost use Rattle.oss_meaning.specs.Pointers.{cell_in, cell_of, element_of, number_in, place_of_global, pointer_to, row_of};
ghost use Rattle.oss_meaning.specs.declared.value.Value.TheVariants as value;
ghost use Rattle.oss_code.specs.Globals.{extent_of, extents_in};
ghost use Rattle.oss_machine.specs.Outcomes.{IsAskedAnywhere, touch_told};
ghost use Rattle.oss_machine.specs.Steps.{Effect, onward, touched, with_top, with_two};

use crate::activation::Activation;
use crate::ask::Ask;
use crate::instructions::stack::value_below;
use crate::outcome::Outcome;
use oss_code::{Code, GlobalPlace};
use oss_meaning::Value;
use oss_sections::element_place;
use oss_syntax::{FaultKind, NumKind, Op};
use oss_values::{keep, number_in};

/// The cell of a global with this index, if it has one.
fn cell_in(place: Option<GlobalPlace>, index: i64) -> Option<u32>
    ensures { result ≡ cell_in (option_map extent_of place) index }
{
    let place = place?;
    let count = place.range.hi - place.range.lo;
    if 0 <= index && index < i64::from(count) {
        Some(place.range.lo + index as u32)
    } else {
        None
    }
}

/// The cell to which a value points, if it points to one.
#[tactic(auto, using(crate::proofs::GlobalLemmas::extent_at))]
pub(crate) fn cell_of(code: &Code, pointer: Value) -> Option<u32>
    ensures { result ≡ cell_of (extents_in code.now.globals) pointer }
{
    match pointer {
        Value::Place(global, index) => cell_in(code.global(global), index),
        Value::Num(_) => None,
        Value::Nowhere => None,
    }
}

/// The place of an element of a global, or of the first one of a row.
fn place_in(place: Option<GlobalPlace>, row: u64, column: Option<u64>) -> Option<u32>
    ensures { result ≡ place_of_global (option_map extent_of place) row column }
{
    let place = place?;
    let columns = place.columns?;
    let rows = (place.range.hi - place.range.lo) / columns;
    element_place(rows, columns, row, column)
}

/// A pointer to the element at this place of a global.
fn pointer_to(global: u32, place: Option<u32>) -> Value
    ensures { result ≡ pointer_to global place }
{
    match place {
        Some(index) => Value::Place(global, i64::from(index)),
        None => Value::Nowhere,
    }
}

#[tactic(auto, using(crate::proofs::GlobalLemmas::extent_at))]
/// The pointer to the first element of a row.
pub(crate) fn row_of(code: &Code, global: u32, row: Value) -> Value
    ensures { result ≡ row_of (extents_in code.now.globals) global (number_in row) }
{
    pointer_to(global, place_in(code.global(global), number_in(row), None))
}

#[tactic(auto, using(crate::proofs::GlobalLemmas::extent_at))]
/// The pointer to an element of a row.
pub(crate) fn element_of(code: &Code, global: u32, row: Value, column: Value) -> Value
    ensures { result ≡ element_of (extents_in code.now.globals) global (number_in row) (number_in column) }
{
    let column = Some(number_in(column));
    pointer_to(
        global,
        place_in(code.global(global), number_in(row), column),
    )
}

/// What is told of a touch of the cell to which the value at a place of the stack points, counted from the
/// topmost: the body asks, or the value points to no cell.
pub(crate) fn touch(code: &Code, frame: &Activation, depth: usize) -> Outcome
    ensures { result ≡ touch_told (cell_of (extents_in code.now.globals)
        (value_at (reverse frame.now.stack.items) depth)) }
{
    match cell_of(code, value_below(frame.stack.as_slice(), depth)) {
        Some(_) => Outcome::Asks,
        None => Outcome::Stops(FaultKind::OutOfRange),
    }
}

/// The ask for a load of the cell to which the topmost value points.
pub(crate) fn load(code: &Code, frame: &Activation) -> Ask
    ensures { IsAskedAnywhere (λ f. with_top f.stack (λ p rest.
        touched (cell_of (extents_in code.now.globals) p) (λ cell.
        Effect.Asks (Read cell) (λ v. onward (value.Num v ∷ rest) f)))) frame.now (Ok result) }
{
    match cell_of(code, value_below(frame.stack.as_slice(), 0)) {
        Some(cell) => Ask::Read(cell),
        None => Ask::End,
    }
}

/// The ask for a store of what the cell keeps of the topmost value.
pub(crate) fn store(code: &Code, frame: &Activation, kind: NumKind) -> Ask
    ensures { IsAskedAnywhere (λ f. with_two f.stack (λ p v rest.
        touched (cell_of (extents_in code.now.globals) p) (λ cell.
        Effect.Asks (Write cell (kept kind (number_in v))) (λ t. onward rest f)))) frame.now (Ok result) }
{
    match cell_of(code, value_below(frame.stack.as_slice(), 1)) {
        Some(cell) => {
            let number = number_in(value_below(frame.stack.as_slice(), 0));
            Ask::Write(cell, keep(kind, number))
        }
        None => Ask::End,
    }
}

/// The ask for a fold of the topmost value into the cell.
pub(crate) fn fold(code: &Code, frame: &Activation, op: Op) -> Ask
    ensures { IsAskedAnywhere (λ f. with_two f.stack (λ p v rest.
        touched (cell_of (extents_in code.now.globals) p) (λ cell. Effect.Asks (Fold cell op (number_in v))
        (λ t. onward rest f)))) frame.now (Ok result) }
{
    match cell_of(code, value_below(frame.stack.as_slice(), 1)) {
        Some(cell) => {
            let number = number_in(value_below(frame.stack.as_slice(), 0));
            Ask::Fold(cell, op, number)
        }
        None => Ask::End,
    }
}
