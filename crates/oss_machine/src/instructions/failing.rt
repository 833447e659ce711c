//! What failed of an instruction that fails, told by the values that it has.
ghost use Rattle.std.specs.Prelude.{◌≡◌, ◌-ℤ◌, ◌+ℤ◌, map, pos, slice_get};
ghost use Rattle.oss_grammar.specs.SectionCells.{last_of, or_zero, stretch_of};
ghost use Rattle.oss_meaning.specs.Pointers.{number_in};
ghost use Rattle.oss_meaning.specs.Sections.{number_at};
ghost use Rattle.oss_sections.specs.Evaluated.{meant_base, meant_extent, meant_part};
ghost use Rattle.oss_machine.specs.Activations.{Base as Before, frame_on};
ghost use Rattle.oss_machine.specs.Failures.{failed_at, failed_by, failed_so, global_over, global_pointed, operated_on, outside_of, pointed, section_failed, section_named, told, turn_failed, turn_named, turns_failed};
ghost use Rattle.oss_machine.specs.Steps.{place_from};

use crate::activation::Activation;
use crate::failure::{Failure, Miss, Stretch};
use crate::instructions::locals::local_at;
use crate::instructions::sections::{base_at, extent_from, number_at};
use crate::instructions::stack::{arguments, value_below};
use oss_code::{Code, Indices, Instr, SectionBase, SectionForm};
use oss_meaning::Value;
use oss_sections::{Base, Extent, Part};
use oss_syntax::{BinOp, FaultKind};
use oss_values::{number_in, signed};

/// The place to which a pointer points that points to no cell.
fn pointed(pointer: Value) -> Failure
    ensures { result ≡ pointed pointer }
{
    match pointer {
        Value::Place(global, index) => Failure::Outside(global, Miss::Place(index)),
        Value::Num(_) => Failure::Nowhere,
        Value::Nowhere => Failure::Nowhere,
    }
}

/// What failed of an operator whose right operand has this value: a shift by it.
fn operated_on(operator: BinOp, by: Value) -> Option<Failure>
    ensures { result ≡ operated_on operator by }
{
    match operator {
        BinOp::Left => Some(Failure::Shift(signed(number_in(by)))),
        BinOp::Right => Some(Failure::Shift(signed(number_in(by)))),
        _ => None,
    }
}

/// The global to which a value points, if it points to one.
fn global_pointed(value: Value) -> Option<u32>
    ensures { result ≡ global_pointed value }
{
    match value {
        Value::Place(global, _) => Some(global),
        Value::Num(_) => None,
        Value::Nowhere => None,
    }
}

/// The global over which a section is, if there is one.
fn global_over(base: SectionBase, locals: &[Value]) -> Option<u32>
    ensures { result ≡ global_over base locals.now }
{
    match base {
        SectionBase::Global(global) => Some(global),
        SectionBase::Pointer(slot) => global_pointed(local_at(locals, slot)),
        SectionBase::Nothing => None,
    }
}

/// What a section names of one dimension, which begins there, is so long, and has this for its last number.
fn told(from: i64, size: i128, last: i128) -> Stretch
    requires { last ≡ (from +ℤ size) -ℤ pos 1 }
    ensures { result ≡ told (record { from = from; size = size }) }
{
    if size <= 0 {
        Stretch::Few(size)
    } else if size <= 1 {
        Stretch::One(from)
    } else {
        Stretch::Several(from, last)
    }
}

/// So many elements from one on.
fn elements_told(from: i64, size: i64) -> Stretch
    ensures { result ≡ told (record { from = from; size = size }) }
{
    told(
        from,
        i128::from(size),
        i128::from(from) + i128::from(size) - 1,
    )
}

/// How many elements there are from one to another, both included.
fn span_size(lower: i64, upper: i64) -> i128
    ensures { result ≡ (upper -ℤ lower) +ℤ pos 1 }
{
    i128::from(upper) - i128::from(lower) + 1
}

/// The last of as many elements that begin there.
fn span_end(from: i64, lower: i64, upper: i64) -> i128
    ensures { result ≡ (from +ℤ upper) -ℤ lower }
{
    i128::from(from) + i128::from(upper) - i128::from(lower)
}

/// The elements from one to another, both included, which begin there for the pointer from which they are counted.
#[tactic(auto, using(crate::proofs::IntegerLemmas::ends_alike))]
fn span_told(from: i64, lower: i64, upper: i64) -> Stretch
    ensures { result ≡ told (record { from = from; size = (upper -ℤ lower) +ℤ pos 1 }) }
{
    told(from, span_size(lower, upper), span_end(from, lower, upper))
}

/// The last element of a part that ends at `upper`, or with its dimension of so many elements.
fn last_of(count: u32, upper: Option<u64>) -> i64
    ensures { result ≡ last_of count upper }
{
    match upper {
        Some(upper) => signed(upper),
        None => i64::from(count) - 1,
    }
}

/// Where a part begins that begins at `lower`, or with its dimension.
fn lower_end(lower: Option<u64>) -> u64
    ensures { result ≡ or_zero lower }
{
    match lower {
        Some(lower) => lower,
        None => 0,
    }
}

/// What a part names of a dimension of so many elements, seen from the element with this index.
fn part_told(count: u32, index: u64, part: Part) -> Stretch
    ensures { result ≡ told (stretch_of count index (meant_part part)) }
{
    match part {
        Part::Elements { from, count: size } => {
            elements_told(signed(index.wrapping_add(from)), signed(size))
        }
        Part::Span { lower, upper } => {
            let lower = lower_end(lower);
            span_told(
                signed(index.wrapping_add(lower)),
                signed(lower),
                last_of(count, upper),
            )
        }
    }
}

/// What a section names of its base.
fn section_named(base: &Base, extent: Extent) -> Option<Miss>
    ensures { result ≡ section_named (meant_base base.now) base.now.columns (meant_extent extent) }
{
    match (base.columns, extent) {
        (None, Extent::Part(part)) => Some(Miss::Elements(part_told(base.count, base.index, part))),
        (Some(columns), Extent::Part(rows)) => Some(Miss::Rows(part_told(
            base.count / columns,
            base.index,
            rows,
        ))),
        (Some(columns), Extent::Grid(down, across)) => Some(Miss::Grid(
            part_told(base.count / columns, base.index, down),
            part_told(columns, 0, across),
        )),
        _ => None,
    }
}

/// What a turn of a multidependency names of its base, by its first index and its second one.
fn turn_named(base: &Base, first: u64, second: Option<u64>) -> Option<Miss>
    ensures { result ≡ turn_named (meant_base base.now) base.now.columns (first, second) }
{
    let from = signed(base.index.wrapping_add(first));
    match (base.columns, second) {
        (None, None) => Some(Miss::Place(from)),
        (Some(_), None) => Some(Miss::Row(from)),
        (Some(_), Some(column)) => Some(Miss::Element(from, signed(column))),
        (None, Some(_)) => None,
    }
}

/// What is outside of a global; and what failed where there is no global.
fn outside_of(other: Failure, global: Option<u32>, miss: Option<Miss>) -> Option<Failure>
    ensures { result ≡ outside_of other global miss }
{
    match (global, miss) {
        (None, _) => Some(other),
        (Some(global), Some(miss)) => Some(Failure::Outside(global, miss)),
        (Some(_), None) => None,
    }
}

/// What failed of a section whose numbers are these values.
fn section_failed(
    code: &Code,
    over: SectionBase,
    form: SectionForm,
    locals: &[Value],
    values: &[Value],
) -> Option<Failure>
    ensures { result ≡ section_failed code.now over form locals.now (map number_in values.now) }
{
    let base = base_at(code, over, locals);
    outside_of(
        Failure::NoSection,
        global_over(over, locals),
        section_named(&base, extent_from(form, values)),
    )
}

/// What failed of a turn of a multidependency whose indices are these values.
fn turn_failed(
    code: &Code,
    over: SectionBase,
    indices: Indices,
    frame: &Activation,
    values: &[Value],
) -> Option<Failure>
    ensures { (before : Before) → result ≡ turn_failed code.now over indices (frame_on before frame.now).turning
        (frame_on before frame.now).locals (map number_in values.now) }
{
    if frame.turns.is_none() {
        return None;
    }
    let locals = frame.locals.as_slice();
    let base = base_at(code, over, locals);
    let second = second_index(indices, values);
    outside_of(
        Failure::Nowhere,
        global_over(over, locals),
        turn_named(&base, number_at(values, 0), second),
    )
}

/// The second index of a turn, if it has one.
fn second_index(indices: Indices, values: &[Value]) -> Option<u64>
    ensures { (number_at (map number_in values.now) 0, result) ≡ place_from indices (map number_in values.now) }
{
    match indices {
        Indices::One => None,
        Indices::Two => Some(number_at(values, 1)),
    }
}

/// What failed of so many turns.
fn turns_failed(frame: &Activation, count: Value) -> Option<Failure>
    ensures { (before : Before) → result ≡ turns_failed (frame_on before frame.now).turning (number_in count) }
{
    match frame.turns {
        None => Some(Failure::Turns(signed(number_in(count)))),
        Some(_) => None,
    }
}

/// What failed of an instruction that fails.
fn failed_by(code: &Code, frame: &Activation, instr: &Instr) -> Option<Failure>
    ensures { (before : Before) → result ≡ failed_by code.now (frame_on before frame.now) instr.now }
{
    let stack = frame.stack.as_slice();
    match instr {
        Instr::Load => Some(pointed(value_below(stack, 0))),
        Instr::Store(_) => Some(pointed(value_below(stack, 1))),
        Instr::Fold(_) => Some(pointed(value_below(stack, 1))),
        Instr::Apply(operator) => operated_on(operator.op, value_below(stack, 0)),
        Instr::Section(over, form, _) => section_failed(
            code,
            *over,
            *form,
            frame.locals.as_slice(),
            arguments(stack, instr.takes()),
        ),
        Instr::Turns(_) => turns_failed(frame, value_below(stack, 0)),
        Instr::Turn(over, indices) => turn_failed(
            code,
            *over,
            *indices,
            frame,
            arguments(stack, instr.takes()),
        ),
        _ => None,
    }
}

/// What failed of the instruction at which a function stands.
fn failed_here(code: &Code, frame: &Activation) -> Option<Failure>
    ensures { (before : Before) → result ≡ failed_at code.now (frame_on before frame.now)
        (slice_get code.now.instrs frame.now.at) }
{
    match code.get(frame.at) {
        Some(instr) => failed_by(code, frame, instr),
        None => None,
    }
}

/// What failed in a function that fails so.
pub(crate) fn failed_so(code: &Code, frame: &Activation, kind: FaultKind) -> Option<Failure>
    ensures { (before : Before) → result ≡ failed_so code.now (frame_on before frame.now) kind }
{
    match kind {
        FaultKind::ShiftRange => failed_here(code, frame),
        FaultKind::OutOfRange => failed_here(code, frame),
        _ => None,
    }
}
