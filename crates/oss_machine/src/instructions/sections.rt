//! Array sections over the values on the stack.
ghost use Rattle.std.specs.Prelude.{◌≡◌, ◌<◌, ◌≤◌, IsSome, None, Some, drop, map};
ghost use Rattle.std.specs.Option.{option_map};
ghost use Rattle.oss_grammar.specs.SectionCells.{place_cells, section_cells};
ghost use Rattle.oss_meaning.specs.Pointers.{global_base, number_in, pointed_base, value_base};
ghost use Rattle.oss_meaning.specs.Sections.{number_at};
ghost use Rattle.oss_sections.specs.Evaluated.{IsTold, meant_base, meant_extent, meant_part};
ghost use Rattle.oss_sections.specs.RangeCells.{cells_of};
ghost use Rattle.oss_code.specs.Globals.{extent_of, extents_in};
ghost use Rattle.oss_code.specs.Shapes.{part_operands};
ghost use Rattle.oss_machine.specs.Outcomes.{IsActedAnywhere};
ghost use Rattle.oss_machine.specs.Turnings.{turn_extent, with_ranges};
ghost use Rattle.oss_machine.specs.Steps.{Effect, base_at, extent_from, onward, part_from, place_from, span_from, unless_failed, with_arguments, with_section, with_turn, with_turning};

use crate::activation::Activation;
use crate::instructions::accesses::declare;
use crate::instructions::locals::local_at;
use crate::instructions::stack::{arguments, lower, place_behind};
use crate::outcome::Outcome;
use oss_code::{Code, GlobalPlace, Indices, PartForm, SectionBase, SectionForm};
use oss_meaning::{Declared, Value};
use oss_sections::{Base, Extent, Part, SectionRefused, section_ranges};
use oss_syntax::{FaultKind, List, Range};
use oss_values::{number_in, unsigned};
use std::alloc::{AllocError, Global};

/// The number at a place of some values, counted from the lowest; 0 where there is none.
pub(crate) fn number_at(values: &[Value], place: usize) -> u64
    ensures { result ≡ number_at (map number_in values.now) place }
{
    if place < values.len() {
        number_in(values[place])
    } else {
        0
    }
}

/// The base of a section that has no cells, seen from this index.
fn no_cells(index: u64) -> Base
    ensures { meant_base result ≡ record { start = 0; count = 0; columns = None; index = index } }
{
    Base {
        start: 0,
        count: 0,
        columns: None,
        index,
    }
}

/// The base of a section over a global: all of it.
fn global_base(place: Option<GlobalPlace>) -> Base
    ensures { meant_base result ≡ global_base (option_map extent_of place) }
{
    match place {
        Some(place) => Base {
            start: place.range.lo,
            count: place.range.hi - place.range.lo,
            columns: place.columns,
            index: 0,
        },
        None => no_cells(0),
    }
}

/// The base of a section over a pointer to a global.
fn pointed_base(place: Option<GlobalPlace>, index: i64) -> Base
    ensures { meant_base result ≡ pointed_base (option_map extent_of place) index }
{
    let index = unsigned(index);
    match place {
        Some(place) => Base {
            start: place.range.lo,
            count: place.range.hi - place.range.lo,
            columns: None,
            index,
        },
        None => no_cells(index),
    }
}

/// The base of a section over a value.
#[tactic(auto, using(crate::proofs::GlobalLemmas::extent_at))]
fn value_base(code: &Code, value: Value) -> Base
    ensures { meant_base result ≡ value_base (extents_in code.now.globals) value }
{
    match value {
        Value::Place(global, index) => pointed_base(code.global(global), index),
        Value::Num(_) => no_cells(0),
        Value::Nowhere => no_cells(0),
    }
}

/// The base of a section.
#[tactic(auto, using(crate::proofs::GlobalLemmas::extent_at))]
pub(crate) fn base_at(code: &Code, base: SectionBase, locals: &[Value]) -> Base
    ensures { meant_base result ≡ base_at code.now base locals.now }
{
    match base {
        SectionBase::Global(global) => global_base(code.global(global)),
        SectionBase::Pointer(slot) => value_base(code, local_at(locals, slot)),
        SectionBase::Nothing => no_cells(0),
    }
}

/// A span by which of its ends are written, its numbers beginning at a place of the values.
fn span_from(lower: bool, upper: bool, values: &[Value], from: usize) -> Part
    requires { from < 100 }
    ensures { meant_part result ≡ span_from lower upper (drop from (map number_in values.now)) }
{
    match (lower, upper) {
        (false, false) => Part::Span {
            lower: None,
            upper: None,
        },
        (true, false) => Part::Span {
            lower: Some(number_at(values, from)),
            upper: None,
        },
        (false, true) => Part::Span {
            lower: None,
            upper: Some(number_at(values, from)),
        },
        (true, true) => Part::Span {
            lower: Some(number_at(values, from)),
            upper: Some(number_at(values, from + 1)),
        },
    }
}

/// A part of one dimension, its numbers beginning at a place of the values.
fn part_from(form: PartForm, values: &[Value], from: usize) -> Part
    requires { from < 100 }
    ensures { meant_part result ≡ part_from form (drop from (map number_in values.now)) }
{
    match form {
        PartForm::Element => Part::Elements {
            from: number_at(values, from),
            count: 1,
        },
        PartForm::Length => Part::Elements {
            from: number_at(values, from),
            count: number_at(values, from + 1),
        },
        PartForm::Span { lower, upper } => span_from(lower, upper, values, from),
    }
}

/// How many numbers a part of one dimension has.
fn part_operands(form: PartForm) -> usize
    ensures value { result ≡ part_operands form }
    ensures few { result ≤ 2 }
{
    match form {
        PartForm::Element => 1,
        PartForm::Length => 2,
        PartForm::Span { lower, upper } => usize::from(lower) + usize::from(upper),
    }
}

/// What a section names of its base, its numbers being these values.
pub(crate) fn extent_from(form: SectionForm, values: &[Value]) -> Extent
    ensures { meant_extent result ≡ extent_from form (map number_in values.now) }
{
    match form {
        SectionForm::Whole => Extent::Whole,
        SectionForm::Deref => Extent::Part(Part::Elements { from: 0, count: 1 }),
        SectionForm::Shape => Extent::Part(Part::Elements {
            from: 0,
            count: number_at(values, 0),
        }),
        SectionForm::Line(part) => Extent::Part(part_from(part, values, 0)),
        SectionForm::Grid(rows, columns) => {
            let behind = part_operands(rows);
            Extent::Grid(
                part_from(rows, values, 0),
                part_from(columns, values, behind),
            )
        }
    }
}

/// The cells that a section names, as ranges; or its fault.
fn section_cells(
    alloc: Global,
    code: &Code,
    locals: &[Value],
    base: SectionBase,
    form: SectionForm,
    values: &[Value],
) -> Result<List<Range>, SectionRefused>
    ensures { IsTold (section_cells (base_at code.now base locals.now)
        (extent_from form (map number_in values.now))) result }
{
    let extent = extent_from(form, values);
    let base = base_at(code, base, locals);
    section_ranges(alloc, &base, &extent)
}

/// Goes on without so many values, and with what a clause declares of the cells of these ranges.
#[tactic(auto, using(crate::proofs::TurnLemmas::appended))]
fn add_section(
    frame: &mut Activation,
    taken: usize,
    declared: Declared,
    ranges: &List<Range>,
) -> Result<Outcome, AllocError>
    ensures { IsActedAnywhere (λ f. Effect.On (with_ranges declared ranges.now (onward (drop taken f.stack) f)))
        frame.old frame.new result }
{
    frame.at = place_behind(frame.at, 0)?;
    lower(&mut frame.stack, taken);
    declare(&mut frame.gathered.accesses, declared, ranges.as_slice())?;
    Ok(Outcome::On)
}

/// The numbers of a section are taken, so many of them, and its cells are added to those that the directive
/// declares; or the section has a fault.
pub(crate) fn section(
    alloc: Global,
    code: &Code,
    frame: &mut Activation,
    taken: usize,
    base: SectionBase,
    form: SectionForm,
    declared: Declared,
) -> Result<Outcome, AllocError>
    ensures { IsActedAnywhere (λ f. with_arguments taken f.stack (λ vs rest.
        unless_failed (section_cells (base_at code.now base f.locals) (extent_from form (map number_in vs)))
        (λ cells. Effect.On (record (onward rest f) { made = with_section declared cells f.made })))) frame.old
        frame.new result }
{
    let values = arguments(frame.stack.as_slice(), taken);
    match section_cells(alloc, code, frame.locals.as_slice(), base, form, values) {
        Ok(ranges) => add_section(frame, taken, declared, &ranges),
        Err(SectionRefused::Fault(kind)) => Ok(Outcome::Stops(kind)),
        Err(SectionRefused::Memory(full)) => Err(full),
    }
}

/// The element, the row or the element of a row that a turn of a multidependency names.
fn place_extent(indices: Indices, values: &[Value]) -> Extent
    ensures { meant_extent result ≡ turn_extent (place_from indices (map number_in values.now)) }
{
    let first = Part::Elements {
        from: number_at(values, 0),
        count: 1,
    };
    match indices {
        Indices::One => Extent::Part(first),
        Indices::Two => Extent::Grid(
            first,
            Part::Elements {
                from: number_at(values, 1),
                count: 1,
            },
        ),
    }
}

/// The cells that a turn of a multidependency names, as ranges; or its fault.
#[tactic(auto, using(crate::proofs::TurnLemmas::turn_is))]
fn turn_cells(
    alloc: Global,
    code: &Code,
    locals: &[Value],
    base: SectionBase,
    indices: Indices,
    values: &[Value],
) -> Result<List<Range>, SectionRefused>
    ensures { IsTold (place_cells (base_at code.now base locals.now) (base_at code.now base locals.now).columns
        (place_from indices (map number_in values.now))) result }
{
    let extent = place_extent(indices, values);
    let base = base_at(code, base, locals);
    section_ranges(alloc, &base, &extent)
}

/// Goes on without so many values, and with the cells of these ranges as those of one turn more.
#[tactic(auto, using(crate::proofs::TurnLemmas::turn_more))]
fn add_turn(
    frame: &mut Activation,
    taken: usize,
    ranges: &List<Range>,
) -> Result<Outcome, AllocError>
    requires { IsSome frame.old.turns }
    ensures { IsActedAnywhere (λ f. with_turning f.turning (λ t.
        Effect.On (record (onward (drop taken f.stack) f) {
          turning = Some (with_turn (cells_of ranges.now) t);
        }))) frame.old frame.new result }
{
    frame.at = place_behind(frame.at, 0)?;
    lower(&mut frame.stack, taken);
    frame.gathered.ranges.extend_from_slice(ranges.as_slice())?;
    Ok(Outcome::On)
}

/// The indices of a turn are taken, so many of them, and the cells that they name are added to those of the
/// multidependency; or the turn has a fault.
pub(crate) fn turn(
    alloc: Global,
    code: &Code,
    frame: &mut Activation,
    taken: usize,
    base: SectionBase,
    indices: Indices,
) -> Result<Outcome, AllocError>
    ensures { IsActedAnywhere (λ f. with_turning f.turning (λ t. with_arguments taken f.stack (λ vs rest.
        unless_failed (place_cells (base_at code.now base f.locals) (base_at code.now base f.locals).columns
        (place_from indices (map number_in vs))) (λ cells.
        Effect.On (record (onward rest f) { turning = Some (with_turn cells t) }))))) frame.old frame.new result }
{
    if frame.turns.is_none() {
        return Ok(Outcome::Stops(FaultKind::OutOfRange));
    }
    let values = arguments(frame.stack.as_slice(), taken);
    match turn_cells(alloc, code, frame.locals.as_slice(), base, indices, values) {
        Ok(ranges) => add_turn(frame, taken, &ranges),
        Err(SectionRefused::Fault(kind)) => Ok(Outcome::Stops(kind)),
        Err(SectionRefused::Memory(full)) => Err(full),
    }
}
