//! Multidependencies: their turns, and the ranges of these.
ghost use Rattle.std.specs.Prelude.{◌≡◌, ◌<◌, ◌^◌, ◌+◌, ◌==◌, ◌++◌, IfOk, IsOk, None, OnOk, drop, if◌then◌else◌};
ghost use Rattle.oss_meaning.specs.Sections.{ranges_of};
ghost use Rattle.oss_sections.specs.RangeCells.{AreJoined, cells_of};
ghost use Rattle.oss_machine.specs.Activations.{base_in, before};
ghost use Rattle.oss_machine.specs.Outcomes.{IsActed, IsActedAnywhere};
ghost use Rattle.oss_machine.specs.Steps.{Effect, ahead, all_but_last, stepped, turned, turns_begun, turns_ended, turns_from, with_turning, with_two};
ghost use Rattle.oss_machine.specs.Turnings.{with_ranges};

use crate::activation::{Activation, Gathered, Turns};
use crate::instructions::accesses::declare;
use crate::instructions::stack::{lower, place_behind, value_below};
use crate::outcome::Outcome;
use oss_meaning::{Declared, Value};
use oss_sections::add_range;
use oss_syntax::{FaultKind, List, Range};
use oss_values::number_in;
use std::alloc::{AllocError, Global};

/// How many turns a multidependency may have.
const MOST_TURNS: u64 = 1_048_576;

/// The first value of the variable and the number of turns are taken. Without a turn so many instructions are passed.
pub(crate) fn begin_turns(frame: &mut Activation, passed: u32) -> Result<Outcome, AllocError>
    ensures { IsActedAnywhere (λ f. with_two f.stack (λ l n rest. turns_from f.turning passed l n rest f))
        frame.old frame.new result }
{
    let None = frame.turns else {
        return Ok(Outcome::Stops(FaultKind::OutOfRange));
    };
    let first = number_in(value_below(frame.stack.as_slice(), 1));
    let count = number_in(value_below(frame.stack.as_slice(), 0));
    if MOST_TURNS < count {
        return Ok(Outcome::Stops(FaultKind::OutOfRange));
    }
    start_turns(frame, passed, first, count)
}

/// So many turns begin.
fn start_turns(
    frame: &mut Activation,
    passed: u32,
    first: u64,
    count: u64,
) -> Result<Outcome, AllocError>
    ensures { IsActedAnywhere (λ f. Effect.On (turns_begun passed first count (drop 2 f.stack) f)) frame.old
        frame.new result }
{
    let start = place_behind(frame.at, 0)?;
    frame.at = first_place(start, frame.at, passed, count)?;
    lower(&mut frame.stack, 2);
    frame.locals.push(Value::Num(first))?;
    frame.turns = Some(Turns { left: count, start });
    frame.adds_ranges = false;
    frame.gathered.ranges.clear();
    Ok(Outcome::On)
}

/// Where a multidependency goes on with so many turns. It takes no memory, and succeeds where the place behind it fits.
fn first_place(start: usize, at: usize, passed: u32, count: u64) -> Result<usize, AllocError>
    requires { start ≡ at + 1 }
    ensures place { IfOk result (λ to. to ≡ (if count == 0 then at + 1 + passed else at + 1)) }
    ensures fits { at + 1 + passed < 2 ^ 64 → IsOk result }
{
    if count == 0 {
        place_behind(at, passed)
    } else {
        Ok(start)
    }
}

/// Adds 1 to the last value, if there is one.
#[tactic(auto, using(crate::proofs::TurnLemmas::stepped_push))]
fn step_last(values: &mut Vec<Value>)
    ensures { values.new.items ≡ stepped values.old.items }
{
    match values.pop() {
        Some(value) => values.push_reserved(Value::Num(number_in(value).wrapping_add(1))),
        None => {}
    }
}

/// The next turn, so many instructions back; or what stands behind the last one. It takes no memory, and succeeds where
/// the place of the next instruction fits.
pub(crate) fn next_turn(frame: &mut Activation, passed: u32) -> Result<Outcome, AllocError>
    ensures acted { IsActedAnywhere (λ f. with_turning f.turning (λ t. Effect.On (turned passed t f))) frame.old
        frame.new result }
    ensures fits { frame.old.at + 1 < 2 ^ 64 → IsOk result }
{
    let Some(turns) = frame.turns else {
        return Ok(Outcome::Stops(FaultKind::OutOfRange));
    };
    if turns.left <= 1 {
        frame.at = place_behind(frame.at, 0)?;
        frame.turns = Some(Turns {
            left: 0,
            start: turns.start,
        });
    } else {
        frame.at = frame.at.saturating_sub(passed as usize);
        step_last(&mut frame.locals);
        frame.turns = Some(Turns {
            left: turns.left - 1,
            start: turns.start,
        });
    }
    Ok(Outcome::On)
}

/// Puts the cells of these ranges in behind those of others.
fn add_ranges(alloc: Global, joined: &mut List<Range>, ranges: &[Range]) -> Result<(), AllocError>
    ensures cells { OnOk result (cells_of joined.new ≡ cells_of joined.old ++ cells_of ranges.now) }
    ensures joined { OnOk result (AreJoined joined.old → AreJoined joined.new) }
{
    for range in ranges {
        add_range(alloc, joined, *range)?;
    }
    Ok(())
}

/// The ranges before, where they are added to.
fn ranges_before(adds: bool, ranges: &[Range]) -> &[Range]
    ensures { result.now ≡ before adds ranges.now }
{
    if adds {
        ranges
    } else {
        let (none, _) = ranges.split_at(0);
        none
    }
}

/// The ranges of the cells of all turns.
fn turn_ranges(alloc: Global, before: &[Range], since: &[Range]) -> Result<List<Range>, AllocError>
    ensures { IfOk result (λ joined. ranges_of (cells_of (before.now ++ since.now)) ≡ joined) }
{
    let mut joined = List::new(alloc);
    add_ranges(alloc, &mut joined, before)?;
    add_ranges(alloc, &mut joined, since)?;
    Ok(joined)
}

/// Drops the variable, and adds the cells of all turns to those that the directive declares.
pub(crate) fn end_turns(
    alloc: Global,
    base: &Gathered,
    frame: &mut Activation,
    declared: Declared,
) -> Result<Outcome, AllocError>
    ensures { IsActed (base_in base.now) (λ f. with_turning f.turning (λ t. turns_ended declared t f)) frame.old
        frame.new result }
{
    let Some(turns) = frame.turns else {
        return Ok(Outcome::Stops(FaultKind::OutOfRange));
    };
    if frame.at < turns.start {
        return Ok(Outcome::Stops(FaultKind::OutOfRange));
    }
    let before = ranges_before(frame.adds_ranges, base.ranges.as_slice());
    let joined = turn_ranges(alloc, before, frame.gathered.ranges.as_slice())?;
    leave_turns(frame, declared, &joined)
}

/// The same, these being the ranges of all turns.
#[tactic(auto, using(crate::proofs::TurnLemmas::appended))]
fn leave_turns(
    frame: &mut Activation,
    declared: Declared,
    ranges: &List<Range>,
) -> Result<Outcome, AllocError>
    ensures { IsActedAnywhere (λ f. Effect.On (record (with_ranges declared ranges.now (ahead 0 f))
        { locals = all_but_last f.locals; turning = None })) frame.old frame.new result }
{
    frame.at = place_behind(frame.at, 0)?;
    declare(&mut frame.gathered.accesses, declared, ranges.as_slice())?;
    drop_last(&mut frame.locals);
    frame.turns = None;
    frame.gathered.ranges.clear();
    Ok(Outcome::On)
}

/// Drops the last value, if there is one.
#[tactic(auto, using(crate::proofs::TurnLemmas::last_dropped))]
fn drop_last(values: &mut Vec<Value>)
    ensures { values.new.items ≡ all_but_last values.old.items }
{
    let _last = values.pop();
}
