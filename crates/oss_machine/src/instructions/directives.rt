//! What the clauses of a directive give, and the asks of directives.
ghost use Rattle.std.specs.Prelude.{◌≡◌, ◌<◌, ◌^◌, ◌+◌, ℕ, IfOk, IsOk, Ok, drop, slice_get, true};
ghost use Rattle.oss_grammar.specs.SectionCells.{signed};
ghost use Rattle.oss_model.specs.Bodies.Ask.{Create, Release, WaitOn};
ghost use Rattle.oss_meaning.specs.Clauses.{holds, order_of};
ghost use Rattle.oss_meaning.specs.Expressions.{value_at};
ghost use Rattle.oss_meaning.specs.Pointers.{number_in};
ghost use Rattle.oss_machine.specs.Activations.{base_in};
ghost use Rattle.oss_machine.specs.Outcomes.{IsActedAnywhere, IsAsked, IsMoved};
ghost use Rattle.oss_machine.specs.Slides.{spawn_of};
ghost use Rattle.oss_machine.specs.Steps.{Effect, ahead, directive_done, named_in, onward, spawned, with_arguments, with_stack};

use crate::activation::{Activation, ClauseValues, Gathered};
use crate::ask::Ask;
use crate::instructions::accesses::{all_accesses, all_named};
use crate::instructions::act::entry_of;
use crate::instructions::stack::{lower, place_behind, value_below};
use crate::outcome::Outcome;
use oss_code::{Code, Instr, TaskOrder};
use oss_syntax::{Boxed, FaultKind, List};
use oss_values::{is_zero, number_in, signed};
use std::alloc::{AllocError, Global};

/// The value of the clause `if` is taken. It takes no memory, and succeeds where the place of the next instruction fits.
pub(crate) fn when(frame: &mut Activation) -> Result<(), AllocError>
    ensures moved { IsMoved (λ f. record (onward (drop 1 f.stack) f) {
      made = record
          (f.made) { when = holds (value_at f.stack 0) };
    }) frame.old frame.new result }
    ensures fits { frame.old.at + 1 < 2 ^ 64 → IsOk result }
{
    let value = value_below(frame.stack.as_slice(), 0);
    frame.at = place_behind(frame.at, 0)?;
    lower(&mut frame.stack, 1);
    frame.clauses.when = !is_zero(value);
    Ok(())
}

/// The value of the clause `final` is taken. It succeeds where `when` does.
pub(crate) fn last(frame: &mut Activation) -> Result<(), AllocError>
    ensures moved { IsMoved (λ f. record (onward (drop 1 f.stack) f) {
      made = record
          (f.made) { last = holds (value_at f.stack 0) };
    }) frame.old frame.new result }
    ensures fits { frame.old.at + 1 < 2 ^ 64 → IsOk result }
{
    let value = value_below(frame.stack.as_slice(), 0);
    frame.at = place_behind(frame.at, 0)?;
    lower(&mut frame.stack, 1);
    frame.clauses.last = !is_zero(value);
    Ok(())
}

/// The clause `wait` stands. It succeeds where `when` does.
pub(crate) fn late(frame: &mut Activation) -> Result<(), AllocError>
    ensures moved { IsMoved (λ f. record (ahead 0 f) {
      made = record
          (f.made) { wait = true };
    }) frame.old frame.new result }
    ensures fits { frame.old.at + 1 < 2 ^ 64 → IsOk result }
{
    frame.at = place_behind(frame.at, 0)?;
    frame.clauses.wait = true;
    Ok(())
}

/// The value of the clause `priority` is taken. It succeeds where `when` does.
pub(crate) fn priority(frame: &mut Activation) -> Result<(), AllocError>
    ensures moved { IsMoved (λ f. record (onward (drop 1 f.stack) f) {
      made = record
          (f.made) { priority = signed (number_in (value_at f.stack 0)) };
    }) frame.old frame.new result }
    ensures fits { frame.old.at + 1 < 2 ^ 64 → IsOk result }
{
    let value = value_below(frame.stack.as_slice(), 0);
    frame.at = place_behind(frame.at, 0)?;
    lower(&mut frame.stack, 1);
    frame.clauses.priority = signed(number_in(value));
    Ok(())
}

/// The entry so many instructions behind the next one, where a number of 32 bits tells it. It takes no memory, and any
/// other entry is told as want of it.
fn entry_behind(at: usize, passed: u32) -> Result<u32, AllocError>
    ensures entry { IfOk result (λ to. to ≡ at + 1 + passed) }
    ensures fits { at + 1 + passed < 2 ^ 32 → IsOk result }
{
    match u32::try_from(place_behind(at, passed)?) {
        Ok(entry) => Ok(entry),
        Err(_) => Err(AllocError),
    }
}

/// The ask for the creation of a task with what the clauses gave and a copy of the locals.
pub(crate) fn create(
    alloc: Global,
    base: &Gathered,
    frame: &Activation,
    passed: u32,
) -> Result<Ask, AllocError>
    ensures { IsAsked (base_in base.now) (λ f. Effect.Asks
        (Create (order_of (record { entry = f.at + 1 + passed; copies = f.locals }) f.made)) (λ t.
        directive_done f)) frame.now result }
{
    let entry = entry_behind(frame.at, passed)?;
    let accesses = all_accesses(alloc, base, frame)?;
    let copies = Vec::from_slice(alloc, frame.locals.as_slice())?;
    let order = TaskOrder {
        entry,
        copies: List::from_vec(copies),
        accesses,
        when: frame.clauses.when,
        last: frame.clauses.last,
        wait: frame.clauses.wait,
        priority: frame.clauses.priority,
    };
    Ok(Ask::Create(Boxed::new(alloc, order)?))
}

/// The ask for what the tasks that the body created declared of the cells that the directive names.
pub(crate) fn wait_on(alloc: Global, base: &Gathered, frame: &Activation) -> Result<Ask, AllocError>
    ensures { IsAsked (base_in base.now) (λ f. Effect.Asks (WaitOn (named_in f.made)) (λ t. directive_done f))
        frame.now result }
{
    let named = all_named(alloc, base, frame)?;
    Ok(Ask::WaitOn(named))
}

/// The ask for the release of what the directive declares.
pub(crate) fn release(alloc: Global, base: &Gathered, frame: &Activation) -> Result<Ask, AllocError>
    ensures { IsAsked (base_in base.now) (λ f. Effect.Asks (Release f.made.accesses) (λ t. directive_done f))
        frame.now result }
{
    let accesses = all_accesses(alloc, base, frame)?;
    Ok(Ask::Release(accesses))
}

/// Behind a directive: the clauses of the next one have given nothing yet. It succeeds where `when` does.
pub(crate) fn end_directive(frame: &mut Activation) -> Result<(), AllocError>
    ensures moved { IsMoved directive_done frame.old frame.new result }
    ensures fits { frame.old.at + 1 < 2 ^ 64 → IsOk result }
{
    frame.at = place_behind(frame.at, 0)?;
    frame.clauses = ClauseValues {
        when: true,
        last: false,
        wait: false,
        priority: 0,
    };
    frame.adds_accesses = false;
    frame.gathered.accesses.clear();
    Ok(())
}

/// The creation of a task function begins; none begins inside another.
pub(crate) fn spawn(frame: &Activation) -> Outcome
    ensures { (entry count : ℕ) → IsActedAnywhere (λ f. with_arguments count f.stack (λ vs rest.
        spawned f.call_line entry vs (with_stack rest f))) frame.now frame.now (Ok result) }
{
    match frame.call_line {
        None => Outcome::Creates,
        Some(_) => Outcome::Stops(FaultKind::TooDeep),
    }
}

/// Where the creation of a task function begins to which the instruction at a place leads, and how many of the
/// values it takes.
pub(crate) fn spawn_at(code: &Code, at: usize) -> (usize, usize)
    ensures { result ≡ spawn_of code.now (slice_get code.now.instrs at) }
{
    match code.get(at) {
        Some(
            Instr::Spawn {
                function,
                arguments,
            },
        ) => (entry_of(code, *function), *arguments as usize),
        _ => (0, 0),
    }
}
