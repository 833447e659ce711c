//! How a function goes on with the answer to what it asks.
ghost use Rattle.std.specs.Prelude.{◌≡◌, ◌<◌, ◌^◌, ◌+◌, ◌∷◌, IsOk};
ghost use Rattle.oss_grammar.specs.Values.{kept};
ghost use Rattle.oss_model.specs.Bodies.Ask.{Fold, Read, Write};
ghost use Rattle.oss_meaning.specs.declared.value.Value.TheVariants as value;
ghost use Rattle.oss_meaning.specs.Pointers.{cell_of, number_in};
ghost use Rattle.oss_code.specs.Globals.{extents_in};
ghost use Rattle.oss_machine.specs.Outcomes.{IsAnswered};
ghost use Rattle.oss_machine.specs.Steps.{Effect, effect, onward, touched, with_top, with_two};

use crate::activation::Activation;
use crate::instructions::act::entry_of;
use crate::instructions::cells::cell_of;
use crate::instructions::directives::end_directive;
use crate::instructions::jumps::{advance, go_back};
use crate::instructions::stack::{pass, put, value_below};
use crate::outcome::Taken;
use oss_code::{Code, Instr};
use oss_meaning::Value;
use oss_syntax::{NumKind, Op};
use std::alloc::AllocError;

/// The number that a load found is left in the place of its pointer.
fn end_load(code: &Code, frame: &mut Activation, loaded: u64) -> Result<Taken, AllocError>
    ensures { IsAnswered (λ f. with_top f.stack (λ p rest. touched (cell_of (extents_in code.now.globals) p)
        (λ cell. Effect.Asks (Read cell) (λ v. onward (value.Num v ∷ rest) f)))) loaded frame.old frame.new result }
{
    match cell_of(code, value_below(frame.stack.as_slice(), 0)) {
        Some(_) => {
            put(frame, 1, Value::Num(loaded))?;
            Ok(Taken::Went)
        }
        None => Ok(Taken::Went),
    }
}

/// What a store took is gone. It takes no memory, and succeeds where the place of the next instruction fits.
fn end_store(
    code: &Code,
    frame: &mut Activation,
    kind: NumKind,
    loaded: u64,
) -> Result<Taken, AllocError>
    ensures answered { IsAnswered (λ f. with_two f.stack (λ p v rest. touched (cell_of (extents_in code.now.globals) p)
        (λ cell. Effect.Asks (Write cell (kept kind (number_in v))) (λ t. onward rest f)))) loaded frame.old
        frame.new result }
    ensures fits { frame.old.at + 1 < 2 ^ 64 → IsOk result }
{
    match cell_of(code, value_below(frame.stack.as_slice(), 1)) {
        Some(_) => {
            pass(frame, 2)?;
            Ok(Taken::Went)
        }
        None => Ok(Taken::Went),
    }
}

/// What a fold took is gone. It succeeds where `end_store` does.
fn end_fold(code: &Code, frame: &mut Activation, op: Op, loaded: u64) -> Result<Taken, AllocError>
    ensures answered { IsAnswered (λ f. with_two f.stack (λ p v rest. touched (cell_of (extents_in code.now.globals) p)
        (λ cell. Effect.Asks (Fold cell op (number_in v)) (λ t. onward rest f)))) loaded frame.old frame.new result }
    ensures fits { frame.old.at + 1 < 2 ^ 64 → IsOk result }
{
    match cell_of(code, value_below(frame.stack.as_slice(), 1)) {
        Some(_) => {
            pass(frame, 2)?;
            Ok(Taken::Went)
        }
        None => Ok(Taken::Went),
    }
}

/// Goes on in a function with the answer to what its instruction asks. A function that asks nothing, or whose
/// instruction fails, stays; so does one that calls, and this tells what it enters.
#[tactic(auto, using(crate::proofs::AnswerLemmas::stays))]
pub(crate) fn take_answer(
    code: &Code,
    frame: &mut Activation,
    instr: &Instr,
    loaded: u64,
) -> Result<Taken, AllocError>
    ensures { IsAnswered (λ f. effect code.now f instr.now) loaded frame.old frame.new result }
{
    match instr {
        Instr::Load => Ok(end_load(code, frame, loaded)?),
        Instr::Store(kind) => Ok(end_store(code, frame, *kind, loaded)?),
        Instr::Fold(op) => Ok(end_fold(code, frame, *op, loaded)?),
        Instr::Again(passed) => {
            go_back(frame, *passed)?;
            Ok(Taken::Went)
        }
        Instr::Tick | Instr::Wait | Instr::Begin => {
            advance(frame)?;
            Ok(Taken::Went)
        }
        Instr::Print { arguments, .. } => {
            pass(frame, *arguments as usize)?;
            Ok(Taken::Went)
        }
        Instr::Create(_) | Instr::WaitOn | Instr::Release => {
            end_directive(frame)?;
            Ok(Taken::Went)
        }
        Instr::Call {
            function,
            arguments,
        } => Ok(Taken::Enters(entry_of(code, *function), *arguments as usize)),
        Instr::Push(_)
        | Instr::Nothing
        | Instr::Local(_)
        | Instr::Address(_)
        | Instr::Row(_)
        | Instr::Element(_)
        | Instr::Move(_)
        | Instr::Prefix(_)
        | Instr::Apply(_)
        | Instr::Truth
        | Instr::Convert(_)
        | Instr::SetLocal(_, _)
        | Instr::Bind(_)
        | Instr::Keep(_)
        | Instr::Drop
        | Instr::Under
        | Instr::Swap
        | Instr::Skip(_)
        | Instr::SkipUnless(_)
        | Instr::Return
        | Instr::Section(_, _, _)
        | Instr::Turns(_)
        | Instr::Turn(_, _)
        | Instr::NextTurn(_)
        | Instr::EndTurns(_)
        | Instr::When
        | Instr::Final
        | Instr::Late
        | Instr::Priority
        | Instr::Spawn { .. } => Ok(Taken::Went),
    }
}
