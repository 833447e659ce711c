//! What an instruction asks for.
ghost use Rattle.oss_machine.specs.Activations.{base_in};
ghost use Rattle.oss_machine.specs.Outcomes.{IsAsked};
ghost use Rattle.oss_machine.specs.Steps.{effect};

use crate::activation::{Activation, Gathered};
use crate::ask::Ask;
use crate::instructions::cells::{fold, load, store};
use crate::instructions::directives::{create, release, wait_on};
use crate::instructions::print::print;
use oss_code::{Code, Instr};
use std::alloc::{AllocError, Global};

/// What an instruction asks for; the end where it asks nothing.
#[tactic(auto, using(crate::proofs::AskLemmas::asks_nothing))]
pub(crate) fn ask_of(
    alloc: Global,
    code: &Code,
    base: &Gathered,
    frame: &Activation,
    instr: &Instr,
) -> Result<Ask, AllocError>
    ensures { IsAsked (base_in base.now) (λ f. effect code.now f instr.now) frame.now result }
{
    match instr {
        Instr::Load => Ok(load(code, frame)),
        Instr::Store(kind) => Ok(store(code, frame, *kind)),
        Instr::Fold(op) => Ok(fold(code, frame, *op)),
        Instr::Again(_) => Ok(Ask::Tick),
        Instr::Tick => Ok(Ask::Tick),
        Instr::Call { .. } => Ok(Ask::Tick),
        Instr::Print { pieces, arguments } => print(alloc, frame, pieces.as_slice(), *arguments),
        Instr::Wait => Ok(Ask::Wait),
        Instr::Begin => Ok(Ask::Begin),
        Instr::Create(passed) => create(alloc, base, frame, *passed),
        Instr::WaitOn => wait_on(alloc, base, frame),
        Instr::Release => release(alloc, base, frame),
        Instr::Push(_)
        | Instr::Nothing
        | Instr::Local(_)
        | Instr::Address(_)
        | Instr::Row(_)
        | Instr::Element(_)
        | Instr::Move(_)
        | Instr::Prefix(_)
        | Instr::Apply(_)
        | Instr::Truth
        | Instr::Convert(_)
        | Instr::SetLocal(_, _)
        | Instr::Bind(_)
        | Instr::Keep(_)
        | Instr::Drop
        | Instr::Under
        | Instr::Swap
        | Instr::Skip(_)
        | Instr::SkipUnless(_)
        | Instr::Return
        | Instr::Section(_, _, _)
        | Instr::Turns(_)
        | Instr::Turn(_, _)
        | Instr::NextTurn(_)
        | Instr::EndTurns(_)
        | Instr::When
        | Instr::Final
        | Instr::Late
        | Instr::Priority
        | Instr::Spawn { .. } => Ok(Ask::End),
    }
}
