//! What the function that runs does, and where it stands.
ghost use Rattle.std.specs.Prelude.{◌≡◌, IfOk, OnOk};
ghost use Rattle.oss_machine.specs.Activations.{Base, base_in, frame_on, no_base};
ghost use Rattle.oss_machine.specs.Asks.{meant_ask};
ghost use Rattle.oss_machine.specs.Runs.{base_above, base_at, config_in};
ghost use Rattle.oss_machine.specs.Slides.{IsToldAt, Slides, acted_at, ask_at};
ghost use Rattle.oss_machine.specs.Steps.{line_of};

use crate::activation::{Activation, Gathered};
use crate::ask::Ask;
use crate::instructions::act::act;
use crate::instructions::asks::ask_of;
use crate::outcome::Outcome;
use crate::running::body::{Run, Still};
use crate::running::entry::nothing_gathered;
use oss_code::Code;
use std::alloc::{AllocError, Global};

/// What the lowest function that has moved continues.
fn bottom(still: &Still, live: usize) -> &Gathered
    ensures { base_in result.now ≡ base_at still.now live }
{
    if live < still.callers.len() {
        let caller = &still.callers[live];
        &caller.gathered
    } else {
        &still.top.gathered
    }
}

/// What the function that runs continues; nothing where others wait below it that have moved.
fn base<'a>(still: &'a Still, run: &Run, nothing: &'a Gathered) -> &'a Gathered
    requires { base_in nothing.now ≡ no_base }
    ensures { base_in result.now ≡ base_above (base_at still.now run.now.live) run.now.waiting.items }
{
    if run.waiting.is_empty() {
        bottom(still, run.live)
    } else {
        nothing
    }
}

/// The line of a fault of the instruction at which a function stands.
#[tactic(auto, using(crate::proofs::GlobalLemmas::index_past, crate::proofs::GlobalLemmas::index_within))]
pub(crate) fn line_of(code: &Code, frame: &Activation) -> u32
    ensures { (base : Base) → result ≡ line_of code.now (frame_on base frame.now) }
{
    match frame.call_line {
        Some(line) => line,
        None => match code.line(frame.at) {
            Some(line) => line,
            None => 0,
        },
    }
}

/// Runs the instruction at which a function stands: the function goes on, or it stays and this tells why.
fn act_here(
    alloc: Global,
    code: &Code,
    base: &Gathered,
    frame: &mut Activation,
) -> Result<Outcome, AllocError>
    ensures { IfOk result (λ o. acted_at code.now (frame_on (base_in base.now) frame.old) ≡
        (frame_on (base_in base.now) frame.new, o)) }
{
    match code.get(frame.at) {
        Some(instr) => act(alloc, code, base, frame, instr),
        None => Ok(Outcome::Ends),
    }
}

/// Runs instructions as long as the function goes on. Where it stays, this tells why.
fn slide(
    alloc: Global,
    code: &Code,
    base: &Gathered,
    frame: &mut Activation,
) -> Result<Outcome, AllocError>
    ensures slides { OnOk result (Slides code.now (frame_on (base_in base.now) frame.old)
        (frame_on (base_in base.now) frame.new)) }
    ensures told { IfOk result (λ o. IsToldAt code.now (frame_on (base_in base.now) frame.new) o) }
{
    loop {
        match act_here(alloc, code, base, frame)? {
            Outcome::On => {}
            outcome => return Ok(outcome),
        }
    }
}

/// Runs instructions in the function that runs, as long as it goes on. Where it stays, this tells why.
pub(crate) fn slide_on(
    alloc: Global,
    code: &Code,
    still: &Still,
    run: &mut Run,
) -> Result<Outcome, AllocError>
    ensures slides { OnOk result (Slides code.now (config_in still.now run.old).frame
        (config_in still.now run.new).frame) }
    ensures told { IfOk result (λ o. IsToldAt code.now (config_in still.now run.new).frame o) }
    ensures rest { run.new ≡ record run.old { work = run.new.work } }
{
    let nothing = nothing_gathered(alloc);
    let base = base(still, run, &nothing);
    slide(alloc, code, base, &mut run.work)
}

/// What the instruction asks for at which the function that runs stands.
pub(crate) fn ask_here(
    alloc: Global,
    code: &Code,
    still: &Still,
    run: &Run,
) -> Result<Ask, AllocError>
    ensures { IfOk result (λ ask. meant_ask ask ≡ ask_at code.now (config_in still.now run.now).frame) }
{
    match code.get(run.work.at) {
        Some(instr) => {
            let nothing = nothing_gathered(alloc);
            let base = base(still, run, &nothing);
            ask_of(alloc, code, base, &run.work, instr)
        }
        None => Ok(Ask::End),
    }
}
