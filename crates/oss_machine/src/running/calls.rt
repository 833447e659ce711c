//! Functions that are entered and left by a body.
ghost use Rattle.std.specs.Prelude.{◌≡◌, ◌∷◌, [], ◌+◌, ◌<◌, ◌≤◌, OnOk, drop, length, reverse, slice_index_or, take};
ghost use Rattle.oss_machine.specs.Activations.{Base, frame_on, no_base};
ghost use Rattle.oss_machine.specs.Frames.{counted, first_frame};
ghost use Rattle.oss_machine.specs.Runs.{base_above, base_at, config_in};
ghost use Rattle.oss_machine.specs.Steps.{onward, with_stack};

use crate::activation::Activation;
use crate::instructions::stack::{arguments, lower, put};
use crate::running::body::{Run, Still};
use crate::running::entry::{continue_from, first_activation};
use oss_code::Code;
use oss_meaning::Value;
use std::alloc::{AllocError, Global};
use std::mem;

/// One for a function, and none for a creation at the call of a task function.
pub(crate) fn count_of(call_line: Option<u32>) -> usize
    ensures { result ≡ counted call_line }
{
    match call_line {
        None => 1,
        Some(_) => 0,
    }
}

/// Takes so many arguments from the function that runs.
fn without_arguments(frame: &mut Activation, count: usize)
    ensures { (base : Base) → frame_on base frame.new ≡ with_stack (drop count (frame_on base frame.old).stack)
        (frame_on base frame.old) }
{
    lower(&mut frame.stack, count);
}

/// Enters a function, or a creation with the line of its call, with so many of the values as its arguments. The
/// function that ran waits for it.
#[tactic(auto, using(crate::proofs::RunLemmas::stacked_push))]
pub(crate) fn enter(
    alloc: Global,
    code: &Code,
    still: &Still,
    run: &mut Run,
    entry: usize,
    count: usize,
    call_line: Option<u32>,
) -> Result<(), AllocError>
    requires { run.old.open_count < 1000 }
    ensures frame { OnOk result ((config_in still.now run.new).frame ≡ first_frame call_line entry
        (reverse (take count (config_in still.now run.old).frame.stack))) }
    ensures callers { OnOk result ((config_in still.now run.new).callers ≡
        with_stack (drop count (config_in still.now run.old).frame.stack) (config_in still.now run.old).frame ∷
        (config_in still.now run.old).callers) }
    ensures live { OnOk result (run.new.live ≡ run.old.live) }
    ensures open { OnOk result (run.new.open_count ≡ run.old.open_count + counted call_line) }
{
    let room = code.deepest();
    let next = first_activation(
        alloc,
        call_line,
        entry,
        arguments(run.work.stack.as_slice(), count),
        room,
    )?;
    without_arguments(&mut run.work, count);
    let caller = mem::replace(&mut run.work, next);
    run.waiting.push(caller)?;
    run.open_count += count_of(call_line);
    Ok(())
}

/// Gives a value to a function that waits and has moved, which goes on behind its call.
#[tactic(auto, using(crate::proofs::RunLemmas::stacked_push))]
pub(crate) fn give_moved(
    still: &Still,
    run: &mut Run,
    caller: Activation,
    value: Value,
) -> Result<(), AllocError>
    ensures given { OnOk result (config_in still.now run.new ≡
        record {
          frame = onward (value ∷ (frame_on (base_above (base_at still.now run.old.live)
              run.old.waiting.items) caller).stack) (frame_on
              (base_above (base_at still.now run.old.live) run.old.waiting.items) caller);
          callers = (config_in still.now run.old).callers;
        }) }
    ensures rest { run.new ≡ record run.old { work = run.new.work } }
{
    run.work = caller;
    put(&mut run.work, 0, value)
}

/// Gives a value to the newest caller that waits as it stood, which goes on behind its call.
#[tactic(auto, using(crate::proofs::RunLemmas::live_more))]
pub(crate) fn give_live(still: &Still, run: &mut Run, value: Value) -> Result<(), AllocError>
    requires some { 0 < run.old.live }
    requires live { run.old.live ≤ length still.now.callers.items }
    requires alone { run.old.waiting.items ≡ [] }
    ensures callers { OnOk result ((config_in still.now run.old).callers ≡ frame_on no_base
        (slice_index_or still.now.callers.items run.new.live still.now.top) ∷ (config_in still.now run.new).callers) }
    ensures frame { OnOk result ((config_in still.now run.new).frame ≡
        onward (value ∷ (frame_on no_base (slice_index_or still.now.callers.items run.new.live
        still.now.top)).stack) (frame_on no_base (slice_index_or still.now.callers.items run.new.live still.now.top))) }
    ensures live { OnOk result (run.new.live + 1 ≡ run.old.live) }
    ensures open { run.new.open_count ≡ run.old.open_count }
{
    run.live -= 1;
    let caller = &still.callers[run.live];
    continue_from(&mut run.work, caller)?;
    put(&mut run.work, 0, value)
}
