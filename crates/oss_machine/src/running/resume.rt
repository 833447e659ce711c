//! A body that goes on with the answer to its ask.
ghost use Rattle.std.specs.Prelude.{◌≡◌, ◌<◌, IfOk, OnOk, Some, slice_get};
ghost use Rattle.oss_machine.specs.Machines.{resumed, resumed_by};
ghost use Rattle.oss_machine.specs.Outcomes.{gone, gone_on};
ghost use Rattle.oss_machine.specs.Runs.{IsRun, config_in};
ghost use Rattle.oss_machine.specs.Steps.{after_effect, effect, line_of};

use crate::outcome::Taken;
use crate::running::answers::take_answer;
use crate::running::body::{Run, Still, TOO_MANY};
use crate::running::calls::enter;
use oss_code::{Code, Instr};
use std::alloc::{AllocError, Global};

/// The function that runs takes the answer to what its instruction asks.
fn take_on(
    code: &Code,
    still: &Still,
    run: &mut Run,
    instr: &Instr,
    loaded: u64,
) -> Result<Taken, AllocError>
    ensures gone { IfOk result (λ t. gone (effect code.now (config_in still.now run.old).frame instr.now) loaded
        (config_in still.now run.old).frame ≡ gone_on (config_in still.now run.new).frame t) }
    ensures rest { run.new ≡ record run.old { work = run.new.work } }
{
    take_answer(code, &mut run.work, instr, loaded)
}

/// Goes on with the answer to what an instruction asks.
fn go_on(
    alloc: Global,
    code: &Code,
    still: &Still,
    run: &mut Run,
    instr: &Instr,
    loaded: u64,
) -> Result<(), AllocError>
    requires run { IsRun still.now run.old }
    requires at { slice_get code.now.instrs run.old.work.at ≡ Some instr.now }
    requires few { run.old.open_count < 257 }
    ensures resumed { OnOk result (config_in still.now run.new ≡
        resumed_by (after_effect (effect code.now (config_in still.now run.old).frame instr.now)
        (line_of code.now (config_in still.now run.old).frame) (config_in still.now run.old)) loaded
        (config_in still.now run.old)) }
    ensures run { OnOk result (IsRun still.now run.new) }
{
    match take_on(code, still, run, instr, loaded)? {
        Taken::Went => Ok(()),
        Taken::Enters(entry, count) => {
            enter(alloc, code, still, run, entry, count, None)?;
            Ok(())
        }
    }
}

/// Goes on with the answer to the ask for which the body waits; without one it stays.
pub(crate) fn resume(
    alloc: Global,
    code: &Code,
    still: &Still,
    run: &mut Run,
    loaded: u64,
) -> Result<(), AllocError>
    requires { IsRun still.now run.old }
    ensures resumed { OnOk result (config_in still.now run.new ≡ resumed code.now loaded
        (config_in still.now run.old)) }
    ensures run { OnOk result (IsRun still.now run.new) }
{
    if TOO_MANY <= run.open_count {
        return Ok(());
    }
    match code.get(run.work.at) {
        Some(instr) => {
            go_on(alloc, code, still, run, instr, loaded)?;
            Ok(())
        }
        None => Ok(()),
    }
}
