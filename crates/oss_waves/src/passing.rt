//! The passes behind a wave.

ghost use Rattle.std.specs.Prelude.{IfOk, OnOk};
ghost use Rattle.oss_core.specs.Cores.{kept_of};
ghost use Rattle.oss_core.specs.Kept.{IsRunning};
ghost use Rattle.oss_wakeups.specs.Watches.{IsWatch};
ghost use Rattle.oss_waves.specs.Rounding.{HasMadePass, HasMadePasses};

use crate::noting::note_passed;
use oss_code::Code;
use oss_core::Core;
use oss_deps::Deps;
use oss_sched::TextMove;
use oss_syntax::List;
use oss_wakeups::Watch;
use std::alloc::AllocError;

/// Makes a pass, notes what it gives up, and wakes those that waited for it. Says whether it gave anything up.
/// Condition: each task that may give something up is awake. After want of memory the core is given up.
fn pass_once<D: Deps>(
    core: &mut Core<D>,
    code: &Code,
    watch: &mut Watch,
    lines: &mut List<TextMove>,
) -> Result<bool, AllocError>
    requires running { IsRunning code.now (kept_of D.seen core.old) }
    requires watch { IsWatch (kept_of D.seen core.old) watch.old }
    ensures pass { IfOk result (λ some. HasMadePass code.now (kept_of D.seen core.old) (kept_of D.seen core.new)
        lines.old lines.new some) }
    ensures watch { OnOk result (IsWatch (kept_of D.seen core.new) watch.new) }
{
    let passed = core.pass(code, watch.awake())?;
    note_passed(core, passed.as_slice(), lines)?;
    watch.after_pass(core, passed.as_slice())?;
    Ok(!passed.is_empty())
}

/// Makes passes until one gives nothing up, notes what they give up, and wakes those that waited for it.
/// Condition: each task that may give something up is awake. After want of memory the core is given up.
pub(crate) fn pass_all<D: Deps>(
    core: &mut Core<D>,
    code: &Code,
    watch: &mut Watch,
    lines: &mut List<TextMove>,
) -> Result<(), AllocError>
    requires running { IsRunning code.now (kept_of D.seen core.old) }
    requires watch { IsWatch (kept_of D.seen core.old) watch.old }
    ensures passes { OnOk result (HasMadePasses code.now (kept_of D.seen core.old) (kept_of D.seen core.new)
        lines.old lines.new) }
    ensures watch { OnOk result (IsWatch (kept_of D.seen core.new) watch.new) }
{
    'passes: loop {
        if !pass_once(core, code, watch, lines)? {
            return Ok(());
        }
    }
}
