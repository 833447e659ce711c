//! The passes of a turn.

ghost use Rattle.std.specs.Prelude.{ℕ, IfOk, OnOk};
ghost use Rattle.oss_core.specs.Cores.{kept_of, tasks_in};
ghost use Rattle.oss_core.specs.Kept.{IsRunning, Kept};
ghost use Rattle.oss_core.specs.Turns.{KeepsTasks};
ghost use Rattle.oss_wakeups.specs.Asides.{IsWatchBut, StoodAside};
ghost use Rattle.oss_prior.specs.Choosing.{KeepsBodies};
ghost use Rattle.oss_prior.specs.Turning.{HasMadePass, HasMadePasses};

use oss_code::Code;
use oss_core::Core;
use oss_deps::Deps;
use oss_wakeups::Watch;
use std::alloc::AllocError;

/// Makes a pass, and wakes those that waited for what it gives up. Says whether it gave anything up. Condition: each
/// task that may give something up is awake, while others stand aside. After out of memory the core is given up.
fn pass_once<D: Deps>(
    core: &mut Core<D>,
    code: &Code,
    watch: &mut Watch,
) -> Result<bool, AllocError>
    requires running { IsRunning code.now (kept_of D.seen core.old) }
    requires watch { (from : Kept) × (task : ℕ) ×
        IsWatchBut (StoodAside from task) (kept_of D.seen core.old) watch.old }
    ensures pass { IfOk result (λ some. HasMadePass code.now (kept_of D.seen core.old) (kept_of D.seen core.new)
        some) }
    ensures watch { OnOk result ((from : Kept) (task : ℕ) →
        IsWatchBut (StoodAside from task) (kept_of D.seen core.old) watch.old →
        IsWatchBut (StoodAside from task) (kept_of D.seen core.new) watch.new) }
    ensures keeps { OnOk result (KeepsTasks (tasks_in core.old) (tasks_in core.new)) }
    ensures bodies { OnOk result (KeepsBodies (kept_of D.seen core.old) (kept_of D.seen core.new)) }
{
    let passed = core.pass(code, watch.awake())?;
    watch.after_gifts(core, passed.as_slice())?;
    Ok(!passed.is_empty())
}

/// Makes passes until one gives nothing up, and wakes those that waited for what they give up. Condition: each task
/// that may give something up is awake, while others stand aside. After out of memory the core is given up.
pub(crate) fn pass_all<D: Deps>(
    core: &mut Core<D>,
    code: &Code,
    watch: &mut Watch,
) -> Result<(), AllocError>
    requires running { IsRunning code.now (kept_of D.seen core.old) }
    requires watch { (from : Kept) × (task : ℕ) ×
        IsWatchBut (StoodAside from task) (kept_of D.seen core.old) watch.old }
    ensures passes { OnOk result (HasMadePasses code.now (kept_of D.seen core.old) (kept_of D.seen core.new)) }
    ensures watch { OnOk result ((from : Kept) (task : ℕ) →
        IsWatchBut (StoodAside from task) (kept_of D.seen core.old) watch.old →
        IsWatchBut (StoodAside from task) (kept_of D.seen core.new) watch.new) }
    ensures keeps { OnOk result (KeepsTasks (tasks_in core.old) (tasks_in core.new)) }
    ensures bodies { OnOk result (KeepsBodies (kept_of D.seen core.old) (kept_of D.seen core.new)) }
{
    'passes: loop {
        if !pass_once(core, code, watch)? {
            return Ok(());
        }
    }
}
