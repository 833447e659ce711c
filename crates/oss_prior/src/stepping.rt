//! The steps of a turn.

ghost use Rattle.std.specs.Prelude.{◌≡◌, ◌<◌, ℕ, length, IfOk, OnOk};
ghost use Rattle.oss_core.specs.Cores.{kept_of, tasks_in};
ghost use Rattle.oss_core.specs.Kept.{IsRunning};
ghost use Rattle.oss_core.specs.Turns.{KeepsTasks};
ghost use Rattle.oss_wakeups.specs.Asides.{CanAct, IsSetAside, IsWatchBut, StoodAside};
ghost use Rattle.oss_prior.specs.Choosing.{KeepsOthers};
ghost use Rattle.oss_prior.specs.Stepping.{HaveStepsLeft};
ghost use Rattle.oss_prior.specs.Turning.{HasMadeSteps};

use oss_code::Code;
use oss_core::{Core, Turn};
use oss_deps::Deps;
use oss_model::TaskNo;
use oss_wakeups::Watch;
use std::alloc::AllocError;

/// A task makes steps as long as it can. The answer tells how many; the count stays at its greatest value. After
/// out of memory the core is given up.
fn steps<D: Deps>(core: &mut Core<D>, code: &Code, task: TaskNo) -> Result<u64, AllocError>
    requires running { IsRunning code.now (kept_of D.seen core.old) }
    requires there { task.0 < length (tasks_in core.old) }
    ensures made { IfOk result (λ acts. HasMadeSteps code.now task (kept_of D.seen core.old) (kept_of D.seen
        core.new) acts) }
    ensures left { IfOk result (λ acts. HaveStepsLeft task.0 acts (kept_of D.seen core.old) (kept_of D.seen
        core.new)) }
    ensures idle { IfOk result (λ acts. acts ≡ 0 → CanAct (kept_of D.seen core.old) task.0 → ⊥) }
{
    let mut acts: u64 = 0;
    'steps: loop {
        if !core.act(code, task)? {
            return Ok(acts);
        }
        acts = acts.saturating_add(1);
    }
}

/// A task makes steps as long as it can; then it is awake, and so are those that waited for its end. Condition: each
/// task that can step stands aside. After out of memory the core is given up.
pub(crate) fn step_all<D: Deps>(
    core: &mut Core<D>,
    code: &Code,
    watch: &mut Watch,
    task: TaskNo,
) -> Result<(), AllocError>
    requires running { IsRunning code.now (kept_of D.seen core.old) }
    requires watch { IsSetAside (kept_of D.seen core.old) watch.old }
    requires there { task.0 < length (tasks_in core.old) }
    ensures made { OnOk result ((acts : ℕ) × HasMadeSteps code.now task (kept_of D.seen core.old) (kept_of D.seen
        core.new) acts) }
    ensures watch { OnOk result (IsWatchBut (StoodAside (kept_of D.seen core.old) task.0) (kept_of D.seen core.new)
        watch.new) }
    ensures keeps { OnOk result (KeepsTasks (tasks_in core.old) (tasks_in core.new)) }
    ensures others { OnOk result (KeepsOthers task.0 (kept_of D.seen core.old) (kept_of D.seen core.new)) }
{
    let acts = steps(core, code, task)?;
    if acts == 0 {
        return Ok(());
    }
    watch.after_turn(core, Turn { task, acts })
}
