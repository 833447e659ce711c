//! A turn: the steps of a task, and the passes behind them.

ghost use Rattle.std.specs.Prelude.{◌≡◌, ◌<◌, ◌↔◌, length, IsTrue, OnOk};
ghost use Rattle.oss_code.specs.declared.code.CodeParts.{CodeParts};
ghost use Rattle.oss_core.specs.Cores.{kept_of, tasks_in};
ghost use Rattle.oss_core.specs.Kept.{IsRunning};
ghost use Rattle.oss_core.specs.Turns.{KeepsTasks};
ghost use Rattle.oss_wakeups.specs.Asides.{IsSetAside, IsWatchBut, StoodAside};
ghost use Rattle.oss_wakeups.specs.Watches.{HasNoLet};
ghost use Rattle.oss_prior.specs.Choosing.{KeepsOthers};
ghost use Rattle.oss_prior.specs.Stepping.{HasNoted, MayBegin};
ghost use Rattle.oss_prior.specs.Turning.{HasMadeTurn};

use crate::passing::pass_all;
use crate::stepping::step_all;
use oss_code::Code;
use oss_core::Core;
use oss_deps::Deps;
use oss_io::Gate;
use oss_model::{Move, Point, TaskNo};
use oss_syntax::List;
use oss_wakeups::Watch;
use std::alloc::AllocError;

/// Whether the next step of a task is its first, and can be made. The core stays.
fn may_begin<D: Deps>(core: &mut Core<D>, task: TaskNo) -> bool
    requires running { (code : CodeParts) × IsRunning code (kept_of D.seen core.old) }
    requires there { task.0 < length (tasks_in core.old) }
    ensures may { IsTrue result ↔ MayBegin task.0 (kept_of D.seen core.old) }
    ensures same { kept_of D.seen core.new ≡ kept_of D.seen core.old }
{
    if core.begun(task) {
        return false;
    }
    core.enabled(&Move::Step(task))
}

/// Before the first step of a task the gate is passed with worker 0, and its point is noted behind the others. The
/// core stays.
fn begin<D: Deps, G: Gate>(
    core: &mut Core<D>,
    gate: &G,
    task: TaskNo,
    order: &mut List<Point>,
) -> Result<(), AllocError>
    requires running { (code : CodeParts) × IsRunning code (kept_of D.seen core.old) }
    requires there { task.0 < length (tasks_in core.old) }
    ensures noted { OnOk result (HasNoted task.0 (kept_of D.seen core.old) order.old order.new) }
    ensures same { kept_of D.seen core.new ≡ kept_of D.seen core.old }
{
    if may_begin(core, task) {
        let point = core.point(task).copy()?;
        gate.pass(0, point.as_slice());
        order.push(point)?;
    }
    Ok(())
}

/// A turn of a task: it makes steps as long as it can, and then what may be given up is given up, until a pass gives
/// nothing up. Its point is noted where it makes its first step. Condition: each task that can step stands
/// aside. After out of memory the core is given up.
pub(crate) fn turn<D: Deps, G: Gate>(
    core: &mut Core<D>,
    code: &Code,
    gate: &G,
    watch: &mut Watch,
    task: TaskNo,
    order: &mut List<Point>,
) -> Result<(), AllocError>
    requires running { IsRunning code.now (kept_of D.seen core.old) }
    requires watch { IsSetAside (kept_of D.seen core.old) watch.old }
    requires there { task.0 < length (tasks_in core.old) }
    ensures made { OnOk result (HasMadeTurn code.now task (kept_of D.seen core.old) (kept_of D.seen core.new)
        order.old order.new) }
    ensures watch { OnOk result (IsWatchBut (StoodAside (kept_of D.seen core.old) task.0) (kept_of D.seen core.new)
        watch.new) }
    ensures quiet { OnOk result (HasNoLet (kept_of D.seen core.new)) }
    ensures keeps { OnOk result (KeepsTasks (tasks_in core.old) (tasks_in core.new)) }
    ensures others { OnOk result (KeepsOthers task.0 (kept_of D.seen core.old) (kept_of D.seen core.new)) }
{
    begin(core, gate, task, order)?;
    step_all(core, code, watch, task)?;
    pass_all(core, code, watch)
}
