//! Turns, one after the other.

ghost use Rattle.std.specs.Prelude.{◌≡◌, ◌<◌, length, IfOk, OnOk};
ghost use Rattle.oss_code.specs.declared.code.CodeParts.{CodeParts};
ghost use Rattle.oss_core.specs.Cores.{kept_of, tasks_in};
ghost use Rattle.oss_core.specs.Kept.{IsRunning};
ghost use Rattle.oss_core.specs.Turns.{KeepsTasks};
ghost use Rattle.oss_wakeups.specs.Asides.{IsSetAside};
ghost use Rattle.oss_wakeups.specs.Watches.{HasNoLet, IsWatch};
ghost use Rattle.oss_prior.specs.Choosing.{AreReady};
ghost use Rattle.oss_prior.specs.Turning.{HasMadeTurns, HasTakenTurn};

use crate::choosing::{Before, admit, next_of, ready_of, successors_of};
use crate::ready::{Ready, take_out};
use crate::turning::turn;
use oss_code::Code;
use oss_core::Core;
use oss_deps::Deps;
use oss_io::Gate;
use oss_model::{Point, TaskNo};
use oss_syntax::List;
use oss_wakeups::Watch;
use std::alloc::{AllocError, Global};
use std::collections::BTreeSet;

/// A turn of a task. The answer is whose the next turn is; `None` if no task can step. Conditions: each task that can
/// step stands aside; the queue has just these tasks, and after the call again. After out of memory the core is given
/// up.
fn take_turn<D: Deps, G: Gate>(
    alloc: Global,
    core: &mut Core<D>,
    code: &Code,
    gate: &G,
    watch: &mut Watch,
    queue: &mut BTreeSet<Ready>,
    task: TaskNo,
    order: &mut List<Point>,
) -> Result<Option<TaskNo>, AllocError>
    requires running { IsRunning code.now (kept_of D.seen core.old) }
    requires watch { IsSetAside (kept_of D.seen core.old) watch.old }
    requires queue { AreReady (kept_of D.seen core.old) queue.old }
    requires there { task.0 < length (tasks_in core.old) }
    ensures taken { IfOk result (λ next. HasTakenTurn code.now task (kept_of D.seen core.old) (kept_of D.seen
        core.new) order.old order.new next) }
    ensures watch { OnOk result (IsSetAside (kept_of D.seen core.new) watch.new) }
    ensures queue { OnOk result (AreReady (kept_of D.seen core.new) queue.new) }
    ensures keeps { OnOk result (KeepsTasks (tasks_in core.old) (tasks_in core.new)) }
{
    let own = ready_of(core, task)?;
    let count = core.count();
    let able = take_out(queue, &own);
    drop(own);
    turn(core, code, gate, watch, task, order)?;
    let free = watch.set_aside(core)?;
    let before = Before { count, task, able };
    let successors = successors_of(alloc, core, before, queue, free.as_slice())?;
    admit(core, queue, free.as_slice())?;
    Ok(next_of(&successors, queue))
}

/// The tasks that can step at the beginning, which stand aside from then on.
fn first_queue<D: Deps>(
    alloc: Global,
    core: &mut Core<D>,
    watch: &mut Watch,
) -> Result<BTreeSet<Ready>, AllocError>
    requires running { (code : CodeParts) × IsRunning code (kept_of D.seen core.old) }
    requires watch { IsWatch (kept_of D.seen core.old) watch.old }
    requires quiet { HasNoLet (kept_of D.seen core.old) }
    ensures watch { OnOk result (IsSetAside (kept_of D.seen core.new) watch.new) }
    ensures queue { IfOk result (λ queue. AreReady (kept_of D.seen core.new) queue) }
    ensures same { OnOk result (kept_of D.seen core.new ≡ kept_of D.seen core.old) }
{
    let free = watch.set_aside(core)?;
    let mut queue = BTreeSet::new(alloc);
    admit(core, &mut queue, free.as_slice())?;
    Ok(queue)
}

/// Makes turns until no task can step. The answer has the points of the tasks in the order of their first steps.
/// Condition: no cell may be given up. After out of memory the core is given up.
pub(crate) fn take_turns<D: Deps, G: Gate>(
    alloc: Global,
    core: &mut Core<D>,
    code: &Code,
    gate: &G,
) -> Result<List<Point>, AllocError>
    requires running { IsRunning code.now (kept_of D.seen core.old) }
    requires quiet { HasNoLet (kept_of D.seen core.old) }
    ensures { IfOk result (λ order. HasMadeTurns code.now (kept_of D.seen core.old) (kept_of D.seen core.new)
        order) }
{
    let mut watch = Watch::new(alloc, core)?;
    let mut queue = first_queue(alloc, core, &mut watch)?;
    let mut order = List::new(alloc);
    let mut next = take_turn(
        alloc,
        core,
        code,
        gate,
        &mut watch,
        &mut queue,
        TaskNo(0),
        &mut order,
    )?;
    'turns: while let Some(task) = next {
        next = take_turn(
            alloc, core, code, gate, &mut watch, &mut queue, task, &mut order,
        )?;
    }
    Ok(order)
}
