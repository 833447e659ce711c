//! A wave and a pass, as one thread makes them.

ghost use Rattle.std.specs.Prelude.{◌≡◌, ◌≤◌, [], length, IfOk, OnOk};
ghost use Rattle.oss_body.specs.declared.body.Body.{Body as Kept};
ghost use Rattle.oss_core.specs.Awake.{HaveSteppers};
ghost use Rattle.oss_core.specs.Cores.{cells_in, kept_of, tasks_in};
ghost use Rattle.oss_core.specs.Kept.{IsRunning};
ghost use Rattle.oss_core.specs.Leaving.{WasWave};
ghost use Rattle.oss_core.specs.Passing.{HasPassed};
ghost use Rattle.oss_core.specs.Turns.{ArePartsOf, HasWaved, KeepsTasks};
ghost use Rattle.oss_model.specs.Order.{IsIn};
ghost use Rattle.oss_segment.specs.Segments.{IsKnown};
ghost use Rattle.oss_wakeups.specs.Watches.{HasNoLet, IsWatch};

use oss_code::Code;
use oss_core::{Core, Lent, Passed, Turn};
use oss_deps::Deps;
use oss_kept_tasks::BoxedBody;
use oss_model::TaskNo;
use oss_segment::{Ready, Segment};
use oss_wakeups::Watch;
use std::alloc::{AllocError, Global};

/// A task does so many ticks in one wave at most.
const QUOTA: u32 = 4096;

/// The part of each of these bodies, one after the other.
fn parts_of(
    alloc: Global,
    code: &Code,
    memory: &[u64],
    bodies: Vec<BoxedBody>,
) -> Result<Vec<Segment>, AllocError>
    requires known { (b : Kept) → IsIn b bodies.items → IsKnown code.now b }
    requires room { length memory.now ≤ 1048576 }
    ensures { IfOk result (λ parts. ArePartsOf code.now memory.now bodies.items parts.items) }
{
    let mut parts = Vec::new(alloc);
    for body in bodies {
        let ready = Ready { code, body };
        let part = ready.part(alloc, memory, QUOTA)?;
        parts.push(part)?;
    }
    Ok(parts)
}

/// Makes a wave: each task that may act makes its part, and those wake that waited for a task which has ended
/// in it. The answer tells how many acts each of them made. After want of memory core and watch are given up.
pub fn wave<D: Deps>(
    alloc: Global,
    core: &mut Core<D>,
    code: &Code,
    watch: &mut Watch,
    spares: &mut Vec<BoxedBody>,
) -> Result<Vec<Turn>, AllocError>
    requires running { IsRunning code.now (kept_of D.seen core.old) }
    requires watch { IsWatch (kept_of D.seen core.old) watch.old }
    requires cells { length code.now.first ≤ 1048576 }
    requires room { length (cells_in core.old) ≤ 1048576 }
    ensures waved { IfOk result (λ turns. HasWaved code.now (kept_of D.seen core.old) (kept_of D.seen core.new)
        turns.items) }
    ensures running { OnOk result (IsRunning code.now (kept_of D.seen core.new)) }
    ensures watch { OnOk result (IsWatch (kept_of D.seen core.new) watch.new) }
{
    let turns = bare_wave(alloc, core, code, watch.awake(), spares)?;
    watch.after_wave(core, turns.as_slice())?;
    Ok(turns)
}

/// Makes a wave of those of these tasks that may act.
fn bare_wave<D: Deps>(
    alloc: Global,
    core: &mut Core<D>,
    code: &Code,
    asked: &[TaskNo],
    spares: &mut Vec<BoxedBody>,
) -> Result<Vec<Turn>, AllocError>
    requires running { IsRunning code.now (kept_of D.seen core.old) }
    requires asked { HaveSteppers (kept_of D.seen core.old) asked.now }
    requires cells { length code.now.first ≤ 1048576 }
    requires room { length (cells_in core.old) ≤ 1048576 }
    ensures waved { IfOk result (λ turns. HasWaved code.now (kept_of D.seen core.old) (kept_of D.seen core.new)
        turns.items) }
    ensures turned { IfOk result (λ turns. WasWave turns.items (kept_of D.seen core.old) (kept_of D.seen core.new)) }
    ensures tasks { OnOk result (KeepsTasks (tasks_in core.old) (tasks_in core.new)) }
{
    let Lent { steppers, bodies } = core.begin_wave(code, asked, spares)?;
    let parts = parts_of(alloc, code, core.cells(), bodies)?;
    core.end_wave(steppers.as_slice(), parts, spares)
}

/// Makes a pass: each task gives up and joins what it may, and those wake that waited for it. The answer tells
/// of each run of cells that was given up; where it is empty, no task has a cell left that it may give up.
/// After want of memory core and watch are given up.
pub fn pass_once<D: Deps>(
    core: &mut Core<D>,
    code: &Code,
    watch: &mut Watch,
) -> Result<Vec<Passed>, AllocError>
    requires running { IsRunning code.now (kept_of D.seen core.old) }
    requires watch { IsWatch (kept_of D.seen core.old) watch.old }
    ensures passed { IfOk result (λ passed. HasPassed code.now (kept_of D.seen core.old)
        (kept_of D.seen core.new) passed.items) }
    ensures running { OnOk result (IsRunning code.now (kept_of D.seen core.new)) }
    ensures watch { OnOk result (IsWatch (kept_of D.seen core.new) watch.new) }
    ensures quiet { IfOk result (λ passed. passed.items ≡ [] → HasNoLet (kept_of D.seen core.new)) }
{
    let passed = core.pass(code, watch.awake())?;
    watch.after_pass(core, passed.as_slice())?;
    Ok(passed)
}
