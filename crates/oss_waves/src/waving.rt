//! A wave: the parts of all tasks that may act.

ghost use Rattle.std.specs.Prelude.{◌≤◌, length, IfOk, OnOk};
ghost use Rattle.oss_core.specs.Cores.{cells_in, kept_of, tasks_in};
ghost use Rattle.oss_core.specs.Kept.{IsRunning};
ghost use Rattle.oss_core.specs.Awake.{HaveSteppers};
ghost use Rattle.oss_core.specs.Leaving.{WasWave};
ghost use Rattle.oss_core.specs.Turns.{HasWaved, KeepsTasks};
ghost use Rattle.oss_wakeups.specs.Watches.{IsWatch};
ghost use Rattle.oss_waves.specs.Rounding.{HasMadeWave};

use crate::noting::note_turns;
use crate::parts::parts_of;
use crate::team::Team;
use oss_code::Code;
use oss_core::{Core, Lent, Turn};
use oss_deps::Deps;
use oss_io::Gate;
use oss_kept_tasks::BoxedBody;
use oss_model::TaskNo;
use oss_sched::TextMove;
use oss_syntax::List;
use oss_wakeups::Watch;
use std::alloc::AllocError;
use std::thread::Threads;

/// Makes a wave: the part of each of these tasks that may act, each over the memory at its beginning. The
/// answer tells how many acts each made. Conditions: the list has each task that may act, in point order; code
/// and memory have at most 1,048,576 cells. After want of memory the core is given up.
fn wave<R: Threads + Sync, D: Deps, G: Gate>(
    core: &mut Core<D>,
    code: &Code,
    team: &Team<'_, R, G>,
    asked: &[TaskNo],
    spares: &mut Vec<BoxedBody>,
) -> Result<Vec<Turn>, AllocError>
    requires running { IsRunning code.now (kept_of D.seen core.old) }
    requires asked { HaveSteppers (kept_of D.seen core.old) asked.now }
    requires cells { length code.now.first ≤ 1048576 }
    requires room { length (cells_in core.old) ≤ 1048576 }
    ensures waved { IfOk result (λ turns. HasWaved code.now (kept_of D.seen core.old) (kept_of D.seen core.new)
        turns.items) }
    ensures turned { IfOk result (λ turns. WasWave turns.items (kept_of D.seen core.old) (kept_of D.seen core.new)) }
    ensures tasks { OnOk result (KeepsTasks (tasks_in core.old) (tasks_in core.new)) }
{
    let Lent { steppers, bodies } = core.begin_wave(code, asked, spares)?;
    let parts = parts_of(team, code, core.cells(), bodies)?;
    core.end_wave(steppers.as_slice(), parts, spares)
}

/// Makes a wave, notes it, and wakes those that waited for a task that has ended in it. The answer is how many
/// tasks had a turn. Conditions: code and memory have at most 1,048,576 cells; each task that may act is awake.
/// After want of memory the core is given up.
pub(crate) fn wave_once<R: Threads + Sync, D: Deps, G: Gate>(
    core: &mut Core<D>,
    code: &Code,
    team: &Team<'_, R, G>,
    watch: &mut Watch,
    spares: &mut Vec<BoxedBody>,
    lines: &mut List<TextMove>,
) -> Result<u64, AllocError>
    requires running { IsRunning code.now (kept_of D.seen core.old) }
    requires watch { IsWatch (kept_of D.seen core.old) watch.old }
    requires cells { length code.now.first ≤ 1048576 }
    requires room { length (cells_in core.old) ≤ 1048576 }
    ensures wave { IfOk result (λ count. HasMadeWave code.now (kept_of D.seen core.old)
        (kept_of D.seen core.new) lines.old lines.new count) }
    ensures watch { OnOk result (IsWatch (kept_of D.seen core.new) watch.new) }
{
    let turns = wave(core, code, team, watch.awake(), spares)?;
    note_turns(core, turns.as_slice(), lines)?;
    watch.after_wave(core, turns.as_slice())?;
    Ok(turns.len() as u64)
}
