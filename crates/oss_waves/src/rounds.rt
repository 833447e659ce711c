//! Rounds: waves, each with the passes behind it.

ghost use Rattle.std.specs.Prelude.{◌≤◌, length, IfOk, OnOk};
ghost use Rattle.oss_core.specs.Cores.{cells_in, kept_of};
ghost use Rattle.oss_core.specs.Kept.{IsRunning};
ghost use Rattle.oss_wakeups.specs.Watches.{IsWatch};
ghost use Rattle.oss_waves.specs.Rounding.{HasMadeRounds, IsResting, IsRoundOf};

use crate::passing::pass_all;
use crate::team::Team;
use crate::waving::wave_once;
use oss_code::Code;
use oss_core::Core;
use oss_deps::Deps;
use oss_io::Gate;
use oss_kept_tasks::BoxedBody;
use oss_sched::TextMove;
use oss_syntax::List;
use oss_wakeups::Watch;
use std::alloc::{AllocError, Global};
use std::thread::Threads;

/// What came of a round.
#[derive(Clone, Copy)]
pub(crate) enum Went {
    /// No task may act.
    Stopped,
    /// So many tasks had a turn.
    On(u64),
}

/// What rounds did: the moves of each, and the most tasks that had a turn in one.
#[derive(Drop)]
pub(crate) struct Ran {
    pub(crate) waves: List<List<TextMove>>,
    pub(crate) widest: u64,
}

/// Makes a round, unless no task may act, and notes it. Conditions: each task that may do something is awake;
/// code and memory have at most 1,048,576 cells. After want of memory the core is given up.
fn round<R: Threads + Sync, D: Deps, G: Gate>(
    core: &mut Core<D>,
    code: &Code,
    team: &Team<'_, R, G>,
    watch: &mut Watch,
    spares: &mut Vec<BoxedBody>,
    lines: &mut List<TextMove>,
) -> Result<Went, AllocError>
    requires running { IsRunning code.now (kept_of D.seen core.old) }
    requires watch { IsWatch (kept_of D.seen core.old) watch.old }
    requires cells { length code.now.first ≤ 1048576 }
    requires room { length (cells_in core.old) ≤ 1048576 }
    ensures went { IfOk result (λ went. IsRoundOf went code.now (kept_of D.seen core.old)
        (kept_of D.seen core.new) lines.old lines.new) }
    ensures watch { OnOk result (IsWatch (kept_of D.seen core.new) watch.new) }
{
    let turns = wave_once(core, code, team, watch, spares, lines)?;
    if turns == 0 {
        return Ok(Went::Stopped);
    }
    pass_all(core, code, watch, lines)?;
    watch.rest(core)?;
    Ok(Went::On(turns))
}

/// Makes rounds until no move is left, and notes them. Conditions: no cell may be given up as yet, and no slot
/// joined; each task that may do something is awake; code and memory have at most 1,048,576 cells. After want
/// of memory the core is given up.
pub(crate) fn run_rounds<R: Threads + Sync, D: Deps, G: Gate>(
    alloc: Global,
    core: &mut Core<D>,
    code: &Code,
    team: &Team<'_, R, G>,
    watch: &mut Watch,
) -> Result<Ran, AllocError>
    requires resting { IsResting code.now (kept_of D.seen core.old) }
    requires watch { IsWatch (kept_of D.seen core.old) watch.old }
    requires cells { length code.now.first ≤ 1048576 }
    requires room { length (cells_in core.old) ≤ 1048576 }
    ensures { IfOk result (λ ran. HasMadeRounds code.now (kept_of D.seen core.old) (kept_of D.seen core.new) ran) }
{
    let mut spares = Vec::new(alloc);
    let mut waves = List::new(alloc);
    let mut widest = 0;
    'rounds: loop {
        let mut lines = List::new(alloc);
        match round(core, code, team, watch, &mut spares, &mut lines)? {
            Went::Stopped => return Ok(Ran { waves, widest }),
            Went::On(turns) => {
                waves.push(lines)?;
                widest = widest.max(turns);
            }
        }
    }
}
