//! A run by waves.

ghost use Rattle.std.specs.Prelude.{◌≡◌, ◌≤◌, ◌<◌, ◌^◌, [], false, ℕ, length, IfOk, List as Items};
ghost use Rattle.oss_code.specs.declared.code.CodeParts.{CodeParts};
ghost use Rattle.oss_core.specs.Cores.{kept_of, tasks_in};
ghost use Rattle.oss_core.specs.Kept.{IsCore};
ghost use Rattle.oss_machine.specs.Frames.{CodeScript};
ghost use Rattle.oss_machine.specs.Machines.{asks};
ghost use Rattle.oss_model.specs.Answers.{IsAnswer};
ghost use Rattle.oss_model.specs.Bodies.{Start};
ghost use Rattle.oss_model.specs.Machine.{State};
ghost use Rattle.oss_waves.specs.Rounding.{IsFinal};
ghost use Rattle.oss_waves.specs.WaveRuns.{IsWaveRun};

use crate::rounds::{Ran, run_rounds};
use crate::team::Team;
use oss_code::Code;
use oss_core::Core;
use oss_deps::Deps;
use oss_io::Gate;
use oss_model::Answer;
use oss_sched::WaveRecord;
use oss_wakeups::Watch;
use std::alloc::{AllocError, Global};
use std::thread::Threads;

/// What a run by waves gives.
#[derive(Drop)]
pub struct WaveRun<D: Deps> {
    /// The output and the cells at its end, or the fault that stopped it with the output before it.
    pub answer: Answer,
    /// The moves of each wave and the passes behind it, how many tasks there were, and the most that stepped in
    /// one wave.
    pub waves: WaveRecord,
    /// The dependency system, as the moves have left it.
    pub deps: D,
}

/// Runs a code by waves: in each, all tasks that may act do their parts, by at most so many workers, and then
/// what may be given up is given up, until no move is left. Each task has fuel for so many ticks, and passes
/// the gate before its first step. Answer and record are the same for each number of workers. Want of memory is
/// the one error. Conditions: the code has at most 1,048,576 cells; in the dependency system no task is open
/// and no cell given up; there is a worker.
pub fn waves<R: Threads + Sync, D: Deps, G: Gate>(
    rt: &R,
    alloc: Global,
    code: &Code,
    fuel: u32,
    deps: D,
    workers: u32,
    gate: &G,
) -> Result<WaveRun<D>, AllocError>
    requires cells { length code.now.first ≤ 1048576 }
    requires opens { (D.seen deps).opens ≡ [] }
    requires given { (t c : ℕ) → (D.seen deps).given t c ≡ false }
    requires workers { 0 < workers }
    ensures { IfOk result (λ run. IsWaveRun code.now fuel (D.seen run.deps) run.answer run.waves) }
{
    let mut core = Core::new(alloc, code, fuel, deps)?;
    let team = Team {
        rt,
        alloc,
        gate,
        workers,
    };
    let mut watch = Watch::new(alloc, &core)?;
    let ran = run_rounds(alloc, &mut core, code, &team, &mut watch)?;
    finish(core, ran)
}

/// What the run gives. Condition: no move is left.
fn finish<D: Deps>(core: Core<D>, ran: Ran) -> Result<WaveRun<D>, AllocError>
    requires { (code : CodeParts) × IsFinal code (kept_of D.seen core) }
    ensures answer { IfOk result (λ run. (code : CodeParts) (main : Start CodeScript) (first : Items ℕ)
        (s : State CodeScript) → IsCore code main first (kept_of D.seen core) s → IsAnswer (asks code) s run.answer) }
    ensures waves { IfOk result (λ run. run.waves ≡ record {
      waves = ran.waves;
      tasks = length (tasks_in core);
      widest = ran.widest;
    }) }
    ensures few { IfOk result (λ run. length (tasks_in core) < 2 ^ 64) }
    ensures deps { IfOk result (λ run. D.seen run.deps ≡ D.seen core.deps) }
{
    let mut core = core;
    let Ran { waves, widest } = ran;
    let answer = match core.answer()? {
        Some(answer) => answer,
        None => unreachable!(),
    };
    let tasks = core.count();
    Ok(WaveRun {
        answer,
        waves: WaveRecord {
            waves,
            tasks,
            widest,
        },
        deps: core.into_deps(),
    })
}
