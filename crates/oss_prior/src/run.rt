//! A run by one worker.

ghost use Rattle.std.specs.Prelude.{◌≡◌, ◌≤◌, ◌<◌, ◌^◌, [], false, ℕ, length, IfOk, List as Items};
ghost use Rattle.oss_code.specs.declared.code.CodeParts.{CodeParts};
ghost use Rattle.oss_core.specs.Cores.{kept_of, tasks_in};
ghost use Rattle.oss_core.specs.Kept.{IsCore};
ghost use Rattle.oss_machine.specs.Frames.{CodeScript};
ghost use Rattle.oss_machine.specs.Machines.{asks};
ghost use Rattle.oss_model.specs.Answers.{IsAnswer};
ghost use Rattle.oss_model.specs.Bodies.{Start};
ghost use Rattle.oss_model.specs.Machine.{State};
ghost use Rattle.oss_prior.specs.SingleRuns.{IsFinal, IsSingleRun};

use crate::turns::take_turns;
use oss_code::Code;
use oss_core::Core;
use oss_deps::Deps;
use oss_io::Gate;
use oss_model::{Answer, Point};
use oss_syntax::List;
use std::alloc::{AllocError, Global};

/// What a run by one worker gives.
#[derive(Drop)]
pub struct SingleRun {
    /// The output and the cells at its end, or the fault that stopped it with the output before it.
    pub answer: Answer,
    /// The points of the tasks in the order of their first steps.
    pub order: List<Point>,
    /// How many tasks there were: main and each that was created and not included. The count stays at its greatest
    /// value.
    pub tasks: u64,
}

/// Runs a code by one worker, in turns. In a turn one task makes steps as long as it can; then what may be given up
/// is given up. The next turn is that of the successor of greatest priority: of a task that waited when the turn
/// began and can step now; without one, that of the task of greatest priority that can step. Among equals the least
/// point decides. The first turn is main's. Each task has fuel for so many ticks, and passes the gate with worker 0
/// directly before its first step. Out of memory is the one error. It waits for nobody. Conditions: the code has at
/// most 1,048,576 cells; in the dependency system no task is open and no cell given up.
pub fn single<D: Deps, G: Gate>(
    alloc: Global,
    code: &Code,
    fuel: u32,
    deps: D,
    gate: &G,
) -> Result<SingleRun, AllocError>
    requires cells { length code.now.first ≤ 1048576 }
    requires opens { (D.seen deps).opens ≡ [] }
    requires given { (t c : ℕ) → (D.seen deps).given t c ≡ false }
    ensures { IfOk result (λ run. IsSingleRun code.now fuel run.answer run.order run.tasks) }
{
    let mut core = Core::new(alloc, code, fuel, deps)?;
    let order = take_turns(alloc, &mut core, code, gate)?;
    finish(core, order)
}

/// What the run gives. Condition: no move is left.
fn finish<D: Deps>(core: Core<D>, order: List<Point>) -> Result<SingleRun, AllocError>
    requires { (code : CodeParts) × IsFinal code (kept_of D.seen core) }
    ensures answer { IfOk result (λ run. (code : CodeParts) (main : Start CodeScript) (first : Items ℕ)
        (s : State CodeScript) → IsCore code main first (kept_of D.seen core) s → IsAnswer (asks code) s run.answer) }
    ensures order { IfOk result (λ run. run.order ≡ order) }
    ensures tasks { IfOk result (λ run. run.tasks ≡ length (tasks_in core)) }
    ensures few { IfOk result (λ run. length (tasks_in core) < 2 ^ 64) }
{
    let mut core = core;
    let answer = match core.answer()? {
        Some(answer) => answer,
        None => unreachable!(),
    };
    let tasks = core.count();
    Ok(SingleRun {
        answer,
        order,
        tasks,
    })
}
