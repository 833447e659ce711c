//! The audit of a code.

ghost use Rattle.std.specs.Prelude.{◌≡◌, ◌≤◌, length, IfOk};
ghost use Rattle.oss_audit.specs.Audits.{IsAuditOf};
ghost use Rattle.oss_audit.specs.Auditing.{IsAuditing, IsEndAudited, IsFinished};

use crate::unused::{AuditRun, Unused};
use crate::watch::Watch;
use oss_code::Code;
use oss_model::{Answer, FaultKind};
use oss_serial::{Ran, Stage, Turned, begin};
use oss_syntax::List;
use std::alloc::{AllocError, Global};

/// How a run comes to its end.
#[derive(Clone, Copy)]
enum End {
    /// Main has ended.
    Done,
    /// A fault stopped it, on this line.
    Fault(FaultKind, u32),
}

/// Runs a code sequentially, each task with fuel for so many ticks, and tells which cells the clauses of a task
/// name that neither it nor a task below it touches (OmpSs-2, the task directive and its dependency clauses): a
/// touch is a load, a store or a fold. The answer is that of the sequential run, and the list is exact where
/// the run comes to its end; want of memory is the one other answer. A touch costs what the logarithm of the
/// ranges costs that its task has touched, and the end of a task what its ranges do. Condition: the code has at
/// most 1,048,576 cells.
pub fn audit(alloc: Global, code: &Code, fuel: u32) -> Result<AuditRun, AllocError>
    requires { length code.now.first ≤ 1048576 }
    ensures { IfOk result (λ run. IsAuditOf code.now fuel run) }
{
    let watch = Watch::new(alloc)?;
    match begin(alloc, code, fuel) {
        Ok(stage) => audit_from(alloc, code, fuel, stage, watch),
        Err(error) => Err(error),
    }
}

/// The audit from the beginning of the run on.
fn audit_from(
    alloc: Global,
    code: &Code,
    fuel: u32,
    mut stage: Stage,
    mut watch: Watch,
) -> Result<AuditRun, AllocError>
    requires { IsAuditing code.now fuel stage watch }
    ensures { IfOk result (λ run. IsAuditOf code.now fuel run) }
{
    let end = follow(code, fuel, &mut stage, &mut watch);
    finish(alloc, end, stage, watch.told())
}

/// Follows the run to its end.
fn follow(code: &Code, fuel: u32, stage: &mut Stage, watch: &mut Watch) -> Result<End, AllocError>
    requires { IsAuditing code.now fuel stage.old watch.old }
    ensures { IfOk result (λ end. IsEndAudited code.now fuel stage.new watch.new end) }
{
    'turns: loop {
        watch.note(stage.current.pending())?;
        match stage.turn(code)? {
            Turned::On => {}
            Turned::Ended => return Ok(End::Done),
            Turned::Failed(kind, line) => return Ok(End::Fault(kind, line)),
        }
    }
}

/// What is told of a run that has come to an end so, at this stage, where this is told of its tasks.
fn finish(
    alloc: Global,
    end: Result<End, AllocError>,
    stage: Stage,
    told: List<Unused>,
) -> Result<AuditRun, AllocError>
    ensures { IfOk result (λ run. IsFinished end stage told run) }
{
    match end {
        Ok(End::Done) => Ok(AuditRun {
            answer: answer_of(stage.done()),
            unused: told,
        }),
        Ok(End::Fault(kind, line)) => Ok(AuditRun {
            answer: answer_of(stage.failed(kind, line)),
            unused: List::new(alloc),
        }),
        Err(error) => Err(error),
    }
}

/// The answer of a run.
fn answer_of(ran: Ran) -> Answer
    ensures { result ≡ ran.answer }
{
    let Ran { answer, .. } = ran;
    answer
}
