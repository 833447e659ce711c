//! The way of the free run, act by act.

ghost use Rattle.std.specs.Prelude.{◌≡◌, ◌≤◌, length, IfOk, OnOk};
ghost use Rattle.oss_lacks.specs.Beside.{IsBeside, IsEnded, IsFinished, IsNoted, goes_on as goes_on_by};
ghost use Rattle.oss_lacks.specs.Lacks.{IsLacks};

use crate::following::Following;
use crate::lacks::Lacks;
use oss_code::Code;
use oss_free_run::{FreeRun, Turned};
use oss_free_tasks::Deed;
use oss_missing_lines::RunFault;
use std::alloc::{AllocError, Global};

/// What the clauses of each task of a code lack, for what the tasks ask on the way of the free run; each may do so many ticks. Where
/// a fault stops the run, the tasks that are open count as ended there, and the fault is told. Main's clauses are none, and nothing
/// is told of it. Each act costs the runs of alike cells that it names, and an end those that the clauses of the task name. Want
/// of memory is the one error. Condition: the code has at most 1,048,576 cells.
pub fn find_lacks(alloc: Global, code: &Code, fuel: u32) -> Result<Lacks, AllocError>
    requires { length code.now.first ≤ 1048576 }
    ensures { IfOk result (λ lacks. IsLacks code.now fuel lacks) }
{
    let following = Following::new(alloc)?;
    match FreeRun::begin(alloc, code, fuel) {
        Ok(mut run) => lacks_from(code, fuel, &mut run, following),
        Err(full) => {
            drop(following);
            Err(full)
        }
    }
}

/// The same from the beginning of the run on.
fn lacks_from(
    code: &Code,
    fuel: u32,
    run: &mut FreeRun,
    mut following: Following,
) -> Result<Lacks, AllocError>
    requires { IsBeside code.now fuel run.old following }
    ensures { IfOk result (λ lacks. IsLacks code.now fuel lacks) }
{
    match follow(code, fuel, run, &mut following) {
        Ok(fault) => finish(following, fault),
        Err(full) => {
            drop(following);
            Err(full)
        }
    }
}

/// What is told at the end of the run, which this fault has stopped, if there is one.
fn finish(mut following: Following, fault: Option<RunFault>) -> Result<Lacks, AllocError>
    ensures { IfOk result (λ lacks. IsFinished following fault lacks) }
{
    match following.close_all() {
        Ok(()) => {
            let tasks = following.into_tasks()?;
            Ok(Lacks { tasks, fault })
        }
        Err(full) => {
            drop(following);
            Err(full)
        }
    }
}

/// Follows the run to its end. The fault that stops it is the answer, if there is one.
fn follow(
    code: &Code,
    fuel: u32,
    run: &mut FreeRun,
    following: &mut Following,
) -> Result<Option<RunFault>, AllocError>
    requires { IsBeside code.now fuel run.old following.old }
    ensures { IfOk result (λ fault. IsEnded code.now fuel fault following.new) }
{
    'turns: loop {
        note(code, fuel, run, following)?;
        match run.turn(code)? {
            Turned::On => {}
            Turned::Ended => return Ok(None),
            Turned::Failed(kind, line) => return Ok(Some(RunFault { kind, line })),
        }
    }
}

/// Notes what the task that acts asks next, if the run goes on from there.
fn note(code: &Code, _fuel: u32, run: &FreeRun, following: &mut Following) -> Result<(), AllocError>
    requires { IsBeside code.now _fuel run.now following.old }
    ensures { OnOk result (IsNoted code.now _fuel run.now following.old following.new) }
{
    if !goes_on(run.deed(code)) {
        return Ok(());
    }
    following.note(run.ask(), run.line(), run.created(), run.is_final())
}

/// The task does what it asks. The end of a wait for the task that it created last is no ask.
fn goes_on(deed: Deed) -> bool
    ensures { result ≡ goes_on_by deed }
{
    match deed {
        Deed::Awaits => false,
        Deed::Stops(_, _) => false,
        Deed::Ticks => true,
        Deed::Finds(_) => true,
        Deed::Creates => true,
        Deed::Ends => true,
    }
}
