//! The second walk over the free run, act by act.

ghost use Rattle.std.specs.Prelude.{◌≡◌, ◌≤◌, List as Items, Option as Maybe, length, IfOk, OnOk};
ghost use Rattle.oss_grammar.specs.Layout.{cells_in};
ghost use Rattle.oss_lacks.specs.Asking.{Asking};
ghost use Rattle.oss_lacks.specs.Beside.{goes_on as goes_on_by};
ghost use Rattle.oss_lacks.specs.Lacks.{AreTaskLacks};
ghost use Rattle.oss_missing_waits.specs.Beside.{AreFound, IsBeside, IsEnded, IsFinished, IsNotedBeside};
ghost use Rattle.oss_missing_waits.specs.Lines.{AreWaits};
ghost use Rattle.oss_missing_waits.specs.Waits.{mended_in};

use crate::following::Following;
use crate::waits::TaskWaits;
use oss_code::Code;
use oss_free_run::{FreeRun, Turned};
use oss_free_tasks::Deed;
use oss_lacks::{Lacks, TaskLacks};
use oss_pieces::Layout;
use oss_syntax::Program;
use std::alloc::{AllocError, Global};

/// Where tasks of a code lack a wait, and what they use behind a release, on the way of the free run, by what the clauses of all tasks
/// say once what they lack is mended; each may do so many ticks. The walk goes on as if a task had waited where a wait is missing.
/// Where a fault stops the run, the tasks that are open count as ended there. Each act costs the runs of alike cells that it names,
/// and those of them that its task has released or lent, each with a search among the runs that are kept of the task. A wait for all
/// children costs the runs that were lent, and so does a touch that a child hinders. A line to be told costs a search in the set of
/// those that were told of the task, and the first time what is told in it. Want of memory is the one error. Conditions: the code has
/// at most 1,048,576 cells, and so have the globals of the program.
pub fn find_waits(
    alloc: Global,
    program: &Program,
    code: &Code,
    fuel: u32,
    lacks: &Lacks,
) -> Result<TaskWaits, AllocError>
    requires few { length code.now.first ≤ 1048576 }
    requires cells { cells_in program.now.items ≤ 1048576 }
    ensures { IfOk result (λ waits. (ended : Items (Maybe Asking)) → AreTaskLacks ended lacks.now.tasks →
        AreWaits code.now fuel program.now.items (mended_in ended) waits) }
{
    let layout = Layout::of(alloc, program)?;
    let waits = find_over(alloc, &layout, code, fuel, lacks.tasks.as_slice())?;
    Ok(waits)
}

/// The same over globals that lie so.
fn find_over(
    alloc: Global,
    layout: &Layout,
    code: &Code,
    fuel: u32,
    tasks: &[TaskLacks],
) -> Result<TaskWaits, AllocError>
    requires { length code.now.first ≤ 1048576 }
    ensures { IfOk result (AreFound layout.now tasks.now code.now fuel) }
{
    let following = Following::new(alloc);
    match FreeRun::begin(alloc, code, fuel) {
        Ok(mut run) => find_from(layout, tasks, code, fuel, &mut run, following),
        Err(full) => {
            drop(following);
            Err(full)
        }
    }
}

/// The same from the beginning of the run on.
fn find_from(
    layout: &Layout,
    tasks: &[TaskLacks],
    code: &Code,
    fuel: u32,
    run: &mut FreeRun,
    mut following: Following,
) -> Result<TaskWaits, AllocError>
    requires { IsBeside layout.now tasks.now code.now fuel run.old following }
    ensures { IfOk result (AreFound layout.now tasks.now code.now fuel) }
{
    match follow(layout, tasks, code, fuel, run, &mut following) {
        Ok(()) => Ok(finish(following)),
        Err(full) => {
            drop(following);
            Err(full)
        }
    }
}

/// What is told at the end of the run.
fn finish(mut following: Following) -> TaskWaits
    ensures { IsFinished following result }
{
    following.close_all();
    following.into_waits()
}

/// Follows the run to its end.
fn follow(
    layout: &Layout,
    tasks: &[TaskLacks],
    code: &Code,
    fuel: u32,
    run: &mut FreeRun,
    following: &mut Following,
) -> Result<(), AllocError>
    requires { IsBeside layout.now tasks.now code.now fuel run.old following.old }
    ensures { OnOk result (IsEnded layout.now tasks.now code.now fuel following.new) }
{
    'turns: loop {
        note(layout, tasks, code, fuel, run, following)?;
        match run.turn(code)? {
            Turned::On => {}
            Turned::Ended => return Ok(()),
            Turned::Failed(_, _) => return Ok(()),
        }
    }
}

/// Notes what the task that acts asks next, if the run goes on from there.
fn note(
    layout: &Layout,
    tasks: &[TaskLacks],
    code: &Code,
    _fuel: u32,
    run: &FreeRun,
    following: &mut Following,
) -> Result<(), AllocError>
    ensures { OnOk result (IsNotedBeside layout.now tasks.now code.now _fuel run.now following.old following.new) }
{
    let goes = goes_on(run.deed(code));
    if goes {
        let line = run.line();
        let created = run.created();
        let is_final = run.is_final();
        following.note(layout, tasks, run.ask(), line, created, is_final)?;
        Ok(())
    } else {
        Ok(())
    }
}

/// The task does what it asks. The end of a wait for the task that it created last is no ask.
fn goes_on(deed: Deed) -> bool
    ensures { result ≡ goes_on_by deed }
{
    match deed {
        Deed::Awaits => false,
        Deed::Stops(_, _) => false,
        Deed::Ticks => true,
        Deed::Finds(_) => true,
        Deed::Creates => true,
        Deed::Ends => true,
    }
}
