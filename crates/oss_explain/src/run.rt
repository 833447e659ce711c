//! The explanation of the fault to which a code comes.

ghost use Rattle.std.specs.Prelude.{◌≤◌, length, IfOk};
ghost use Rattle.oss_grammar.specs.Layout.{cells_in};
ghost use Rattle.oss_explain.specs.Endings.{IsFinishOf};
ghost use Rattle.oss_explain.specs.Noting.{IsEndReached, IsFollowing};

use crate::ending::{Ending, Finish};
use crate::fault::explain_fault;
use crate::ledger::Ledger;
use oss_code::Code;
use oss_serial::{Stage, Turned, begin};
use oss_syntax::{FaultKind, Program};
use std::alloc::{AllocError, Global};

/// How a run comes to its end.
#[derive(Clone, Copy)]
enum End {
    /// Main has ended.
    Done,
    /// A fault stopped it, on this line.
    Fault(FaultKind, u32),
}

/// Runs a code sequentially, each task with fuel for so many ticks, and explains the fault to which the run comes, if it
/// comes to one: by its kind and line, what the task that acts was about to do, why it may not, how the task came to be,
/// and what the clauses name. Beside that it tells what failed, if the fault is a shift out of range, or a pointer, a
/// section or a number of turns. The output of the run is not kept. Beside the run it costs little for each act, what the
/// accesses of a new task cost at its creation, and at the fault a walk over what was noted: of each task on the way its
/// releases, and its children and each `taskwait on` since its last `taskwait`. Cells are told over the globals of the
/// program. Out of memory is the one other answer. Condition: the code has at most 1,048,576 cells, and so have the
/// globals.
pub fn explain(
    alloc: Global,
    program: &Program,
    code: &Code,
    fuel: u32,
) -> Result<Finish, AllocError>
    requires cells { length code.now.first ≤ 1048576 }
    requires layout { cells_in program.now.items ≤ 1048576 }
    ensures { IfOk result (λ finish. IsFinishOf code.now fuel program.now.items finish) }
{
    let mut ledger = Ledger::new(alloc)?;
    match begin(alloc, code, fuel) {
        Ok(mut stage) => explain_from(alloc, program, code, fuel, &mut stage, &mut ledger),
        Err(error) => Err(error),
    }
}

/// The same from the beginning of the run on.
fn explain_from(
    alloc: Global,
    program: &Program,
    code: &Code,
    fuel: u32,
    stage: &mut Stage,
    ledger: &mut Ledger,
) -> Result<Finish, AllocError>
    requires layout { cells_in program.now.items ≤ 1048576 }
    requires follows { IsFollowing code.now fuel stage.old ledger.old }
    ensures { IfOk result (λ finish. IsFinishOf code.now fuel program.now.items finish) }
{
    match follow(code, fuel, stage, ledger)? {
        End::Done => Ok(Finish {
            ending: Ending::Done,
            failure: None,
        }),
        End::Fault(kind, line) => explain_fault(
            alloc,
            program,
            code,
            fuel,
            &stage.current,
            ledger,
            kind,
            line,
        ),
    }
}

/// Follows the run to its end.
fn follow(code: &Code, fuel: u32, stage: &mut Stage, ledger: &mut Ledger) -> Result<End, AllocError>
    requires { IsFollowing code.now fuel stage.old ledger.old }
    ensures { IfOk result (λ end. IsEndReached code.now fuel stage.new ledger.new end) }
{
    'turns: loop {
        let created = stage.current.acting().created_count();
        ledger.note(
            stage.current.pending(),
            stage.current.line(),
            created as u16,
        )?;
        match stage.turn(code)? {
            Turned::On => {}
            Turned::Ended => return Ok(End::Done),
            Turned::Failed(kind, line) => return Ok(End::Fault(kind, line)),
        }
    }
}
