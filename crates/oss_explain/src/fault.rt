//! The explanation of the fault before which a run stands.

ghost use Rattle.std.specs.Prelude.{◌≤◌, IfOk};
ghost use Rattle.oss_grammar.specs.Layout.{cells_in};
ghost use Rattle.oss_explain.specs.Endings.{IsFinishOf};
ghost use Rattle.oss_explain.specs.Noting.{StandsBefore};

use crate::ending::{Ending, Finish};
use crate::ledger::Ledger;
use crate::told::told_of;
use crate::who::who_of;
use oss_body::Body;
use oss_code::Code;
use oss_syntax::{FaultKind, Program};
use std::alloc::{AllocError, Global};

/// The explanation of the fault of this kind, on this line, before which a run of the code stands, by what was noted, and
/// what failed there. It costs what the clauses of the task and those of its directive cost, and a walk over what was noted. Out of memory is
/// the one error.
pub(crate) fn explain_fault(
    alloc: Global,
    program: &Program,
    code: &Code,
    fuel: u32,
    current: &Body,
    ledger: &Ledger,
    kind: FaultKind,
    line: u32,
) -> Result<Finish, AllocError>
    requires layout { cells_in program.now.items ≤ 1048576 }
    requires stands { StandsBefore code.now fuel current.now ledger.now kind line }
    ensures { IfOk result (λ finish. IsFinishOf code.now fuel program.now.items finish) }
{
    let failure = current.failure(code);
    let who = who_of(alloc, current.pending(), ledger)?;
    match told_of(
        alloc,
        program,
        current.acting(),
        current.asked(),
        &ledger.top,
        kind,
    ) {
        Ok(told) => Ok(Finish {
            ending: Ending::Fault(kind, line, who.explained(told, line)),
            failure,
        }),
        Err(full) => {
            drop(who);
            Err(full)
        }
    }
}
