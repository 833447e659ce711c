//! What is told of an ask that comes to a fault.

ghost use Rattle.std.specs.Prelude.{◌≤◌, IfOk};
ghost use Rattle.oss_grammar.specs.Layout.{cells_in};
ghost use Rattle.oss_judge.specs.Joined.{IsRising};
ghost use Rattle.oss_machine.specs.Asks.{meant_ask};
ghost use Rattle.oss_explain.specs.Reasons.{IsAccounted, IsFaultOf};
ghost use Rattle.oss_explain.specs.Telling.{IsToldOf};

use crate::begun::Begun;
use crate::deeds::deed_of;
use crate::finding::reason_of;
use crate::holding::held_by;
use crate::wanting::wants;
use oss_explanation::{Deed, Held, Reason};
use oss_judge::Context;
use oss_machine::Ask;
use oss_syntax::{FaultKind, List, Program};
use std::alloc::{AllocError, Global};

/// What is told of a fault beside who acts.
#[derive(Drop)]
pub(crate) struct Told {
    pub(crate) deed: Deed,
    pub(crate) reason: Reason,
    pub(crate) holds: List<Held>,
    pub(crate) wants: List<Held>,
}

/// What is told of an ask of a task with this context, which comes to a fault of this kind. It costs what the clauses of
/// the task and those of the directive cost, and a walk over what was noted. Out of memory is the one error.
pub(crate) fn told_of(
    alloc: Global,
    program: &Program,
    context: &Context,
    ask: &Ask,
    top: &Begun,
    kind: FaultKind,
) -> Result<Told, AllocError>
    requires layout { cells_in program.now.items ≤ 1048576 }
    requires fault { IsFaultOf context.now (meant_ask ask.now) kind }
    requires noted { IsAccounted context.now top.now }
    requires rising { IsRising top.now.accesses }
    ensures { IfOk result (λ told. IsToldOf program.now.items context.now top.now kind (meant_ask ask.now) told) }
{
    let holds = held_by(alloc, program, top.accesses.as_slice())?;
    let wants = match wants(alloc, program, context, ask, kind) {
        Ok(wants) => wants,
        Err(full) => {
            drop(holds);
            return Err(full);
        }
    };
    let deed = match deed_of(alloc, program, ask) {
        Ok(deed) => deed,
        Err(full) => {
            drop(wants);
            drop(holds);
            return Err(full);
        }
    };
    match reason_of(alloc, program, context, ask, top, kind) {
        Ok(reason) => Ok(Told {
            deed,
            reason,
            holds,
            wants,
        }),
        Err(full) => {
            drop(deed);
            drop(wants);
            drop(holds);
            Err(full)
        }
    }
}
