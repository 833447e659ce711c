//! Why a task may not do what it asks, found by the kind of its fault.

ghost use Rattle.std.specs.Prelude.{◌≡◌, ◌≤◌, true, Some, IfOk};
ghost use Rattle.oss_grammar.specs.Layout.{cells_in};
ghost use Rattle.oss_machine.specs.Asks.{meant_ask};
ghost use Rattle.oss_machine.specs.Frames.{CodeScript};
ghost use Rattle.oss_model.specs.Bodies.{Ask as Asks, Begin, Fails};
ghost use Rattle.oss_model.specs.Context.{lent_of, mark_of, right_of};
ghost use Rattle.oss_model.specs.Rights.{Holds, touch_fault};
ghost use Rattle.oss_syntax.specs.declared.access.Op.{Op as Ops};
ghost use Rattle.oss_explanation.specs.Explanations.{AsksTouch};
ghost use Rattle.oss_explain.specs.Reasons.{IsAccounted, IsFaultOf, IsReasonOf, touch_seen};

use crate::at_cell::word_at;
use crate::begun::Begun;
use crate::directives::{creation_reason, release_reason, wait_reason};
use crate::lending::lent_reason;
use crate::releases::touch_released;
use oss_explanation::Touching::{Folding, Reading, Writing};
use oss_explanation::{Reason, Touching};
use oss_judge::{Context, Right};
use oss_machine::Ask;
use oss_syntax::{FaultKind, Mode, Program};
use std::alloc::{AllocError, Global};

/// Why a task with this context may not do what it asks, which is a fault of this kind. It costs a walk over what was
/// noted of the task, and what its clauses and those of the directive cost. Out of memory is the one error.
pub(crate) fn reason_of(
    alloc: Global,
    program: &Program,
    context: &Context,
    ask: &Ask,
    top: &Begun,
    kind: FaultKind,
) -> Result<Reason, AllocError>
    requires layout { cells_in program.now.items ≤ 1048576 }
    requires fault { IsFaultOf context.now (meant_ask ask.now) kind }
    requires noted { IsAccounted context.now top.now }
    ensures { IfOk result (λ reason. IsReasonOf program.now.items context.now top.now kind (meant_ask ask.now) reason) }
{
    match ask {
        Ask::Tick => Ok(Reason::OutOfFuel(context.fuel())),
        Ask::Begin => Ok(limit_reason(context, kind)),
        Ask::Await => Ok(Reason::TooManyTasks),
        Ask::Read(cell) => touch_reason(alloc, program, context, *cell, Reading, top, kind),
        Ask::Write(cell, _) => touch_reason(alloc, program, context, *cell, Writing, top, kind),
        Ask::Fold(cell, op, _) => {
            touch_reason(alloc, program, context, *cell, Folding(*op), top, kind)
        }
        Ask::Create(order) => creation_reason(alloc, program, context, order.get(), top, kind),
        Ask::Release(clauses) => release_reason(
            alloc,
            program,
            context,
            clauses.as_slice(),
            top,
            kind,
        ),
        Ask::WaitOn(ranges) => wait_reason(alloc, program, context, ranges.as_slice(), top, kind),
        Ask::Fault(failure) => Ok(failure_reason(*failure)),
        Ask::Wait => unreachable!(),
        Ask::Print(_) => unreachable!(),
        Ask::End => unreachable!(),
    }
}

/// Why a creation may not begin.
fn limit_reason(context: &Context, kind: FaultKind) -> Reason
    requires { IsFaultOf {S = CodeScript} context.now Begin kind }
    ensures { (all : _) (b : _) → IsReasonOf all context.now b kind Begin result }
{
    match kind {
        FaultKind::TooDeep => Reason::TooDeep,
        FaultKind::TooManyTasks => Reason::TooManyTasks,
        _ => unreachable!(),
    }
}

/// Why the program's own meaning fails.
fn failure_reason(kind: FaultKind) -> Reason
    ensures { (all : _) (x : _) (b : _) → IsReasonOf all x b kind (Fails kind) result }
{
    match kind {
        FaultKind::TooDeep => Reason::TooManyFrames,
        FaultKind::ShiftRange => Reason::ShiftRange,
        _ => Reason::Plain,
    }
}

/// Why a touch of a cell may not be made.
fn touch_reason(
    alloc: Global,
    program: &Program,
    context: &Context,
    cell: u32,
    touch: Touching,
    top: &Begun,
    kind: FaultKind,
) -> Result<Reason, AllocError>
    requires layout { cells_in program.now.items ≤ 1048576 }
    requires fault { touch_fault (right_of context.now cell) (lent_of context.now cell) (mark_of context.now cell) (touch_seen touch) ≡ Some kind }
    requires noted { IsAccounted context.now top.now }
    ensures { IfOk result (λ reason. (ask : Asks CodeScript) → AsksTouch ask cell (touch_seen touch) →
        IsReasonOf program.now.items context.now top.now kind ask reason) }
{
    match kind {
        FaultKind::Released => touch_released(alloc, program, cell, top),
        FaultKind::NoRight => Ok(Reason::NoRight(
            cell,
            touch,
            word_at(top.accesses.as_slice(), false, cell),
        )),
        FaultKind::BadReduction => Ok(reduction_reason(context, cell)),
        FaultKind::Lent => lent_reason(alloc, cell, touch, top),
        FaultKind::Unwritten => Ok(Reason::Unwritten(cell)),
        _ => unreachable!(),
    }
}

/// Why a touch of a cell that the task has by a reduction may not be made: the operator is told.
fn reduction_reason(context: &Context, cell: u32) -> Reason
    requires { (op : Ops) × (right_of context.now cell ≡ Holds (Mode.Fold op) true) }
    ensures { (op : Ops) → right_of context.now cell ≡ Holds (Mode.Fold op) true → result ≡ Reason.BadReduction cell op }
{
    match context.right(cell) {
        Right::Holds(Mode::Fold(op), _) => Reason::BadReduction(cell, op),
        Right::Holds(Mode::Read, _) => unreachable!(),
        Right::Holds(Mode::Write, _) => unreachable!(),
        Right::Nothing => unreachable!(),
        Right::Released => unreachable!(),
    }
}
