//! By which words a new task would have its cells.

ghost use Rattle.std.specs.Prelude.{◌≡◌, ◌≤◌, ◌<◌, ◌||◌, Some, IfOk};
ghost use Rattle.oss_grammar.specs.Layout.{cells_in};
ghost use Rattle.oss_machine.specs.Asks.{meant_ask, meant_order};
ghost use Rattle.oss_machine.specs.Frames.{CodeScript};
ghost use Rattle.oss_model.specs.Bodies.{Create};
ghost use Rattle.oss_model.specs.Context.{child_context, creation_fault};
ghost use Rattle.oss_explanation.specs.Explanations.{wanted};
ghost use Rattle.oss_explanation.specs.Held.{AreHeld, all_words, word_in};
ghost use Rattle.oss_explain.specs.Ledgers.{AreAccesses};
ghost use Rattle.oss_explain.specs.Reasons.{IsFaultOf};

use crate::directives::is_child_final;
use crate::holding::held_by;
use oss_code::TaskOrder;
use oss_explanation::Held;
use oss_judge::{Context, Given};
use oss_machine::Ask;
use oss_syntax::{Access, FaultKind, List, Program};
use std::alloc::{AllocError, Global};

/// By which words the new task would have its cells, where that is told: of a creation whose clauses name a cell that is
/// released or not covered. It costs what the context of the new task and its accesses cost. Out of memory is the one
/// error.
pub(crate) fn wants(
    alloc: Global,
    program: &Program,
    context: &Context,
    ask: &Ask,
    kind: FaultKind,
) -> Result<List<Held>, AllocError>
    requires layout { cells_in program.now.items ≤ 1048576 }
    requires fault { IsFaultOf context.now (meant_ask ask.now) kind }
    ensures { IfOk result (λ held. AreHeld program.now.items (wanted kind (meant_ask ask.now) context.now) all_words held) }
{
    match ask {
        Ask::Create(order) => creation_wants(alloc, program, context, order.get(), kind),
        _ => Ok(List::new(alloc)),
    }
}

/// The same for a creation with this order.
fn creation_wants(
    alloc: Global,
    program: &Program,
    context: &Context,
    order: &TaskOrder,
    kind: FaultKind,
) -> Result<List<Held>, AllocError>
    requires layout { cells_in program.now.items ≤ 1048576 }
    requires fault { creation_fault context.now order.now.accesses (context.now.final || order.now.last) ≡ Some kind }
    ensures { IfOk result (λ held. AreHeld program.now.items (wanted {S = CodeScript} kind (Create (meant_order order.now)) context.now) all_words held) }
{
    match kind {
        FaultKind::Released => child_words(alloc, program, context, order),
        FaultKind::NotCovered => child_words(alloc, program, context, order),
        _ => Ok(List::new(alloc)),
    }
}

/// By which words the task of this order would have its cells.
fn child_words(
    alloc: Global,
    program: &Program,
    context: &Context,
    order: &TaskOrder,
) -> Result<List<Held>, AllocError>
    requires layout { cells_in program.now.items ≤ 1048576 }
    requires depth { context.now.depth < 64 }
    ensures { IfOk result (λ held. AreHeld program.now.items (word_in (child_context context.now order.now.accesses order.now.last)) all_words held) }
{
    let accesses = child_accesses(alloc, context, &order.accesses, order.last)?;
    held_by(alloc, program, accesses.as_slice())
}

/// The accesses with which a new task with these clauses would start.
fn child_accesses(
    alloc: Global,
    context: &Context,
    clauses: &List<Access>,
    last: bool,
) -> Result<List<Access>, AllocError>
    requires { context.now.depth < 64 }
    ensures { IfOk result (λ accesses. AreAccesses accesses (child_context context.now clauses.now last)) }
{
    let child = child_of(alloc, context, clauses, last)?;
    child.accesses()
}

/// The context with which a new task with these clauses would start.
fn child_of(
    alloc: Global,
    context: &Context,
    clauses: &List<Access>,
    last: bool,
) -> Result<Context, AllocError>
    requires { context.now.depth < 64 }
    ensures { IfOk result (λ child. child ≡ child_context context.now clauses.now last) }
{
    let given = Given::of(alloc, clauses, is_child_final(context, last))?;
    context.start(&given, clauses, last)
}
