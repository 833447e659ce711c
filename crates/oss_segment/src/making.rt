//! What the acts of a part make: tasks, and output.

ghost use Rattle.std.specs.Prelude.{◌≡◌, false, OnOk};
ghost use Rattle.oss_body.specs.Acts.{creates as creates_task};
ghost use Rattle.oss_body.specs.Relation.{is_over, pending_of};
ghost use Rattle.oss_segment.specs.Made.{AddsWhen};
ghost use Rattle.oss_segment.specs.Segments.{IsKeyed, with_print};

use oss_body::Act;
use oss_code::Code;
use oss_kept_tasks::BoxedBody;
use oss_syntax::Bytes;
use oss_tree::Print;
use std::alloc::{AllocError, Global};

/// Whether the act creates a task that is not included.
fn creates(act: &Act) -> bool
    ensures { result ≡ creates_task act.now }
{
    match act {
        Act::Create { included, .. } => !*included,
        Act::Tick => false,
        Act::Load(_) => false,
        Act::Store(_, _) => false,
        Act::Fold { .. } => false,
        Act::Await => false,
        Act::Wait => false,
        Act::WaitOn(_) => false,
        Act::Release { .. } => false,
        Act::Print { .. } => false,
        Act::End => false,
        Act::Fault { .. } => false,
    }
}

/// Adds the body of the task that the pending act creates, if it creates one that is not included. Condition:
/// the body has not ended.
pub(crate) fn add_child(
    body: &BoxedBody,
    code: &Code,
    children: &mut Vec<BoxedBody>,
) -> Result<(), AllocError>
    requires { is_over body.now ≡ false }
    ensures { OnOk result (AddsWhen (creates_task (pending_of body.now)) code.now body.now children.old.items
        children.new.items) }
{
    if !creates(body.pending()) {
        return Ok(());
    }
    let child = body.child(code)?;
    children.push(child)?;
    Ok(())
}

/// Adds what the act prints, if it is a print.
pub(crate) fn add_print(alloc: Global, act: &Act, prints: &mut Vec<Print>) -> Result<(), AllocError>
    ensures prints { OnOk result (prints.new.items ≡ with_print act.now prints.old.items) }
    ensures keyed { OnOk result (IsKeyed act.now) }
{
    match act {
        Act::Print { key, text } => {
            let at = key.copy()?;
            let text = Bytes::from_slice(alloc, text.as_slice())?;
            prints.push(Print { at, text })?;
            Ok(())
        }
        Act::Tick => Ok(()),
        Act::Load(_) => Ok(()),
        Act::Store(_, _) => Ok(()),
        Act::Fold { .. } => Ok(()),
        Act::Create { .. } => Ok(()),
        Act::Await => Ok(()),
        Act::Wait => Ok(()),
        Act::WaitOn(_) => Ok(()),
        Act::Release { .. } => Ok(()),
        Act::End => Ok(()),
        Act::Fault { .. } => Ok(()),
    }
}
