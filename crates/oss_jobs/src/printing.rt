//! The prints of a job.

ghost use Rattle.std.specs.Prelude.{◌≡◌, OnErr, OnOk};
ghost use Rattle.oss_segment.specs.Segments.{IsKeyed, with_print};

use oss_body::Act;
use oss_syntax::Bytes;
use oss_tree::Print;
use std::alloc::{AllocError, Global};

/// Adds what the act prints, if it is a print. If it is out of memory, there is none more.
pub(crate) fn add_print(alloc: Global, act: &Act, prints: &mut Vec<Print>) -> Result<(), AllocError>
    ensures prints { OnOk result (prints.new.items ≡ with_print act.now prints.old.items) }
    ensures keyed { OnOk result (IsKeyed act.now) }
    ensures stays { OnErr result (prints.new.items ≡ prints.old.items) }
{
    match act {
        Act::Print { key, text } => {
            let at = key.copy()?;
            let text = Bytes::from_slice(alloc, text.as_slice())?;
            prints.push(Print { at, text })?;
            Ok(())
        }
        Act::Tick => Ok(()),
        Act::Load(_) => Ok(()),
        Act::Store(_, _) => Ok(()),
        Act::Fold { .. } => Ok(()),
        Act::Create { .. } => Ok(()),
        Act::Await => Ok(()),
        Act::Wait => Ok(()),
        Act::WaitOn(_) => Ok(()),
        Act::Release { .. } => Ok(()),
        Act::End => Ok(()),
        Act::Fault { .. } => Ok(()),
    }
}
