//! What an act of a task makes of memory and of the tree.

ghost use Rattle.std.specs.Prelude.{◌≡◌, OnOk};
ghost use Rattle.oss_model.specs.Moves.{cells_after};
ghost use Rattle.oss_body.specs.Acts.{act_seen};
ghost use Rattle.oss_core.specs.Changes.{found_in, prints_after};
ghost use Rattle.oss_core.specs.Going.{IsKeyed};

use oss_body::Act;
use oss_body::memory::{combined, set, value_at, word};
use oss_syntax::Bytes;
use oss_tree::Tree;
use std::alloc::{AllocError, Global};

/// An act of a task happens in memory. The answer is the number that a load finds, and else 0. A fold into a
/// slot leaves the memory as it is.
pub(crate) fn happen(act: &Act, cells: &mut Vec<u64>) -> u64
    ensures cells { cells.new.items ≡ cells_after (act_seen act.now) cells.old.items }
    ensures found { result ≡ found_in act.now cells.old.items }
{
    match act {
        Act::Load(cell) => value_at(cells.as_slice(), *cell),
        Act::Store(cell, value) => {
            set(cells.as_mut_slice(), *cell, word(*value));
            0
        }
        Act::Fold {
            cell,
            op,
            value,
            slot,
        } => {
            if !*slot {
                let now = combined(*op, value_at(cells.as_slice(), *cell), word(*value));
                set(cells.as_mut_slice(), *cell, now);
            }
            0
        }
        Act::Tick => 0,
        Act::Create { .. } => 0,
        Act::Await => 0,
        Act::Wait => 0,
        Act::WaitOn(_) => 0,
        Act::Release { .. } => 0,
        Act::Print { .. } => 0,
        Act::End => 0,
        Act::Fault { .. } => 0,
    }
}

/// What an act prints goes behind all that was printed before.
pub(crate) fn note_print(alloc: Global, act: &Act, tree: &mut Tree) -> Result<(), AllocError>
    ensures tasks { OnOk result (tree.new.tasks ≡ tree.old.tasks) }
    ensures prints { OnOk result (tree.new.prints ≡ prints_after act.now tree.old.prints) }
    ensures keyed { OnOk result (IsKeyed act.now) }
{
    match act {
        Act::Print { key, text } => {
            let at = key.copy()?;
            let text = Bytes::from_slice(alloc, text.as_slice())?;
            tree.print(at, text)
        }
        Act::Tick => Ok(()),
        Act::Load(_) => Ok(()),
        Act::Store(_, _) => Ok(()),
        Act::Fold { .. } => Ok(()),
        Act::Create { .. } => Ok(()),
        Act::Await => Ok(()),
        Act::Wait => Ok(()),
        Act::WaitOn(_) => Ok(()),
        Act::Release { .. } => Ok(()),
        Act::End => Ok(()),
        Act::Fault { .. } => Ok(()),
    }
}
