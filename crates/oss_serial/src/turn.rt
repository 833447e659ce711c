//! One act of the body that runs, as far as memory and output go.

ghost use Rattle.std.specs.Prelude.{◌≡◌, OnOk, IfOk};
ghost use Rattle.oss_model.specs.Sequence.{direct_cells, printed_after};
ghost use Rattle.oss_body.specs.Acts.{act_seen};
ghost use Rattle.oss_serial.specs.Stages.{turn_of};

use oss_body::Act;
use oss_body::memory::{combined, set, value_at, word};
use oss_model::FaultKind;
use std::alloc::AllocError;

/// What comes of a body by its next act.
#[derive(Clone, Copy)]
pub(crate) enum Turn {
    /// It goes on; a load found this number.
    Goes(u64),
    /// It creates a task that is not included.
    Creates,
    /// A fault stops it, on this line.
    Stops(FaultKind, u32),
}

/// The act happens: memory and output change. A fold goes straight to memory, since no other task runs beside this one.
#[inline(always)]
pub(crate) fn happen(
    act: &Act,
    cells: &mut Vec<u64>,
    output: &mut Vec<u8>,
) -> Result<Turn, AllocError>
    ensures cells { OnOk result (cells.new.items ≡ direct_cells (act_seen act.now) cells.old.items) }
    ensures output { OnOk result (output.new.items ≡ printed_after (act_seen act.now) output.old.items) }
    ensures turn { IfOk result (λ turn. turn ≡ turn_of act.now cells.old.items) }
{
    match act {
        Act::Load(cell) => Ok(Turn::Goes(value_at(cells.as_slice(), *cell))),
        Act::Store(cell, value) => {
            set(cells.as_mut_slice(), *cell, word(*value));
            Ok(Turn::Goes(0))
        }
        Act::Fold {
            cell,
            op,
            value,
            ..
        } => {
            let now = combined(*op, value_at(cells.as_slice(), *cell), word(*value));
            set(cells.as_mut_slice(), *cell, now);
            Ok(Turn::Goes(0))
        }
        Act::Create { included, .. } => {
            if *included {
                Ok(Turn::Goes(0))
            } else {
                Ok(Turn::Creates)
            }
        }
        Act::Print { text, .. } => {
            output.extend_from_slice(text.as_slice())?;
            Ok(Turn::Goes(0))
        }
        Act::Fault { kind, line, .. } => Ok(Turn::Stops(*kind, *line)),
        Act::Tick => Ok(Turn::Goes(0)),
        Act::Await => Ok(Turn::Goes(0)),
        Act::Wait => Ok(Turn::Goes(0)),
        Act::WaitOn(_) => Ok(Turn::Goes(0)),
        Act::Release { .. } => Ok(Turn::Goes(0)),
        Act::End => Ok(Turn::Goes(0)),
    }
}
