//! What an act does to memory. Each cell keeps a number of 64 bits.

ghost use Rattle.std.specs.Prelude.{◌≡◌, slice_index, slice_set};
ghost use Rattle.oss_model.specs.Bodies.{word_of};
ghost use Rattle.oss_machine.specs.Asks.{meant_ask};
ghost use Rattle.oss_free_tasks.specs.Deeds.{cells_behind};

use oss_machine::Ask;
use oss_slots::combined;

/// The number in a cell; past the last cell it is 0.
pub(crate) fn value_at(cells: &[u64], cell: u32) -> u64
    ensures { result ≡ slice_index cells.now cell }
{
    cells.get(cell as usize).copied().unwrap_or(0)
}

/// Puts a number into a cell; past the last cell nothing happens.
fn set(cells: &mut [u64], cell: u32, value: u64)
    ensures { cells.new ≡ slice_set cells.old cell value }
{
    let at = cell as usize;
    if at < cells.len() {
        cells[at] = value;
    }
}

/// A number of 64 bits keeps all of itself.
fn word(value: u64) -> u64
    ensures { result ≡ word_of value }
{
    value
}

/// What the task asks for happens to memory. A fold goes straight to its cell, since no other task runs beside this one.
pub(crate) fn happen(ask: &Ask, cells: &mut Vec<u64>)
    ensures { cells.new.items ≡ cells_behind (meant_ask ask.now) cells.old.items }
{
    match ask {
        Ask::Write(cell, value) => set(cells.as_mut_slice(), *cell, word(*value)),
        Ask::Fold(cell, op, value) => {
            let now = combined(*op, value_at(cells.as_slice(), *cell), word(*value));
            set(cells.as_mut_slice(), *cell, now);
        }
        Ask::Begin => {}
        Ask::Tick => {}
        Ask::Read(_) => {}
        Ask::Create(_) => {}
        Ask::Await => {}
        Ask::Wait => {}
        Ask::WaitOn(_) => {}
        Ask::Release(_) => {}
        Ask::Print(_) => {}
        Ask::End => {}
        Ask::Fault(_) => {}
    }
}
