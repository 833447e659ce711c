//! What an act of a part makes of the cells that the part has changed.

ghost use Rattle.std.specs.Prelude.{◌≡◌, ◌==◌, ◌≤◌, ◌<◌, ℕ, List as Items, length, slice_index, Some, if◌then◌else◌, IfOk, OnOk};
ghost use Rattle.oss_model.specs.Moves.{found_by};
ghost use Rattle.oss_ranges.specs.Cells.{value_at};
ghost use Rattle.oss_body.specs.Acts.{act_seen};
ghost use Rattle.oss_segment.specs.Writes.{Leaves, Shows};

use oss_body::Act;
use oss_body::memory::{combined, word};
use oss_ranges::RangeMap;
use oss_syntax::Range;
use std::alloc::AllocError;

/// The number that a part finds in a cell: what it has put there itself, or else that of the memory; past the
/// last cell it is 0.
fn read(writes: &RangeMap<u64>, memory: &[u64], cell: u32) -> u64
    ensures { (cells : Items ℕ) → Shows memory.now writes.now.pieces cells → result ≡ slice_index cells cell }
{
    match memory.get(cell as usize) {
        Some(first) => match writes.get(cell) {
            Some(value) => value,
            None => *first,
        },
        None => 0,
    }
}

/// Puts a number into a cell; past the last cell nothing happens. After want of memory the writes are as they
/// were. Condition: the memory has at most 1,048,576 cells.
fn write(
    writes: &mut RangeMap<u64>,
    memory: &[u64],
    cell: u32,
    value: u64,
) -> Result<(), AllocError>
    requires { length memory.now ≤ 1048576 }
    ensures { OnOk result ((c : ℕ) → c < length memory.now →
        value_at writes.new.pieces c ≡ (if cell == c then Some value else value_at writes.old.pieces c)) }
{
    if (cell as usize) < memory.len() {
        return writes.assign(
            Range {
                lo: cell,
                hi: cell + 1,
            },
            value,
        );
    }
    Ok(())
}

/// The act happens. The answer is the number that a load finds, and else 0. A fold into a slot changes no cell.
/// Condition: the memory has at most 1,048,576 cells.
pub(crate) fn happen(
    writes: &mut RangeMap<u64>,
    memory: &[u64],
    act: &Act,
) -> Result<u64, AllocError>
    requires { length memory.now ≤ 1048576 }
    ensures writes { OnOk result ((cells : Items ℕ) → Shows memory.now writes.old.pieces cells →
        Leaves (act_seen act.now) cells writes.old.pieces writes.new.pieces) }
    ensures found { IfOk result (λ found. (cells : Items ℕ) → Shows memory.now writes.old.pieces cells →
        found ≡ found_by (act_seen act.now) cells) }
{
    match act {
        Act::Load(cell) => Ok(read(writes, memory, *cell)),
        Act::Store(cell, value) => {
            write(writes, memory, *cell, word(*value))?;
            Ok(0)
        }
        Act::Fold {
            cell,
            op,
            value,
            slot,
        } => {
            if *slot {
                return Ok(0);
            }
            let old = read(writes, memory, *cell);
            write(writes, memory, *cell, combined(*op, old, word(*value)))?;
            Ok(0)
        }
        Act::Tick => Ok(0),
        Act::Create { .. } => Ok(0),
        Act::Await => Ok(0),
        Act::Wait => Ok(0),
        Act::WaitOn(_) => Ok(0),
        Act::Release { .. } => Ok(0),
        Act::Print { .. } => Ok(0),
        Act::End => Ok(0),
        Act::Fault { .. } => Ok(0),
    }
}
