//! What acts do with cells, each of which keeps a number of 64 bits.
ghost use Rattle.std.specs.Prelude.{◌≡◌, slice_index, slice_set};
ghost use Rattle.oss_model.specs.Bodies.{word_of};

pub use oss_slots::combined;

/// The number in a cell; past the last cell it is 0.
pub fn value_at(cells: &[u64], cell: u32) -> u64
    ensures { result ≡ slice_index cells.now cell }
{
    cells.get(cell as usize).copied().unwrap_or(0)
}

/// Puts a number into a cell; past the last cell nothing happens.
pub fn set(cells: &mut [u64], cell: u32, value: u64)
    ensures { cells.new ≡ slice_set cells.old cell value }
{
    let at = cell as usize;
    if at < cells.len() {
        cells[at] = value;
    }
}

/// A number of 64 bits keeps all of itself.
pub fn word(value: u64) -> u64
    ensures { result ≡ word_of value }
{
    value
}
