//! The numbers of tasks, and the cells that they stand for.

ghost use Rattle.std.specs.Prelude.{◌≡◌};
ghost use Rattle.oss_gen.specs.Generated.{cell_behind as behind_of, cell_count as count_of, first_cell as first_of, next_number as number_behind};

/// The number behind this one.
#[tactic(auto, unfolding(crate::specs::Generated::next_number))]
pub(crate) fn next_number(number: u8) -> u8
    ensures { result ≡ number_behind number }
{
    ((u32::from(number) * 5 + 3) % 256) as u8
}

/// The first cell of the task with this number, at most 12.
#[tactic(auto, unfolding(crate::specs::Generated::first_cell))]
pub(crate) fn first_cell(number: u8) -> u8
    ensures { result ≡ first_of number }
{
    number % 13
}

/// How many cells the task with this number has, at most 4.
#[tactic(auto, unfolding(crate::specs::Generated::cell_count))]
pub(crate) fn cell_count(number: u8) -> u8
    ensures { result ≡ count_of number }
{
    1 + number / 64
}

/// The cell behind those of the task with this number, at most 16.
#[tactic(auto, unfolding(crate::specs::Generated::cell_behind, crate::specs::Generated::cell_count, crate::specs::Generated::first_cell))]
pub(crate) fn cell_behind(number: u8) -> u8
    ensures { result ≡ behind_of number }
{
    first_cell(number) + cell_count(number)
}
