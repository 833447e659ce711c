//! Where slots stand: the values of a range stand side by side, so the map keeps one piece for all of them.

ghost use Rattle.std.specs.Prelude.{◌≡◌, ◌≤◌, ◌<◌, ◌^◌};
ghost use Rattle.oss_slots.specs.Slots.{place_of};

use oss_syntax::Op;

/// Where the values of a range of slots stand: side by side, that of the cell `lo` at `first`.
#[derive(Clone, Copy, PartialEq, Eq)]
pub struct Home {
    /// The operator of all these slots.
    pub op: Op,
    pub lo: u32,
    pub first: usize,
}

impl Home {
    /// Where the value of a cell stands.
    pub(crate) fn place(self, cell: u32) -> usize
        requires behind { self.lo ≤ cell }
        requires fits { place_of self cell < 2 ^ 64 }
        ensures { result ≡ place_of self cell }
    {
        self.first + (cell - self.lo) as usize
    }
}
