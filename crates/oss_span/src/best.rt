//! Longest chains as they are kept: how many ticks they have, and where they end.

ghost use Rattle.std.specs.Prelude.{◌≡◌};
ghost use Rattle.oss_span.specs.Bests.{better, better_mark, no_best, no_mark};

/// A longest chain: its ticks, and the node that is its end. Where the node is that of a cell that is given up,
/// the cell is told beside it.
#[derive(Clone, Copy, PartialEq, Eq)]
pub(crate) struct Mark {
    pub(crate) ticks: u64,
    pub(crate) end: Option<usize>,
}

/// A longest chain with the cell of its end, which says nothing where the end is an act.
#[derive(Clone, Copy)]
pub(crate) struct Best {
    pub(crate) mark: Mark,
    pub(crate) cell: u32,
}

/// No chain.
pub(crate) fn no_mark() -> Mark
    ensures { result ≡ no_mark }
{
    Mark {
        ticks: 0,
        end: None,
    }
}

/// No chain.
pub(crate) fn no_best() -> Best
    ensures { result ≡ no_best }
{
    Best {
        mark: no_mark(),
        cell: 0,
    }
}

impl Mark {
    /// The one with more ticks.
    pub(crate) fn or(self, other: Mark) -> Mark
        ensures { result ≡ better_mark self other }
    {
        if self.ticks < other.ticks {
            other
        } else {
            self
        }
    }
}

impl Best {
    /// The one with more ticks.
    pub(crate) fn or(self, other: Best) -> Best
        ensures { result ≡ better self other }
    {
        if self.mark.ticks < other.mark.ticks {
            other
        } else {
            self
        }
    }
}
