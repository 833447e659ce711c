//! One piece of a map: neighbouring cells with one value.

ghost use Rattle.std.specs.Prelude.{◌≡◌};
ghost use Rattle.oss_ranges.specs.Cells.{is_before, told_by};

/// The cells from `lo` up to `hi`, `hi` excluded, which all have this value.
#[derive(Clone, Copy)]
pub struct Piece<T> {
    pub lo: u32,
    pub hi: u32,
    pub value: T,
}

impl<T: Copy> Piece<T> {
    /// The value of a cell before the end of the piece, where no piece stands between them.
    pub(crate) fn value_at_or_behind(self, cell: u32) -> Option<T>
        ensures { result ≡ told_by self cell }
    {
        if self.lo <= cell {
            Some(self.value)
        } else {
            None
        }
    }
}

/// Whether there is a piece, and it begins before a cell.
pub(crate) fn begins_before<T: Copy>(piece: Option<Piece<T>>, cell: u32) -> bool
    ensures { result ≡ is_before piece cell }
{
    match piece {
        Some(piece) => piece.lo < cell,
        None => false,
    }
}
