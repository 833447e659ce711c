//! The walk over the pieces of a map on a range. It keeps no path: each step looks again from the cell that it
//! has reached.

ghost use Rattle.std.specs.Prelude.{◌≡◌, ◌≤◌};
ghost use Rattle.oss_ranges.specs.Cells.{Rises, clipped};
ghost use Rattle.oss_ranges.specs.Stores.{kept_of};

use crate::store::Store;
use oss_syntax::Range;
use std::marker::Model;

/// The pieces of a map on a range, in rising order: contracts see those that are left, cut at the ends of the range.
#[derive(Drop)]
pub struct Pieces<'m, T: Copy> {
    store: &'m Store<T>,
    /// The cell up to which pieces were told.
    from: u32,
    /// The end of the range.
    to: u32,
}

impl<'m, T: Copy> Model for Pieces<'m, T> {
    ghost use Rattle.std.specs.Prelude.{◌≤◌, List};
    ghost use Rattle.oss_ranges.specs.declared.piece.Piece.{Piece};
    ghost use Rattle.oss_ranges.specs.Cells.{Rises, clipped};
    ghost use Rattle.oss_ranges.specs.Stores.{kept_of};

    ghost Value = { List (Piece T) };

    ghost view = { λ s. clipped s.from s.to (kept_of s.store.now).pieces };

    ghost invariant = { λ s. Rises 0 (kept_of s.store.now).pieces 1048576 × (s.to ≤ 1048576) };
}

impl<'m, T: Copy> Pieces<'m, T> {
    /// The pieces of a map on a range.
    pub(crate) fn of(store: &'m Store<T>, range: Range) -> Pieces<'m, T>
        requires { Rises 0 (kept_of store.now).pieces 1048576 }
        ensures { result ≡ clipped range.lo range.hi (kept_of store.now).pieces }
    {
        Pieces {
            store,
            from: range.lo,
            to: range.hi,
        }
    }
}

impl<'m, T: Copy> Iterator for Pieces<'m, T> {
    ghost use Rattle.std.specs.Iterator.{YieldsFirstBy, item_count};
    ghost use Rattle.oss_ranges.specs.Items.{piece_of};

    type Item = (Range, T);

    ghost next_gives = { YieldsFirstBy piece_of (λ s. s) };

    ghost remaining = { item_count (λ s. s) };

    fn next(&mut self) -> Option<(Range, T)> {
        match self.store.next(self.from) {
            Some(piece) => {
                let lo = piece.lo.max(self.from);
                let hi = piece.hi.min(self.to);
                if lo < hi {
                    self.from = hi;
                    Some((Range { lo, hi }, piece.value))
                } else {
                    None
                }
            }
            None => None,
        }
    }
}
