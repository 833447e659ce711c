//! Seats that come and go.

ghost use Rattle.std.specs.Prelude.{◌≡◌, ◌<◌, [], length};
ghost use Rattle.oss_field.specs.Seats.{IsIdle, merged, new_known, parted, spent};
ghost use Rattle.oss_field.specs.Standing.{On, Stays};

use crate::view::SeatView;
use crate::words::{Place, Words};
use atomic_table::{Join, Split};

/// The kind of split by which a new seat gets a part, and nothing else.
struct Parting;

impl Split<SeatView> for Parting {
    ghost left = { λ v. record { known = parted v.known } };

    ghost right = { λ v. record { known = new_known } };
}

/// Splits the first seat.
pub(crate) fn part(words: &Words, seat: &mut Place) -> Place
    requires on { On words.now.table_id words.now.key seat.old }
    requires first { (seat.old.id ≡ 0) × (1 < seat.old.me.0.known.words.parts) }
    requires few { seat.old.me.0.known.words.splits < 65536 }
    ensures stays { Stays seat.old seat.new }
    ensures known { seat.new.me.0.known ≡ parted seat.old.me.0.known }
    ensures other { (result.table_id ≡ seat.old.table_id) × (result.me.0.known ≡ new_known) × (result.me.1 ≡ []) }
{
    words.split_seat::<Parting>(seat)
}

/// The kind of join by which a seat gets the parts of another, and what it has drawn.
struct Merging;

impl Join<SeatView> for Merging {
    ghost both = { λ v w. record { known = merged v.known w.known } };

    ghost spent = { record { known = spent } };
}

/// Joins a seat that has nothing left to do to another.
pub(crate) fn merge(words: &Words, seat: &mut Place, other: Place)
    requires on { On words.now.table_id words.now.key seat.old × On words.now.table_id words.now.key other }
    requires idle { IsIdle other.me.0.known }
    requires slots { other.me.1 ≡ [] }
    ensures stays { Stays seat.old seat.new }
    ensures known { seat.new.me.0.known ≡ merged seat.old.me.0.known other.me.0.known }
{
    words.join_seat::<Merging>(seat, other);
}
