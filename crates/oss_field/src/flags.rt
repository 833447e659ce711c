//! Steps that read the state word of an entry.

ghost use Rattle.std.specs.Prelude.{◌≡◌, ◌<◌, length};
ghost use Rattle.oss_field.specs.Reading.{after_flags};
ghost use Rattle.oss_field.specs.Standing.{On, Stays};

use crate::places::state_place;
use crate::words::{Place, Words, read_word};
use std::marker::Brand;

/// The state word of an entry, in a field of so many cells.
pub(crate) fn read_flags(words: &Words, seat: &mut Place, cells: u32, entry: u32) -> u64
    requires on { On words.now.table_id words.now.key seat.old }
    requires cells { cells ≡ length words.now.key.code.value.first }
    requires inside { entry < words.now.key.entries }
    ensures stays { Stays seat.old seat.new }
    ensures known { seat.new.me.0.known ≡ after_flags cells entry result seat.old.me.0.known }
{
    read_word::<Brand>(words, seat, state_place(cells, entry), cells, entry)
}
