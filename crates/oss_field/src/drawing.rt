//! Steps on the draw word.

ghost use Rattle.std.specs.Prelude.{◌≡◌, ◌≤◌};
ghost use Rattle.oss_field.specs.Drawing.{IsDrawn};
ghost use Rattle.oss_field.specs.Standing.{On, Stays};

use crate::words::{Place, Words, add_word};
use std::marker::Brand;

/// Draws so many entries, in a field of so many: the word as it was.
pub(crate) fn add_draw(words: &Words, seat: &mut Place, entries: u32, count: u32) -> u64
    requires on { On words.now.table_id words.now.key seat.old }
    requires entries { (entries ≡ words.now.key.entries) × (entries ≤ 16777216) }
    requires first { seat.old.me.0.known.words.failed ≡ 0 }
    requires most { count ≤ 16777216 }
    ensures stays { Stays seat.old seat.new }
    ensures drawn { IsDrawn entries count result seat.old.me.0.known seat.new.me.0.known }
{
    add_word::<Brand>(words, seat, 0, count as u64, entries, count)
}
