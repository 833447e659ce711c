//! What the last delivery of a seat touched.

ghost use Rattle.std.specs.Prelude.{◌≡◌};
ghost use Rattle.oss_words.specs.Bits.{info_at};

use oss_words::{EntryInfo, info_of};

/// What the last delivery of a seat touched.
#[derive(Clone, Copy, Drop)]
pub struct Touched {
    /// The entry whose flag it set, or whose value it joined, and 0 before the first delivery.
    pub entry: u32,
    /// The entry's state word after it.
    pub state: u64,
    /// The entry's info word.
    pub info: u64,
}

impl Touched {
    /// What the info word tells, as `Field::peek_info` tells it of any entry.
    pub fn entry_info(&self) -> EntryInfo
        ensures { result ≡ info_at self.now.info }
    {
        info_of(self.info)
    }
}
