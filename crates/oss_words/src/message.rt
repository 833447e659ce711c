//! Messages between entries: each sets one flag whose condition has come to hold.

/// A flag to be set on an entry. Flags are numbered in the order in which they are delivered at one depth: 0
/// the join of a reduction, 1 done, 2 may be joined, 3 may read, 4 may write, 5 nothing before it. They stand
/// for the places of a table.
#[derive(Clone, Copy, Default)]
pub struct Message {
    /// The entry on which the flag is set.
    pub entry: u32,
    /// The flag's place in the order, 0 to 5.
    pub flag: u8,
}
