//! What is asked for of a generated program.

ghost use Rattle.std.specs.Prelude.{◌≤◌};

use crate::options::Options;

/// The program that is generated from a number on, and how it is run.
#[derive(Clone, Copy)]
pub struct Soak {
    /// The number from which it is generated; only its last 8 bits count.
    pub number: u64,
    /// How many tasks its main creates, 1 to 9,000.
    pub size: u32,
    /// The options of its run. Its tasks have fuel for 1,000,000 ticks each, and there is no dump.
    pub options: Options,
    ghost some: { 1 ≤ size },
    ghost most: { size ≤ 9000 },
}
