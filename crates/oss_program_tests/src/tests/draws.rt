//! Numbers drawn one after the other, the same in each run of a test.

ghost use Rattle.std.specs.Prelude.{◌<◌};

/// A linear generator over 64 bits, of which the upper ones are drawn.
#[derive(Drop)]
pub(crate) struct Draws {
    state: u64,
}

impl Draws {
    /// The draws that begin with this seed.
    pub(crate) fn new(seed: u64) -> Draws {
        Draws { state: seed }
    }

    /// A number below this one.
    pub(crate) fn below(&mut self, most: usize) -> usize
        requires { 0 < most }
        ensures { result < most }
    {
        self.state = self
            .state
            .wrapping_mul(6_364_136_223_846_793_005)
            .wrapping_add(1_442_695_040_888_963_407);
        let drawn = (self.state >> 33) as usize;
        drawn % most
    }
}
