//! Who makes the parts of waves.

ghost use Rattle.std.specs.Prelude.{◌<◌};

use std::alloc::Global;

/// The parts of waves are made by at most so many workers, each on a thread of its own where one can be made;
/// the gate is passed before the first step of each task.
#[derive(Drop)]
pub(crate) struct Team<'a, R, G> {
    pub(crate) rt: &'a R,
    pub(crate) alloc: Global,
    pub(crate) gate: &'a G,
    pub(crate) workers: u32,
    pub(crate) ghost some: { 0 < workers },
}
