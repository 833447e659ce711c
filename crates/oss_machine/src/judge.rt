//! Who judges touches, and makes them.

ghost use Rattle.std.specs.Prelude.{◌≡◌, ℕ, Some};
ghost use Rattle.oss_machine.specs.Rushes.{meant_touch};

use crate::touch::Touch;

/// What the judge knows of a task whose machine rushes over this memory: whether a touch may happen, and what it
/// does.
pub trait Judge<M> {
    ghost use Rattle.std.specs.Prelude.{ℕ};
    ghost use Rattle.oss_model.specs.Bodies.{Ask};
    ghost use Rattle.oss_machine.specs.Frames.{CodeScript};

    /// What is asked for may happen, and finds this number.
    ghost may: { Self → M → Ask CodeScript → ℕ → Type 0 };
    /// What is asked for happens, and finds this number: judge and memory before it and after it.
    ghost does: { Self → M → Ask CodeScript → ℕ → Self → M → Type 0 };

    /// What the touch finds, if it may happen: a load the number in its cell, and every other touch 0. It takes no memory.
    fn find(&self, memory: &M, touch: Touch) -> Option<u64>
        ensures { (found : ℕ) → result ≡ Some found → may self.now memory.now (meant_touch touch) found };

    /// The touch happens, if it may. It takes no memory.
    fn happen(&mut self, memory: &mut M, touch: Touch)
        ensures { (found : ℕ) → may self.old memory.old (meant_touch touch) found →
            does self.old memory.old (meant_touch touch) found self.new memory.new };
}
