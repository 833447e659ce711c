//! Ticks, loads and stores of a task over the cells of memory, as its machine asks for them in a rush.
ghost use Rattle.std.specs.Prelude.{◌≡◌, ◌+◌, ℕ, None, Some};
ghost use Rattle.std.specs.Result.{result_err};
ghost use Rattle.oss_model.specs.Context.{tick_fault};

use crate::memory::{set, value_at, word};
use crate::place::Place;
use oss_machine::{Judge, Touch};
use oss_model::FaultKind;

impl Judge<Vec<u64>> for Place {
    ghost use Rattle.oss_body.specs.Touches.{IsMade, MayTouch};

    ghost may = { λ p cells ask v. MayTouch p cells.items ask v };

    ghost does = { λ p cells ask v q after. IsMade p cells ask v q after };

    #[inline(always)]
    fn find(&self, memory: &Vec<u64>, touch: Touch) -> Option<u64> {
        match touch {
            Touch::Tick => unless_fault(self.context.may_tick(), 0),
            Touch::Read(cell) => {
                let value = value_at(memory.as_slice(), cell);
                unless_fault(self.context.may_read(cell), value)
            }
            Touch::Write(cell, _) => {
                if self.context.is_written(cell) {
                    unless_fault(self.context.may_write(cell), 0)
                } else {
                    None
                }
            }
        }
    }

    #[inline(always)]
    fn happen(&mut self, memory: &mut Vec<u64>, touch: Touch) {
        match touch {
            Touch::Tick => self.count(),
            Touch::Read(_) => {}
            Touch::Write(cell, value) => set(memory.as_mut_slice(), cell, word(value)),
        }
    }
}

impl Place {
    /// Counts one more tick, if there is fuel for it.
    #[inline(always)]
    fn count(&mut self)
        ensures { tick_fault self.old.context ≡ None → self.new ≡ record self.old {
          context = record self.old.context
              { ticks = self.old.context.ticks + 1 };
        } }
    {
        match self.context.tick() {
            Ok(()) => {}
            Err(_) => {}
        }
    }
}

/// The value, unless the judge has found a fault.
#[inline(always)]
fn unless_fault(found: Result<(), FaultKind>, value: u64) -> Option<u64>
    ensures fault { (v : ℕ) → result ≡ Some v → result_err found ≡ None }
    ensures value { (v : ℕ) → result ≡ Some v → v ≡ value }
{
    match found {
        Ok(()) => Some(value),
        Err(_) => None,
    }
}
