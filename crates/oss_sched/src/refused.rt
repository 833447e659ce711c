//! Why a schedule is not read: a line of it is wrong, or memory is wanting.
ghost use Rattle.std.specs.Prelude.{◌≡◌};
ghost use Rattle.oss_sched.specs.declared.refused.ScheduleRefused.TheVariants.{Memory};

use std::alloc::AllocError;
use thiserror::Error;

/// Why a schedule was not read.
#[derive(Debug, Drop, Error)]
pub enum ScheduleRefused {
    /// The line with this number, counted from 1, is the first that is none of a schedule.
    #[error("a line of the schedule is wrong")]
    Line(u32),
    /// Memory is wanting, which says nothing of the text.
    #[error("out of memory")]
    Memory(AllocError),
}

impl From<AllocError> for ScheduleRefused {
    ghost from_gives = { λ full refused. refused ≡ Memory full };

    fn from(full: AllocError) -> ScheduleRefused {
        ScheduleRefused::Memory(full)
    }
}
