//! Why a move is not made: callers tell a move that is not enabled from want of memory, after which the run is
//! given up.

ghost use Rattle.std.specs.Prelude.{◌≡◌};
ghost use Rattle.oss_core.specs.declared.fault.ApplyFault.TheVariants as faults;

use std::alloc::AllocError;
use thiserror::Error;

/// Why a move was not made.
#[derive(Debug, Drop, Error)]
pub enum ApplyFault {
    /// It may not be made now, and nothing has changed.
    #[error("the move is not enabled")]
    NotNow,
    /// Memory is wanting: the run is given up.
    #[error("memory is wanting")]
    Memory(AllocError),
}

impl From<AllocError> for ApplyFault {
    ghost from_gives = { λ full fault. fault ≡ faults.Memory full };

    fn from(full: AllocError) -> ApplyFault {
        ApplyFault::Memory(full)
    }
}
