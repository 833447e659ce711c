//! Why a section has no cells to tell: it has a fault, or memory is wanting.
ghost use Rattle.std.specs.Prelude.{◌≡◌};
ghost use Rattle.oss_sections.specs.declared.refused.SectionRefused.TheVariants.{Memory};

use oss_syntax::FaultKind;
use std::alloc::AllocError;
use thiserror::Error;

/// Why the cells of a section are not told.
#[derive(Debug, Drop, Error)]
pub enum SectionRefused {
    /// The section has this fault.
    #[error("the section has a fault")]
    Fault(FaultKind),
    /// Memory is wanting.
    #[error("out of memory")]
    Memory(AllocError),
}

impl From<AllocError> for SectionRefused {
    ghost from_gives = { λ full refused. refused ≡ Memory full };

    fn from(full: AllocError) -> SectionRefused {
        SectionRefused::Memory(full)
    }
}
