//! The task machine: bodies, their tree, a dependency system and memory, moved by exactly the moves of the definitions.
#![tactic(auto)]

mod acting;
mod answering;
mod creating;
mod fault;
mod giving;
mod happening;
mod hindrance;
mod laws;
mod machine;
mod ordering;
mod parts;
mod passing;
mod putting;
mod ranges_given;
mod retelling;
mod steppers;
mod stepping;
mod told;
mod turns;
mod waving;

pub use fault::ApplyFault;
pub use laws::{core_moves_fall, core_passes_fall, core_rounds_fall, core_waves_fall};
pub use machine::Core;
pub use parts::CoreParts;
pub use passing::Passed;
pub use turns::Turn;
pub use waving::Lent;
