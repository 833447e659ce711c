//! A crew of workers: they take ready numbers from one queue, sleep while there are none, and go home when nothing is left to do.
#![tactic(auto)]

mod crew;
mod queue;
mod roster;
mod shift;
mod work;

pub use crew::run_crew;
pub use shift::{Ending, News, Shift, Stretch};
