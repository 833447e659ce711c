//! Which tasks are awake, and who waits for whom: so that waiting tasks are not asked anew in each wave.
#![tactic(auto)]

mod aside;
mod growing;
mod resting;
mod rounds;
mod waking;
mod watch;

pub use watch::Watch;
