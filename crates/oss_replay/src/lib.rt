//! Schedules are replayed on the task machine.
#![tactic(auto)]

mod laws;
mod making;
mod parts;
mod playing;
mod replayed;

pub use laws::{a_replay_has_one_end, an_answered_replay_is_the_run};
pub use playing::replay;
pub use replayed::Replayed;
