//! Schedules as texts: the moves of a machine, one a line, and the text of the waves in which a run made them.
#![tactic(auto)]

mod cuts;
mod laws;
mod line;
mod moves;
mod numbers;
mod reader;
mod refused;
mod told;
mod writer;

pub use laws::{a_schedule_has_one_reading, a_trace_is_a_schedule};
pub use moves::{TextMove, WaveRecord};
pub use numbers::number_within;
pub use oss_model::Point;
pub use reader::read_schedule;
pub use refused::ScheduleRefused;
pub use writer::schedule_text;
