//! What runs of tasks mean: the definitions of rights, bodies, moves and answers, and the laws of every interleaving.
#![tactic(auto)]

mod answer;
mod cell;
pub mod laws;
mod moving;
mod numbers;
mod point;
mod task_no;

pub use answer::Answer;
pub use cell::range_of;
pub use moving::Move;
pub use oss_syntax::{FaultKind, Refusal, Refused, RefusedKind};
pub use point::{Point, point_text, read_point};
pub use task_no::TaskNo;
