//! Code: the instructions that bodies run, and what makes a list of them a code.
#![tactic(auto)]

mod code;
mod compact;
mod global;
mod instr;
mod joining;
mod order;
mod rooms;
mod sound;
mod ways;

pub use code::{Code, CodeParts};
pub use compact::Compact;
pub use global::GlobalPlace;
pub use instr::{Direction, Indices, Instr, Operator, PartForm, SectionBase, SectionForm};
pub use order::TaskOrder;
pub use oss_meaning::{Declared, Value};
pub use rooms::room_at;
pub use ways::{Entry, Way, Ways};
