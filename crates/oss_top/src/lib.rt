//! The top call: it reads words and files, checks, runs and traces programs, replays schedules, tells how
//! parallel programs can be, audits them, explains their faults, draws their tasks, tells what their clauses lack,
//! runs generated ones, and tells what comes of it.
#![tactic(auto)]

mod audit;
mod explain;
mod found;
mod graph;
mod known;
mod laws;
mod missing;
mod replay;
mod reply;
mod run;
mod span;
mod status;
mod texts;
mod top;
mod trace;
mod waved;
mod worked;

pub use laws::{
    a_replay_has_one_reply, a_text_has_one_reply, a_text_is_drawn_in_one_way,
    a_text_is_explained_in_one_way, every_order_gives_the_reply, nothing_is_missing_exactly,
    what_is_missing_is_told_in_one_way,
};
pub use oss_command::{
    Command, DepsKind, Options, Replay, RunMode, Soak, WordsRefused, read_words,
};
pub use status::Status;
pub use top::{Sinks, nest6, unwaited};
