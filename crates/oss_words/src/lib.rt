//! One word of flags and links for each access of a task to a cell, the messages that set the flags, and the
//! rule that holds between any two steps of many threads.
#![tactic(auto)]

mod entry;
pub mod laws;
mod message;
mod sending;
pub mod word_laws;
mod words;

pub use entry::{After, EntryInfo, EntryState};
pub use message::Message;
pub use sending::{Messages, send, sent_is_posted};
pub use words::{
    flags_are_bits, info_of, info_words_are_read, infos_are_read, state_of, state_words_are_read,
    states_are_read, word_of_info, word_of_state,
};
