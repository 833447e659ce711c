//! Bounds of codes: the code of a program of a text has its places and depths in numbers of 32 bits.
#![tactic(auto)]

mod laws;

pub use laws::{
    codes_are_short, no_task_loop_is_left, places_are_counted, places_are_short, scopes_agree,
    scopes_are_counted, statements_are_written, task_entries_fit, texts_are_small,
    texts_fit_numbers, ways_stay_inside,
};
