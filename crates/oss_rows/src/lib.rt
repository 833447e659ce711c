//! Rows of the entries of tasks, added one after the other: each knows where it is linked, by the last row on its site.
#![tactic(auto)]

mod book;
mod laws;

pub use book::{Book, NewRow};
pub use laws::{
    all_rows_are_of_state, cell_rows_are_added, grown_books_are_booked, new_books_are_of_none,
    task_rows_are_added, told_are_last,
};
