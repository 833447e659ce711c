//! Each call on a net of few entries, with the words that it must leave, worked by hand from the bits; and
//! threads that give up entries at once.

mod rows;
mod threads;
mod words;
