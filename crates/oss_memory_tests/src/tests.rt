//! Calls of the program, in ways of which no clause says that they happen. What is expected was worked out by hand.

mod calls;
mod failures;
mod gates;
mod largest;
mod planned;
mod workers;
