//! A table of access words, counts, cells and jobs, which many threads share: whatever they do, it stands for one
//! state of the machine.
#![tactic(auto)]

mod adding;
mod cells;
mod closing;
mod combining;
mod delivering;
mod drawing;
mod field;
mod flags;
mod folding;
mod giving;
mod hanging;
mod held;
mod holding;
mod key;
pub mod laws;
mod leaving;
mod leaving_words;
pub mod link_laws;
mod linking;
mod linking_words;
mod making;
mod making_words;
mod masks;
mod places;
mod rule;
mod seat;
mod seats;
mod slots;
mod start;
mod touched;
mod view;
mod words;

pub use closing::FieldParts;
pub use field::Field;
pub use seat::FieldSeat;
pub use touched::Touched;
