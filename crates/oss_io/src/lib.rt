//! The outside: shelves that files are read from, sinks that text is written to, and gates that tasks pass
//! before they begin.
#![tactic(auto)]

mod files;
mod gate;
mod memory_shelf;
mod memory_sink;
mod shelf;
mod sink;
mod streams;

pub use files::FileShelf;
pub use gate::{Gate, NoGate};
pub use memory_shelf::MemoryShelf;
pub use memory_sink::MemorySink;
pub use shelf::{Shelf, ShelfFault};
pub use sink::{Sink, SinkFault, write_whole};
pub use streams::StdSink;
