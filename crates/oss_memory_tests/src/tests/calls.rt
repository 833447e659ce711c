//! Calls of the program over shelves and sinks in memory, and what they tell.

ghost use Rattle.std.specs.Prelude.{◌<◌};

use oss_io::{MemoryShelf, MemorySink, NoGate};
use oss_top::{Sinks, nest6};
use std::alloc::{AllocError, Global};
use std::sync::Wait;
use std::thread::Threads;

/// The options of a run in each mode, and by waves over each dependency system.
pub(crate) const MODES: &[&[&str]] = &[
    &["--mode=serial"],
    &["--deps=plain"],
    &["--deps=regions"],
    &["--deps=words"],
    &["--mode=workers", "--workers=1"],
];

/// A task that writes a cell, one that reads it, and a wait for both.
pub(crate) const FLOW: &str = "long x, y;
int main() {
#pragma oss task out(x)
  x = 5;
#pragma oss task in(x) out(y)
  y = x + 1;
#pragma oss taskwait
  printf(\"%ld\\n\", y);
}
";

/// What the top call did: its status, and what the sinks hold.
#[derive(Drop)]
pub(crate) struct Told {
    status: u8,
    sinks: Sinks<MemorySink, MemorySink>,
}

impl Told {
    /// Whether the call ended with this status and these texts.
    pub(crate) fn is(&self, status: u8, out: &str, err: &str) -> bool {
        self.status == status
            && self.sinks.out.bytes() == out.as_bytes()
            && self.sinks.err.bytes() == err.as_bytes()
    }
}

/// A shelf that keeps this text as `p.c`.
pub(crate) fn shelf_with(alloc: Global, text: &str) -> Result<MemoryShelf, AllocError> {
    let mut shelf = MemoryShelf::new(alloc);
    shelf.put("p.c", text.as_bytes())?;
    Ok(shelf)
}

/// One call of the program with these words and these more, where each task passes the gate at once.
pub(crate) fn call<R: Threads + Wait + Sync>(
    rt: &R,
    alloc: Global,
    words: &[&str],
    more: &[&str],
    mut shelf: MemoryShelf,
    mut sinks: Sinks<MemorySink, MemorySink>,
) -> Result<Told, AllocError> {
    let mut given = Vec::new(alloc);
    for word in words.iter().chain(more) {
        given.push(String::from_str(alloc, word)?)?;
    }
    let status = nest6(rt, alloc, given.as_slice(), &mut shelf, &mut sinks, &NoGate);
    Ok(Told { status, sinks })
}

/// A sink that does not fail: it has room for all that these programs tell.
pub(crate) fn sink(alloc: Global) -> Result<MemorySink, AllocError> {
    MemorySink::new(alloc, 4096)
}

/// Two sinks that do not fail.
pub(crate) fn sinks(alloc: Global) -> Result<Sinks<MemorySink, MemorySink>, AllocError> {
    Ok(Sinks {
        out: sink(alloc)?,
        err: sink(alloc)?,
    })
}

/// A sink that takes pieces of this size and fails at this call.
pub(crate) fn failing_sink(alloc: Global, piece: usize, at: u32) -> Result<MemorySink, AllocError>
    requires { 0 < piece }
{
    let mut sink = sink(alloc)?;
    sink.set_piece(piece);
    sink.fail_at(at)?;
    Ok(sink)
}
