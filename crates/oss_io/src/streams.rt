//! Standard output and error, and other writers of the system, as sinks.
ghost use Rattle.std.specs.Prelude.{◌≡◌, ◌+◌, ◌-◌, ◌^◌, ◌<◌, ◌≤◌, min, [], None, length, take, IfOk, OnOk, OnErr};
ghost use Rattle.std.specs.Io.KnownBytes.{Appends, Keeps};
ghost use Rattle.oss_io.specs.Faults.{Rises};

use crate::{Sink, SinkFault};
use std::io::{ErrorKind, Write};
use std::marker::Model;

/// A writer of the system as a sink. No contract tells what the writer has taken: it sees the sink as its count of
/// faults.
#[derive(Drop)]
pub struct StdSink<W: Write + Drop> {
    out: W,
    faults: u64,
}

impl<W: Write + Drop> Model for StdSink<W> {
    ghost use Rattle.std.specs.Prelude.{ℕ};

    ghost Value = { ℕ };

    ghost view = { λ sink. sink.faults };
}

impl<W: Write + Drop> StdSink<W> {
    /// The sink of this writer, without a fault.
    pub fn new(out: W) -> StdSink<W>
        ensures { result ≡ 0 }
    {
        StdSink { out, faults: 0 }
    }
}

/// One write, again where a signal has cut it off. A writer that takes nothing of a piece that is not empty has failed.
fn write_piece<W: Write>(out: &mut W, bytes: &[u8]) -> Result<usize, SinkFault>
    requires { 0 < length bytes.now }
    ensures bytes { IfOk result (λ count.
        Appends (W.contents out.old) (W.contents out.new) (take count bytes.now)) }
    ensures within { IfOk result (λ count. count ≤ length bytes.now) }
    ensures some { IfOk result (λ count. 0 < count) }
    ensures err { OnErr result (Keeps (W.contents out.old) (W.contents out.new)) }
{
    for _ in 0..u64::MAX {
        match out.write(bytes) {
            Ok(0) => return Err(SinkFault::Failed),
            Ok(count) => return Ok(count),
            Err(error) if error.kind() == ErrorKind::Interrupted => {}
            Err(_) => return Err(SinkFault::Failed),
        }
    }
    Err(SinkFault::Failed)
}

/// All that the sink does with a piece: it takes some of it, or counts a fault. An empty piece is taken without
/// a call of the writer.
fn write_counted<W: Write>(out: &mut W, bytes: &[u8], faults: &mut u64) -> Result<usize, SinkFault>
    ensures taken { IfOk result (λ count.
        Appends (W.contents out.old) (W.contents out.new) (take count bytes.now)) }
    ensures within { IfOk result (λ count. count ≤ length bytes.now) }
    ensures some { IfOk result (λ count. 0 < length bytes.now → 0 < count) }
    ensures nothing { bytes.now ≡ [] → result ≡ Ok 0 }
    ensures count { OnOk result (faults.new ≡ faults.old) }
    ensures failed { OnErr result (Keeps (W.contents out.old) (W.contents out.new)) }
    ensures cause { OnErr result (Rises faults.old faults.new) }
    ensures once { OnErr result (faults.new ≡ min (faults.old + 1) (2 ^ 64 - 1)) }
{
    if bytes.is_empty() {
        return Ok(0);
    }
    let result = write_piece(out, bytes);
    if result.is_err() {
        *faults = faults.saturating_add(1);
    }
    result
}

impl<W: Write + Drop> Sink for StdSink<W> {
    ghost taken = { λ _. None };

    ghost faults = { λ sink. sink };

    /// A writer that fails, or takes nothing of a piece that is not empty, is a fault.
    fn write(&mut self, bytes: &[u8]) -> Result<usize, SinkFault> {
        write_counted(&mut self.out, bytes, &mut self.faults)
    }
}

#[cfg(test)]
mod tests {
    use super::*;
    use crate::write_whole;
    use std::fs;
    use std::fs::File;
    use std::test::Fail;

    #[test]
    fn a_writer_takes_the_text_or_fails(rt: HostRuntime) -> Result<(), Fail> {
        let mut sink = StdSink::new(File::create(&rt, "sink_file.txt")?);
        assert_eq!(rt; write_whole(&mut sink, b"text"), Ok(()));
        assert_eq!(rt; sink.write(b""), Ok(0));
        assert_eq!(rt; sink.faults, 0);
        let text = fs::read_to_string(&rt, "sink_file.txt")?;
        assert_eq!(rt; text.as_str(), "text");

        // A file that is open for reading alone takes nothing.
        let mut sink = StdSink::new(File::open(&rt, "sink_file.txt")?);
        assert_eq!(rt; write_whole(&mut sink, b"more"), Err(SinkFault::Failed));
        assert_eq!(rt; sink.faults, 1);
        fs::remove_file(&rt, "sink_file.txt")?;
        Ok(())
    }
}
