//! Sinks: where text is written to, which may take it in pieces, and why it is not written.
ghost use Rattle.std.specs.Prelude.{◌≡◌, ℕ, ◌<◌, ◌≤◌, List, [], Option, length, take, IfOk, OnOk, OnErr};
ghost use Rattle.std.specs.Io.KnownBytes.{append_known};
ghost use Rattle.oss_io.specs.Faults.{Rises};

use thiserror::Error;

/// Why bytes were not written.
#[derive(Clone, Copy, Debug, PartialEq, Eq, Error)]
pub enum SinkFault {
    /// The outside failed, or took nothing, and the sink has counted the fault.
    #[error("the text cannot be written")]
    Failed,
}

/// What text is written to. It counts its faults; the count never falls, and stays at `u64::MAX`.
pub trait Sink {
    /// The bytes taken so far, where the sink tells them.
    ghost taken: { Self → Option (List ℕ) };

    /// How often the outside has failed.
    ghost faults: { Self → ℕ };

    /// Takes some bytes from the front of a piece, and tells how many: at least one of a piece that is not empty. After
    /// `Failed` it has taken none.
    fn write(&mut self, bytes: &[u8]) -> Result<usize, SinkFault>
        ensures taken { IfOk result (λ count.
            taken self.new ≡ append_known (taken self.old) (take count bytes.now)) }
        ensures within { IfOk result (λ count. count ≤ length bytes.now) }
        ensures some { IfOk result (λ count. 0 < length bytes.now → 0 < count) }
        ensures nothing { bytes.now ≡ [] → result ≡ Ok 0 }
        ensures count { OnOk result (faults self.new ≡ faults self.old) }

        ensures failed { OnErr result (taken self.new ≡ taken self.old) }
        ensures cause { OnErr result (Rises (faults self.old) (faults self.new)) };
}

/// Writes all the bytes, piece by piece. After `Failed` the sink has taken those before the piece that failed.
/// It takes no memory.
#[tactic(auto, using(crate::proofs::Pieces::fronts))]
pub fn write_whole<K: Sink>(sink: &mut K, bytes: &[u8]) -> Result<(), SinkFault>
    ensures whole { OnOk result (K.taken sink.new ≡ append_known (K.taken sink.old) bytes.now) }
    ensures count { OnOk result (K.faults sink.new ≡ K.faults sink.old) }
    ensures prefix { OnErr result ((count : ℕ) × (count < length bytes.now)
        × (K.taken sink.new ≡ append_known (K.taken sink.old) (take count bytes.now))) }
    ensures cause { OnErr result (Rises (K.faults sink.old) (K.faults sink.new)) }
{
    let mut done = 0;
    while done < bytes.len() {
        let (_, rest) = bytes.split_at(done);
        match sink.write(rest) {
            Ok(count) => done += count,
            Err(fault) => return Err(fault),
        }
    }
    Ok(())
}
