//! A sink in memory, for tests: how much it takes and when it fails is planned.
ghost use Rattle.std.specs.Prelude.{◌≡◌, ◌+◌, ◌-◌, ◌^◌, ◌<◌, ◌≤◌, min, [], ◌∷◌, ◌++◌, length, take, IfOk, OnOk, OnErr};
ghost use Rattle.std.specs.Io.KnownBytes.{append_known};
ghost use Rattle.oss_io.specs.Faults.{Rises};
ghost use Rattle.oss_io.specs.Plan.{next_call};
ghost use Rattle.oss_io.specs.SinkView.{answer_of};

use crate::{Sink, SinkFault};
use std::alloc::{AllocError, Global};
use std::marker::Model;

/// The bytes written, in memory that is taken when it is made, and calls that are to fail. A contract sees it as a
/// `SinkView`.
#[derive(Drop)]
pub struct MemorySink {
    bytes: Vec<u8>,
    room: usize,
    piece: usize,
    planned: Vec<u32>,
    calls: u32,
    faults: u64,
}

impl Model for MemorySink {
    ghost use Rattle.std.specs.Prelude.{◌<◌, ◌≤◌, vec_len, vec_capacity};
    ghost use Rattle.oss_io.specs.SinkView.{SinkView};

    ghost Value = { SinkView };

    ghost view = { λ sink. record {
      bytes = sink.bytes.items;
      room = sink.room;
      piece = sink.piece;
      planned = sink.planned.items;
      calls = sink.calls;
      faults = sink.faults;
    } };

    ghost invariant = { λ sink. (vec_len sink.bytes ≤ sink.room) × (sink.room ≤ vec_capacity sink.bytes)
        × (0 < sink.piece) };
}

impl MemorySink {
    /// An empty sink with room for this many bytes, that takes pieces of any size and fails at no call.
    pub fn new(alloc: Global, room: usize) -> Result<MemorySink, AllocError>
        ensures { IfOk result (λ sink. sink ≡ record {
          bytes = [];
          room = room;
          piece = 2 ^ 64 - 1;
          planned = [];
          calls = 0;
          faults = 0;
        }) }
    {
        let bytes = Vec::with_capacity(alloc, room)?;
        Ok(MemorySink {
            bytes,
            room,
            piece: usize::MAX,
            planned: Vec::new(alloc),
            calls: 0,
            faults: 0,
        })
    }

    /// Lets the call of this number fail, where calls of `write` are counted from 1. Where memory is wanting the sink
    /// stays.
    pub fn fail_at(&mut self, call: u32) -> Result<(), AllocError>
        ensures ok { OnOk result (self.new ≡ record self.old { planned = self.old.planned ++ call ∷ [] }) }
        ensures err { OnErr result (self.new ≡ self.old) }
    {
        self.planned.push(call)?;
        Ok(())
    }

    /// Lets each later call take at most this many bytes.
    pub fn set_piece(&mut self, most: usize)
        requires { 1 ≤ most }
        ensures { self.new ≡ record self.old { piece = most } }
    {
        self.piece = most;
    }

    /// The bytes taken so far.
    pub fn bytes(&self) -> &[u8]
        ensures { result.now ≡ self.now.bytes }
    {
        self.bytes.as_slice()
    }
}

impl Sink for MemorySink {
    ghost use Rattle.std.specs.Prelude.{Some};

    ghost taken = { λ sink. Some sink.bytes };

    ghost faults = { λ sink. sink.faults };

    /// A planned call fails, and so does one without room, unless its piece is empty.
    fn write(&mut self, bytes: &[u8]) -> Result<usize, SinkFault>
        // What the trait says.
        ensures taken { IfOk result (λ count.
            Some self.new.bytes ≡ append_known (Some self.old.bytes) (take count bytes.now)) }
        ensures within { IfOk result (λ count. count ≤ length bytes.now) }
        ensures some { IfOk result (λ count. 0 < length bytes.now → 0 < count) }
        ensures nothing { bytes.now ≡ [] → result ≡ Ok 0 }
        ensures count { OnOk result (self.new.faults ≡ self.old.faults) }
        ensures failed { OnErr result (Some self.new.bytes ≡ Some self.old.bytes) }
        ensures cause { OnErr result (Rises self.old.faults self.new.faults) }

        // What it answers, and what the sink is afterwards.
        ensures answer { result ≡ answer_of self.old bytes.now }
        ensures ok { IfOk result (λ count. self.new ≡ record self.old {
          bytes = self.old.bytes ++ take count bytes.now;
          calls = next_call self.old.calls;
        }) }
        ensures err { OnErr result (self.new ≡ record self.old {
          calls = next_call self.old.calls;
          faults = min (self.old.faults + 1) (2 ^ 64 - 1);
        }) }
    {
        self.calls = self.calls.saturating_add(1);
        if bytes.is_empty() {
            return Ok(0);
        }
        let room = self.room - self.bytes.len();
        let count = bytes.len().min(self.piece).min(room);
        if count == 0 || self.planned.contains(&self.calls) {
            self.faults = self.faults.saturating_add(1);
            return Err(SinkFault::Failed);
        }
        self.bytes.extend_from_slice(&bytes[..count]).unwrap();
        Ok(count)
    }
}

#[cfg(test)]
mod tests {
    use super::*;
    use crate::write_whole;
    use std::test::Fail;

    #[test]
    fn pieces_of_one_byte_make_the_whole(rt: HostRuntime) -> Result<(), Fail> {
        let mut sink = MemorySink::new(rt.alloc(), 9)?;
        sink.set_piece(1);
        assert_eq!(rt; sink.write(b"abc"), Ok(1));
        assert_eq!(rt; sink.write(b""), Ok(0));
        assert_eq!(rt; write_whole(&mut sink, b"bc"), Ok(()));
        assert_eq!(rt; sink.bytes(), b"abc".as_slice());
        assert_eq!(rt; sink.faults, 0);
        Ok(())
    }

    #[test]
    fn a_failing_second_write_leaves_a_prefix(rt: HostRuntime) -> Result<(), Fail> {
        let mut sink = MemorySink::new(rt.alloc(), 9)?;
        sink.set_piece(1);
        sink.fail_at(2)?;
        assert_eq!(rt; write_whole(&mut sink, b"abc"), Err(SinkFault::Failed));
        assert_eq!(rt; sink.bytes(), b"a".as_slice());
        assert_eq!(rt; sink.faults, 1);
        Ok(())
    }

    #[test]
    fn without_room_only_an_empty_piece_is_taken(rt: HostRuntime) -> Result<(), Fail> {
        let mut sink = MemorySink::new(rt.alloc(), 2)?;
        assert_eq!(rt; sink.write(b"abc"), Ok(2));
        assert_eq!(rt; sink.write(b""), Ok(0));
        assert_eq!(rt; sink.faults, 0);
        assert_eq!(rt; sink.write(b"c"), Err(SinkFault::Failed));
        assert_eq!(rt; sink.bytes(), b"ab".as_slice());
        assert_eq!(rt; sink.faults, 1);
        Ok(())
    }
}
