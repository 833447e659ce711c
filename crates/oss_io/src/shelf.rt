//! Shelves: where files are read from, by their names, and why one is not read.
ghost use Rattle.std.specs.Prelude.{◌≡◌, ◌≢◌, ℕ, ◌<◌, ◌≤◌, List, [], Option, length, OnOk, OnErr, IfSome};
ghost use Rattle.oss_io.specs.Faults.{Rises};

use std::alloc::AllocError;
use thiserror::Error;

/// Why a file was not read.
#[derive(Debug, Drop, PartialEq, Eq, Error)]
pub enum ShelfFault {
    /// The outside failed, and the shelf has counted the fault.
    #[error("the file cannot be read")]
    Failed,
    /// The file has more bytes than the caller takes.
    #[error("the file is too long")]
    TooLong,
    /// Memory is wanting.
    #[error("out of memory")]
    Memory(AllocError),
}

/// What files are read from, by their names. It counts its faults; the count never falls, and stays at `u64::MAX`.
pub trait Shelf {
    /// The bytes kept under a name, where the shelf tells them and there is such a name.
    ghost held: { Self → List ℕ → Option (List ℕ) };

    /// How often the outside has failed.
    ghost faults: { Self → ℕ };

    /// The name at which it failed last.
    ghost last: { Self → List ℕ };

    /// Reads the whole file of this name, if it has at most `limit` bytes, into a vector that is empty. After each
    /// `Err` the vector is empty again. `Memory` is free; each other answer has its cause.
    fn read(&mut self, name: &str, limit: usize, into: &mut Vec<u8>) -> Result<(), ShelfFault>
        requires { into.old.items ≡ [] }

        ensures whole { OnOk result (IfSome (held self.old name.now) (λ bytes. into.new.items ≡ bytes)) }
        ensures within { OnOk result (length into.new.items ≤ limit) }
        ensures empty { OnErr result (into.new.items ≡ []) }

        // No read changes what the shelf keeps.
        ensures same { (other : List ℕ) → held self.new other ≡ held self.old other }

        // Only a failure counts, and it leaves its name.
        ensures failed { result ≡ Err ShelfFault.Failed
            → Rises (faults self.old) (faults self.new) × (last self.new ≡ name.now) }
        ensures count { result ≢ Err ShelfFault.Failed
            → (faults self.new ≡ faults self.old) × (last self.new ≡ last self.old) }

        // With `within` this is exact: a file within the limit is not too long, and a longer one is not `Ok`.
        ensures too_long { result ≡ Err ShelfFault.TooLong
            → IfSome (held self.old name.now) (λ bytes. limit < length bytes) };
}
