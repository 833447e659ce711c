//! The files of the system, as a shelf.
ghost use Rattle.std.specs.Prelude.{◌≡◌, ◌≢◌, ℕ, ◌+◌, ◌-◌, ◌^◌, ◌<◌, ◌≤◌, min, List, [], ◌++◌, None, length, take, IfOk, IfSome, OnOk, OnErr, string_bytes};
ghost use Rattle.std.specs.Io.{ReadsAtMost};
ghost use Rattle.std.specs.Io.KnownBytes.{Consumes, IsAtEnd};
ghost use Rattle.oss_io.specs.Faults.{Rises};
ghost use Rattle.oss_io.specs.Opened.{OfOpened};

use crate::{Shelf, ShelfFault};
use std::alloc::Global;
use std::fs::File;
use std::io::{self, ErrorKind, Read};
use std::marker::Model;
use std::rt::Files;

/// How many bytes are asked of a file at once.
const PIECE: usize = 4096;

/// The files of the system, under their paths. No contract tells what they hold: it sees the shelf as its count of
/// faults and the name of the last.
#[derive(Drop)]
pub struct FileShelf<'a, R: Files> {
    alloc: Global,
    files: &'a R,
    faults: FaultRecord,
}

impl<'a, R: Files> Model for FileShelf<'a, R> {
    ghost use Rattle.std.specs.Prelude.{List, ℕ};

    ghost Value = { ℕ × List ℕ };

    ghost view = { λ shelf. shelf.faults };
}

impl<'a, R: Files> FileShelf<'a, R> {
    /// The shelf of these files, without a fault. It takes no memory.
    pub fn new(alloc: Global, files: &'a R) -> FileShelf<'a, R>
        ensures { result ≡ (0, []) }
    {
        FileShelf {
            alloc,
            files,
            faults: FaultRecord {
                count: 0,
                last: String::new(alloc),
            },
        }
    }
}

/// How often the outside has failed, and the name at which it failed last.
#[derive(Drop)]
struct FaultRecord {
    count: u64,
    last: String,
}

impl Model for FaultRecord {
    ghost use Rattle.std.specs.Prelude.{List, ℕ, string_bytes};

    ghost Value = { ℕ × List ℕ };

    ghost view = { λ faults. (faults.count, string_bytes faults.last) };
}

impl FaultRecord {
    /// Counts one more fault, of this name, for which the caller has taken room. It takes no memory.
    fn note(&mut self, name: String)
        ensures rises { Rises self.old.0 self.new.0 }
        ensures once { self.new.0 ≡ min (self.old.0 + 1) (2 ^ 64 - 1) }
        ensures last { self.new.1 ≡ string_bytes name }
    {
        self.count = self.count.saturating_add(1);
        self.last = name;
    }
}

/// One read, again where a signal has cut it off.
fn read_piece<F: Read>(file: &mut F, piece: &mut [u8]) -> Result<usize, ShelfFault>
    ensures within { ReadsAtMost result piece.new }
    ensures bytes { IfOk result (λ count.
        Consumes (F.remaining file.old) (F.remaining file.new) (take count piece.new)) }
    ensures end { IfOk result (λ count. count ≡ 0 → 0 < length piece.old → IsAtEnd (F.remaining file.new)) }
    ensures failed { OnErr result (result ≡ Err ShelfFault.Failed) }
{
    for _ in 0..u64::MAX {
        match file.read(piece) {
            Ok(count) => return Ok(count),
            Err(error) if error.kind() == ErrorKind::Interrupted => {}
            Err(_) => return Err(ShelfFault::Failed),
        }
    }
    Err(ShelfFault::Failed)
}

/// Reads to the end of a file. Where it fails, some of the bytes may be there.
fn read_whole<F: Read>(file: &mut F, limit: usize, into: &mut Vec<u8>) -> Result<(), ShelfFault>
    requires { into.old.items ≡ [] }
    ensures whole { OnOk result (IfSome (F.remaining file.old) (λ bytes. into.new.items ≡ bytes)) }
    ensures within { OnOk result (length into.new.items ≤ limit) }
    ensures too_long { result ≡ Err ShelfFault.TooLong
        → IfSome (F.remaining file.old) (λ bytes. limit < length bytes) }
{
    let mut piece = [0; PIECE];
    for _ in 0..u64::MAX {
        let count = read_piece(file, &mut piece)?;
        if count == 0 {
            return Ok(());
        }
        if count > limit - into.len() {
            return Err(ShelfFault::TooLong);
        }
        into.extend_from_slice(&piece[..count])
            .map_err(ShelfFault::Memory)?;
    }
    Err(ShelfFault::Failed)
}

/// Reads what was opened under a name, or tells that it was not opened. Room for the name of a fault is taken first, so
/// that no fault lacks its name.
fn read_opened<F: Read + Drop>(
    alloc: Global,
    name: &str,
    opened: io::Result<F>,
    limit: usize,
    into: &mut Vec<u8>,
    faults: &mut FaultRecord,
) -> Result<(), ShelfFault>
    requires { into.old.items ≡ [] }
    ensures whole { OnOk result (OfOpened opened (λ file. IfSome (F.remaining file) (λ bytes. into.new.items ≡
        bytes))) }
    ensures within { OnOk result (length into.new.items ≤ limit) }
    ensures empty { OnErr result (into.new.items ≡ []) }
    ensures failed { result ≡ Err ShelfFault.Failed
        → Rises faults.old.0 faults.new.0 × (faults.new.1 ≡ name.now) }
    ensures once { result ≡ Err ShelfFault.Failed → faults.new.0 ≡ min (faults.old.0 + 1) (2 ^ 64 - 1) }
    ensures count { result ≢ Err ShelfFault.Failed → faults.new ≡ faults.old }
    ensures too_long { result ≡ Err ShelfFault.TooLong
        → OfOpened opened (λ file. IfSome (F.remaining file) (λ bytes. limit < length bytes)) }
{
    let noted = String::from_str(alloc, name).map_err(ShelfFault::Memory)?;
    match read_if_opened(opened, limit, into) {
        Ok(()) => Ok(()),
        Err(fault) => {
            into.clear();
            if let ShelfFault::Failed = fault {
                faults.note(noted);
            }
            Err(fault)
        }
    }
}

/// Reads to the end of what was opened. Where it fails, some of the bytes may be there.
fn read_if_opened<F: Read + Drop>(
    opened: io::Result<F>,
    limit: usize,
    into: &mut Vec<u8>,
) -> Result<(), ShelfFault>
    requires { into.old.items ≡ [] }
    ensures whole { OnOk result (OfOpened opened (λ file. IfSome (F.remaining file) (λ bytes. into.new.items ≡
        bytes))) }
    ensures within { OnOk result (length into.new.items ≤ limit) }
    ensures too_long { result ≡ Err ShelfFault.TooLong
        → OfOpened opened (λ file. IfSome (F.remaining file) (λ bytes. limit < length bytes)) }
{
    match opened {
        Ok(mut file) => read_whole(&mut file, limit, into),
        Err(_) => Err(ShelfFault::Failed),
    }
}

impl<'a, R: Files> Shelf for FileShelf<'a, R> {
    ghost held = { λ _ _. None };

    ghost faults = { λ shelf. shelf.0 };

    ghost last = { λ shelf. shelf.1 };

    /// It fails where the file cannot be opened, or not be read to its end.
    fn read(&mut self, name: &str, limit: usize, into: &mut Vec<u8>) -> Result<(), ShelfFault> {
        let opened = File::open(self.files, name);
        read_opened(self.alloc, name, opened, limit, into, &mut self.faults)
    }
}

#[cfg(test)]
mod tests {
    use super::*;
    use std::fs;
    use std::test::Fail;

    impl FaultRecord {
        /// Whether there were so many faults, and the last at this name.
        fn are(&self, count: u64, last: &str) -> bool {
            self.count == count && self.last.as_str() == last
        }
    }

    #[test]
    fn real_files_are_read_or_refused(rt: HostRuntime) -> Result<(), Fail> {
        let alloc = rt.alloc();
        fs::write(&rt, "shelf_file.txt", "text")?;
        fs::create_dir(&rt, "shelf_folder")?;
        let mut shelf = FileShelf::new(alloc, &rt);

        let mut into = Vec::new(alloc);
        assert_eq!(rt; shelf.read("shelf_file.txt", 4, &mut into), Ok(()));
        assert_eq!(rt; into.as_slice(), b"text".as_slice());

        let mut into = Vec::new(alloc);
        let answer = shelf.read("shelf_file.txt", 3, &mut into);
        assert_eq!(rt; answer, Err(ShelfFault::TooLong));
        assert!(rt; into.is_empty());
        assert!(rt; shelf.faults.are(0, ""));

        for (name, faults) in [("shelf_missing.txt", 1), ("shelf_folder", 2)] {
            let mut into = Vec::new(alloc);
            assert_eq!(rt; shelf.read(name, 9, &mut into), Err(ShelfFault::Failed));
            assert!(rt; shelf.faults.are(faults, name));
        }
        fs::remove_dir(&rt, "shelf_folder")?;
        fs::remove_file(&rt, "shelf_file.txt")?;
        Ok(())
    }
}
