//! A shelf in memory, for tests: what it keeps and when it fails is planned.
ghost use Rattle.std.specs.Prelude.{◌≡◌, ◌≢◌, ℕ, ◌<◌, ◌≤◌, List, [], ◌∷◌, ◌++◌, length, IfOk, IfSome, OnOk, OnErr, option_copied, alloc_error};
ghost use Rattle.std.specs.Str.{bytes_eq};
ghost use Rattle.oss_io.specs.Faults.{Rises};
ghost use Rattle.oss_io.specs.Plan.{next_call};
ghost use Rattle.oss_io.specs.ShelfView.{bytes_under, answer_of, after_fault};

use crate::{Shelf, ShelfFault};
use std::alloc::{AllocError, Global};
use std::collections::VecDeque;
use std::marker::Model;

/// A name and its bytes.
#[derive(Drop)]
struct KeptFile {
    name: String,
    bytes: Vec<u8>,
}

impl Model for KeptFile {
    ghost use Rattle.std.specs.Prelude.{List, ℕ, string_bytes};

    ghost Value = { List ℕ × List ℕ };

    ghost view = { λ file. (string_bytes file.name, file.bytes.items) };
}

impl KeptFile {
    /// A file with a copy of this name and of these bytes.
    fn new(alloc: Global, name: &str, bytes: &[u8]) -> Result<KeptFile, AllocError>
        ensures { IfOk result (λ file. file ≡ (name.now, bytes.now)) }
    {
        let name = String::from_str(alloc, name)?;
        let bytes = Vec::from_slice(alloc, bytes)?;
        Ok(KeptFile { name, bytes })
    }

    /// Whether the file is kept under this name, byte for byte.
    fn is_named(&self, name: &str) -> bool
        ensures { result ≡ bytes_eq self.now.0 name.now }
    {
        self.name.as_str() == name
    }

    /// What the file holds, lent as a slice.
    fn bytes(&self) -> &[u8]
        ensures { result.now ≡ self.now.1 }
    {
        self.bytes.as_slice()
    }
}

/// Files in memory, and calls that are to fail. A contract sees it as a `ShelfView`.
#[derive(Drop)]
pub struct MemoryShelf {
    alloc: Global,
    files: VecDeque<KeptFile>,
    planned: Vec<u32>,
    calls: u32,
    faults: u64,
    last: String,
}

impl Model for MemoryShelf {
    ghost use Rattle.std.specs.Prelude.{string_bytes};
    ghost use Rattle.oss_io.specs.ShelfView.{ShelfView};

    ghost Value = { ShelfView };

    ghost view = { λ shelf. record {
      files = shelf.files.items;
      planned = shelf.planned.items;
      calls = shelf.calls;
      faults = shelf.faults;
      last = string_bytes shelf.last;
    } };
}

impl MemoryShelf {
    /// A shelf with no files and no planned failure, which takes no memory.
    pub fn new(alloc: Global) -> MemoryShelf
        ensures { result ≡ record { files = []; planned = []; calls = 0; faults = 0; last = [] } }
    {
        MemoryShelf {
            alloc,
            files: VecDeque::new(alloc),
            planned: Vec::new(alloc),
            calls: 0,
            faults: 0,
            last: String::new(alloc),
        }
    }

    /// Keeps these bytes under this name, in place of what was there. Where memory is wanting the shelf stays.
    pub fn put(&mut self, name: &str, bytes: &[u8]) -> Result<(), AllocError>
        ensures ok { OnOk result (self.new ≡ record self.old { files = (name.now, bytes.now) ∷ self.old.files }) }
        ensures err { OnErr result (self.new ≡ self.old) }
    {
        let file = KeptFile::new(self.alloc, name, bytes)?;
        self.files.push_front(file)?;
        Ok(())
    }

    /// Lets the call of this number fail, where calls of `read` are counted from 1. Where memory is wanting the shelf
    /// stays.
    pub fn fail_at(&mut self, call: u32) -> Result<(), AllocError>
        ensures ok { OnOk result (self.new ≡ record self.old { planned = self.old.planned ++ call ∷ [] }) }
        ensures err { OnErr result (self.new ≡ self.old) }
    {
        self.planned.push(call)?;
        Ok(())
    }
}

/// The bytes that were last put under a name.
fn find_bytes<'a>(files: &'a VecDeque<KeptFile>, name: &str) -> Option<&'a [u8]>
    ensures { option_copied result ≡ bytes_under files.now.items name.now }
{
    files
        .iter()
        .find(|file| file.is_named(name))
        .map(|file| file.bytes())
}

impl Shelf for MemoryShelf {
    ghost held = { λ shelf name. bytes_under shelf.files name };

    ghost faults = { λ shelf. shelf.faults };

    ghost last = { λ shelf. shelf.last };

    /// A planned call fails, and so does a name that is not kept.
    fn read(&mut self, name: &str, limit: usize, into: &mut Vec<u8>) -> Result<(), ShelfFault>
        requires { into.old.items ≡ [] }

        // What the trait says.
        ensures whole { OnOk result (IfSome (bytes_under self.old.files name.now) (λ bytes. into.new.items ≡ bytes)) }
        ensures within { OnOk result (length into.new.items ≤ limit) }
        ensures empty { OnErr result (into.new.items ≡ []) }
        ensures same { (other : List ℕ) → bytes_under self.new.files other ≡ bytes_under self.old.files other }
        ensures failed { result ≡ Err ShelfFault.Failed
            → Rises self.old.faults self.new.faults × (self.new.last ≡ name.now) }
        ensures count { result ≢ Err ShelfFault.Failed
            → (self.new.faults ≡ self.old.faults) × (self.new.last ≡ self.old.last) }
        ensures too_long { result ≡ Err ShelfFault.TooLong
            → IfSome (bytes_under self.old.files name.now) (λ bytes. limit < length bytes) }

        // What it answers, unless memory is wanting, and what the shelf is afterwards.
        ensures answer { result ≢ Err (ShelfFault.Memory alloc_error)
            → result ≡ answer_of self.old name.now limit }
        ensures fault { result ≡ Err ShelfFault.Failed → self.new ≡ after_fault self.old name.now }
        ensures kept { result ≢ Err ShelfFault.Failed
            → self.new ≡ record self.old { calls = next_call self.old.calls } }
    {
        self.calls = self.calls.saturating_add(1);
        let noted = String::from_str(self.alloc, name).map_err(ShelfFault::Memory)?;
        if !self.planned.contains(&self.calls) {
            if let Some(bytes) = find_bytes(&self.files, name) {
                if bytes.len() > limit {
                    return Err(ShelfFault::TooLong);
                }
                return into.extend_from_slice(bytes).map_err(ShelfFault::Memory);
            }
        }
        self.faults = self.faults.saturating_add(1);
        self.last = noted;
        Err(ShelfFault::Failed)
    }
}

#[cfg(test)]
mod tests {
    use super::*;
    use std::test::Fail;

    #[test]
    fn a_name_gives_what_was_last_put_within_the_limit(rt: HostRuntime) -> Result<(), Fail> {
        let alloc = rt.alloc();
        let mut shelf = MemoryShelf::new(alloc);
        shelf.put("a", b"old")?;
        shelf.put("b", b"other")?;
        shelf.put("a", b"new")?;

        let mut into = Vec::new(alloc);
        assert_eq!(rt; shelf.read("a", 3, &mut into), Ok(()));
        assert_eq!(rt; into.as_slice(), b"new".as_slice());

        into.clear();
        assert_eq!(rt; shelf.read("a", 2, &mut into), Err(ShelfFault::TooLong));
        assert!(rt; into.is_empty());
        assert_eq!(rt; shelf.faults, 0);
        Ok(())
    }

    #[test]
    fn a_planned_call_and_an_unknown_name_fail(rt: HostRuntime) -> Result<(), Fail> {
        let alloc = rt.alloc();
        let mut shelf = MemoryShelf::new(alloc);
        shelf.put("a", b"text")?;
        shelf.fail_at(2)?;

        // The name, what its read answers, and then the count of faults and the name of the last.
        let calls = [
            ("a", Ok(()), 0, ""),
            ("a", Err(ShelfFault::Failed), 1, "a"),
            ("b", Err(ShelfFault::Failed), 2, "b"),
            ("a", Ok(()), 2, "b"),
        ];
        for (name, answer, faults, last) in calls {
            let mut into = Vec::new(alloc);
            assert_eq!(rt; shelf.read(name, 9, &mut into), answer);
            assert_eq!(rt; shelf.faults, faults);
            assert_eq!(rt; shelf.last.as_str(), last);
        }
        Ok(())
    }
}
