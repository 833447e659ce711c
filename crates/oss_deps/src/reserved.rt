//! Whether accesses are those that were reserved: only then is an opening sure of its memory.

ghost use Rattle.std.specs.Prelude.{◌≡◌, ◌↔◌, IfOk, IsTrue, Some};

use oss_syntax::{Access, List, Mode};
use std::alloc::{AllocError, Global};

/// A copy of accesses.
pub(crate) fn copied(alloc: Global, accesses: &List<Access>) -> Result<List<Access>, AllocError>
    ensures { IfOk result (λ copy. copy ≡ accesses.now) }
{
    let items = Vec::from_slice(alloc, accesses.as_slice())?;
    Ok(List::from_vec(items))
}

/// The modes are one.
fn is_same_mode(left: Mode, right: Mode) -> bool
    ensures { IsTrue result ↔ (left ≡ right) }
{
    left == right
}

/// The flags are one.
fn is_same_flag(left: bool, right: bool) -> bool
    ensures { IsTrue result ↔ (left ≡ right) }
{
    left == right
}

/// The accesses are one.
fn is_same(left: Access, right: Access) -> bool
    ensures { IsTrue result ↔ (left ≡ right) }
{
    if left.range.lo != right.range.lo {
        return false;
    }
    if left.range.hi != right.range.hi {
        return false;
    }
    if !is_same_mode(left.mode, right.mode) {
        return false;
    }
    if !is_same_flag(left.strong, right.strong) {
        return false;
    }
    is_same_flag(left.fresh, right.fresh)
}

/// The accesses are the reserved ones.
pub(crate) fn is_reserved(reserved: &Option<List<Access>>, accesses: &List<Access>) -> bool
    ensures { IsTrue result ↔ (reserved.now ≡ Some accesses.now) }
{
    match reserved {
        Some(kept) => are_same(kept.as_slice(), accesses.as_slice()),
        None => false,
    }
}

/// The accesses are the same, one by one.
fn are_same(left: &[Access], right: &[Access]) -> bool
    ensures { IsTrue result ↔ (left.now ≡ right.now) }
{
    if left.len() != right.len() {
        return false;
    }
    for at in 0..left.len() {
        if !is_same(left[at], right[at]) {
            return false;
        }
    }
    true
}
