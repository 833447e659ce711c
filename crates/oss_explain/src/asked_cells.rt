//! The cells that a directive names, as accesses.

ghost use Rattle.std.specs.Prelude.{◌≡◌, IfOk};
ghost use Rattle.oss_meaning.specs.Clauses.{waited_for};
ghost use Rattle.oss_meaning.specs.Sections.{declared_on};

use oss_syntax::{Access, List, Mode, Range};
use std::alloc::{AllocError, Global};

/// The accesses for which a wait for the cells of these ranges waits.
pub(crate) fn accesses_on(alloc: Global, ranges: &[Range]) -> Result<List<Access>, AllocError>
    ensures { IfOk result (λ named. named ≡ declared_on waited_for ranges.now) }
{
    let mut named = Vec::new(alloc);
    for range in ranges {
        named.push(Access {
            range: *range,
            mode: Mode::Read,
            strong: true,
            fresh: false,
        })?;
    }
    Ok(List::from_vec(named))
}
