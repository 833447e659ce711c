//! The text of an audit.

ghost use Rattle.std.specs.Prelude.{◌≡◌, ◌++◌, ◌∷◌, [], IfOk, OnOk};
ghost use Rattle.std.specs.Fmt.{decimal};
ghost use Rattle.oss_audit.specs.Lines.{audit_text, cells_from, cells_in, unused_line};

use crate::unused::Unused;
use oss_model::point_text;
use oss_syntax::{Bytes, List};
use std::alloc::{AllocError, Global};

/// The text of what an audit tells: for each run a line `unused POINT L N`, where `N` cells from the cell `L`
/// on are unused, and last a line `# unused M` with the number of cells of all lines. Each line ends with a
/// newline. Want of memory is the one error.
pub fn audit_lines(alloc: Global, unused: &List<Unused>) -> Result<Bytes, AllocError>
    ensures { IfOk result (λ text. text ≡ audit_text unused.now) }
{
    let mut text = Vec::new(alloc);
    let mut count = 0u64;
    for run in unused.as_slice() {
        write_run(alloc, run, &mut text)?;
        count = count.saturating_add(u64::from(size_of_run(run)));
    }
    let last = format!(in alloc; "# unused {count}\n")?;
    text.extend_from_slice(last.as_bytes())?;
    Ok(Bytes::from_vec(text))
}

/// Writes the line of a run.
fn write_run(alloc: Global, run: &Unused, text: &mut Vec<u8>) -> Result<(), AllocError>
    ensures { OnOk result (text.new.items ≡ text.old.items ++ unused_line run.now) }
{
    text.extend_from_slice(b"unused ")?;
    let at = point_text(alloc, run.point.as_slice())?;
    text.extend_from_slice(at.as_slice())?;
    let lo = run.range.lo;
    let count = size_of_run(run);
    let end = format!(in alloc; " {lo} {count}\n")?;
    text.extend_from_slice(end.as_bytes())
}

/// How many cells a run has.
fn size_of_run(run: &Unused) -> u32
    ensures { result ≡ cells_in run.now }
{
    run.range.hi - run.range.lo
}
