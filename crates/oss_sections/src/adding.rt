//! Cells and ranges put in behind others. What touches becomes one range, so that there are as few as can be.
ghost use Rattle.std.specs.Prelude.{◌≡◌, ◌≢◌, ◌-◌, ◌<◌, [], ◌∷◌, ◌++◌, OnOk, OnErr};
ghost use Rattle.std.specs.Bool.{OnTrue, OnFalse};
ghost use Rattle.std.specs.List.{range_with_len};
ghost use Rattle.oss_sections.specs.RangeCells.{AreJoined, LastIs, cells_of};

use oss_syntax::{List, Range};
use std::alloc::{AllocError, Global};
use std::mem;

/// Puts one cell in behind the cells of ranges: into the last range where that ends at the cell, and else into
/// a new one. So no range begins where the one before it ends, if none did before. Condition: the cell is less
/// than 1,048,576. It takes memory where a range begins; where memory is wanting the ranges stay.
#[tactic(auto, using(crate::proofs::RangeLemmas::one_cell))]
pub fn add_cell(alloc: Global, ranges: &mut List<Range>, cell: u32) -> Result<(), AllocError>
    requires { cell < 1048576 }
    ensures cells { OnOk result (cells_of ranges.new ≡ cells_of ranges.old ++ cell ∷ []) }
    ensures joined { OnOk result (AreJoined ranges.old → AreJoined ranges.new) }
    ensures err { OnErr result (ranges.new ≡ ranges.old) }
{
    add_range(
        alloc,
        ranges,
        Range {
            lo: cell,
            hi: cell + 1,
        },
    )
}

/// Puts the cells of one range in behind those of others: into the last of these where that ends at the first
/// cell, and else as a range of their own. So no range begins where the one before it ends, if none did before.
/// It takes memory where a range begins; where memory is wanting the ranges stay.
pub fn add_range(alloc: Global, ranges: &mut List<Range>, range: Range) -> Result<(), AllocError>
    ensures cells { OnOk result (cells_of ranges.new ≡ cells_of ranges.old ++ range_with_len range.lo
        (range.hi - range.lo)) }
    ensures joined { OnOk result (AreJoined ranges.old → AreJoined ranges.new) }
    ensures err { OnErr result (ranges.new ≡ ranges.old) }
{
    let mut items = mem::replace(ranges, List::new(alloc)).into_vec();
    let extended = extends_last(&mut items, range);
    *ranges = List::from_vec(items);
    if extended {
        return Ok(());
    }
    ranges.push(range)
}

/// Makes the last range longer by the cells of another one where it ends at the first of them, and tells
/// whether it does. It takes no memory.
fn extends_last(ranges: &mut Vec<Range>, range: Range) -> bool
    ensures cells { OnTrue result (cells_of ranges.new.items ≡ cells_of ranges.old.items ++
        range_with_len range.lo (range.hi - range.lo)) }
    ensures joined { OnTrue result (AreJoined ranges.old.items → AreJoined ranges.new.items) }
    ensures same { OnFalse result (ranges.new.items ≡ ranges.old.items) }
    ensures apart { OnFalse result (LastIs (λ last. last.hi ≢ range.lo) ranges.old.items) }
{
    match ranges.pop() {
        Some(last) => {
            if last.hi == range.lo {
                ranges.push_reserved(Range {
                    lo: last.lo,
                    hi: range.hi,
                });
                true
            } else {
                ranges.push_reserved(last);
                false
            }
        }
        None => false,
    }
}
