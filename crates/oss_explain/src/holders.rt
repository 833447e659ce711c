//! Who has a cell that is lent.

ghost use Rattle.std.specs.Prelude.{◌≡◌, false, map, IfOk};
ghost use Rattle.oss_model.specs.Rights.{right_from};
ghost use Rattle.oss_explanation.specs.Lives.{hinders};
ghost use Rattle.oss_explain.specs.Noting.{hindering, in_ranges};
ghost use Rattle.oss_explain.specs.Reasons.{touch_seen};

use crate::at_cell::right_at;
use crate::begun::{Child, Noted};
use oss_explanation::Touching;
use oss_judge::Right;
use oss_syntax::{Access, Mode, Range};
use std::alloc::{AllocError, Global};

/// The children that hinder a touch of a cell by these notes, the oldest first. It is one walk over the notes, and over the
/// accesses of the children.
pub(crate) fn holders<'n>(
    alloc: Global,
    notes: &'n [Noted],
    cell: u32,
    touch: Touching,
) -> Result<Vec<&'n Child>, AllocError>
    ensures { IfOk result (λ held. map (λ child. child.now) held.items ≡ hindering cell (touch_seen touch) notes.now) }
{
    let mut held = Vec::new(alloc);
    for note in notes {
        match note {
            Noted::Lent(child) => {
                if does_hinder(child.accesses.as_slice(), cell, touch) {
                    held.push(child)?;
                }
            }
            Noted::WaitedOn(ranges) => {
                if is_in(ranges.as_slice(), cell) {
                    held.clear();
                }
            }
        }
    }
    Ok(held)
}

/// Whether a cell is one of these ranges.
fn is_in(ranges: &[Range], cell: u32) -> bool
    ensures { result ≡ in_ranges ranges.now cell }
{
    for range in ranges {
        if range.lo <= cell && cell < range.hi {
            return true;
        }
    }
    false
}

/// Whether a child with these accesses hinders such a touch of the cell.
fn does_hinder(accesses: &[Access], cell: u32, touch: Touching) -> bool
    ensures { result ≡ hinders (touch_seen touch) (right_from false accesses.now cell) }
{
    match right_at(accesses, false, cell) {
        Right::Holds(Mode::Read, _) => match touch {
            Touching::Reading => false,
            _ => true,
        },
        Right::Holds(_, _) => true,
        Right::Nothing => false,
        Right::Released => false,
    }
}
