//! What accesses give to one cell.

ghost use Rattle.std.specs.Prelude.{◌≡◌};
ghost use Rattle.oss_judge.specs.Seen.{right_seen};
ghost use Rattle.oss_model.specs.Rights.{in_access, is_fresh, joined_right, right_from};
ghost use Rattle.oss_explain.specs.Owned.{word_from};

use crate::modes::joined_modes;
use crate::words_of::use_of;
use oss_explanation::Word;
use oss_judge::Right;
use oss_syntax::{Access, Mode};

/// The word by which accesses name a cell together, if they do. To a final task a weak access counts as strong.
pub(crate) fn word_at(accesses: &[Access], is_final: bool, cell: u32) -> Option<Word>
    ensures { result ≡ word_from is_final accesses.now cell }
{
    match right_at(accesses, is_final, cell) {
        Right::Holds(mode, strong) => Some(Word {
            named: use_of(mode, is_fresh_at(accesses, cell)),
            strong,
        }),
        Right::Nothing => None,
        Right::Released => None,
    }
}

/// The right that accesses give to a cell.
pub(crate) fn right_at(accesses: &[Access], is_final: bool, cell: u32) -> Right
    ensures { right_seen result ≡ right_from is_final accesses.now cell }
{
    let mut right = Right::Nothing;
    let mut left = accesses.len();
    while left > 0 {
        left -= 1;
        let access = accesses[left];
        if has(access, cell) {
            right = joined(access.mode, is_final || access.strong, right);
        }
    }
    right
}

/// Whether an access names a cell.
pub(crate) fn has(access: Access, cell: u32) -> bool
    ensures { result ≡ in_access access cell }
{
    access.range.lo <= cell && cell < access.range.hi
}

/// A right, with one more access to its cell.
fn joined(mode: Mode, strong: bool, right: Right) -> Right
    ensures { right_seen result ≡ joined_right mode strong (right_seen right) }
{
    match right {
        Right::Holds(held, other) => match joined_modes(mode, held) {
            Some(both) => Right::Holds(both, strong || other),
            None => Right::Nothing,
        },
        Right::Nothing => Right::Holds(mode, strong),
        Right::Released => Right::Holds(mode, strong),
    }
}

/// Whether each access that names the cell is of `out` or `weakout`.
fn is_fresh_at(accesses: &[Access], cell: u32) -> bool
    ensures { result ≡ is_fresh accesses.now cell }
{
    for access in accesses {
        if has(*access, cell) && !access.fresh {
            return false;
        }
    }
    true
}
