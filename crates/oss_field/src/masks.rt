//! What a link adds to a state word. The link is set once, so one atomic addition sets it with what stands beside it.

ghost use Rattle.std.specs.Prelude.{◌≡◌, ◌<◌, ◌≤◌, ◌+◌, ◌*◌};
ghost use Rattle.oss_words.specs.Bits.{mode_number, op_number};
ghost use Rattle.oss_words.specs.Causes.{is_fold};
ghost use Rattle.oss_words.specs.Sums.{num};
ghost use Rattle.oss_field.specs.Masks.{same_fold, next_mask, child_mask};

use oss_syntax::{Mode, Op};

/// The weight of the flag that the next link is set.
const LINKED: u64 = 64;

/// The weight of the flag that the link to the first child is set.
const HEADED: u64 = 128;

/// The weight of the next link, and of that to the first child.
const NEXT: u64 = 65_536;

const CHILD: u64 = 1_099_511_627_776;

/// The number of an operator, at most 3.
fn number_of_op(op: Op) -> u32
    ensures value { result ≡ op_number op }
    ensures small { result ≤ 3 }
{
    match op {
        Op::Add => 0,
        Op::And => 1,
        Op::Or => 2,
        Op::Xor => 3,
    }
}

/// The number of a mode with its operator, at most 14.
fn number_of_mode(mode: Mode) -> u32
    ensures value { result ≡ mode_number mode }
{
    match mode {
        Mode::Read => 0,
        Mode::Write => 1,
        Mode::Fold(op) => 2 + 4 * number_of_op(op),
    }
}

/// Whether the mode is a reduction.
fn folds(mode: Mode) -> bool
    ensures { result ≡ is_fold mode }
{
    match mode {
        Mode::Read => false,
        Mode::Write => false,
        Mode::Fold(_) => true,
    }
}

/// Whether the second mode is the reduction that the first is.
fn folds_alike(a: Mode, b: Mode) -> bool
    ensures { result ≡ same_fold a b }
{
    folds(b) && number_of_mode(a) == number_of_mode(b)
}

/// What a flag adds to a word.
fn weigh(flag: bool, weight: u64) -> u64
    ensures value { result ≡ weight * num flag }
    ensures small { result ≤ weight }
{
    if flag { weight } else { 0 }
}

/// What the link to an entry of mode `b`, behind one of mode `a`, adds to the state word of that one.
pub(crate) fn mask_of_next(entry: u32, a: Mode, b: Mode) -> u64
    requires { entry < 16777216 }
    ensures { result ≡ next_mask entry a b }
{
    LINKED + weigh(folds(b), 512) + weigh(folds_alike(a, b), 1_024) + NEXT * entry as u64
}

/// What the link to an entry of mode `b`, as the first child of one of mode `a`, adds to the state word of that one.
pub(crate) fn mask_of_child(entry: u32, a: Mode, b: Mode) -> u64
    requires { entry < 16777216 }
    ensures { result ≡ child_mask entry a b }
{
    HEADED + weigh(folds(b), 2_048) + weigh(folds_alike(a, b), 4_096) + CHILD * entry as u64
}
