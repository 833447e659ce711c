//! How a gift makes accesses done, from level to level upwards. Each access notes its first child that is not
//! done, so nobody counts children.

ghost use Rattle.std.specs.Prelude.{◌≡◌, ◌||◌, ◌==◌, ℕ, length, slice_get, None, Some, true};
ghost use Rattle.oss_deps.specs.declared.frame.Frame.{Frame as Link};
ghost use Rattle.oss_deps.specs.Kept.{given_by};
ghost use Rattle.oss_deps.specs.Places.{AreLinked, AreMarked, IsNextOpen, IsPassed, IsWithin, closed_at};

use crate::frame::{Frame, Mark};

/// The first access that is not done of those of later siblings.
fn next_open(frames: &[Frame], marks: &[Mark], at: usize) -> Option<usize>
    requires linked { AreLinked frames.now }
    requires same { length marks.now ≡ length frames.now }
    requires within { IsWithin frames.now at }
    ensures { (f : Link) → slice_get frames.now at ≡ Some f → IsNextOpen frames.now marks.now f.up at result }
{
    let mut next = frames[at].next;
    'siblings: while let Some(one) = next {
        if !marks[one].is_closed() {
            return Some(one);
        }
        next = frames[one].next;
    }
    None
}

/// Where an access has come to be done, that above it has another first one that is not. Gives the access
/// above, if it is done with that.
fn pass(frames: &[Frame], marks: &mut [Mark], done: usize) -> Option<usize>
    requires linked { AreLinked frames.now }
    requires marked { AreMarked frames.now marks.old (Some done) }
    requires within { IsWithin frames.now done }
    requires closed { closed_at marks.old done ≡ true }
    ensures marked { AreMarked frames.now marks.new result }
    ensures above { IsPassed frames.now marks.new done result }
    ensures given { (t : ℕ) → given_by frames.now marks.new t ≡ given_by frames.now marks.old t }
{
    let up = frames[done].up;
    match marks[up].first {
        Some(first) => {
            if first != done {
                return None;
            }
        }
        None => return None,
    }
    let next = next_open(frames, marks, done);
    marks[up].first = next;
    if marks[up].is_closed() {
        Some(up)
    } else {
        None
    }
}

/// The cells of the access at a place are given up.
pub(crate) fn give_at(frames: &[Frame], marks: &mut [Mark], at: usize)
    requires linked { AreLinked frames.now }
    requires marked { AreMarked frames.now marks.old None }
    requires within { IsWithin frames.now at }
    ensures marked { AreMarked frames.now marks.new None }
    ensures given { (f : Link) (t : ℕ) → slice_get frames.now at ≡ Some f →
        given_by frames.now marks.new t ≡ (given_by frames.now marks.old t || (f.task == t)) }
{
    marks[at].given = true;
    let mut done = if marks[at].is_closed() {
        Some(at)
    } else {
        None
    };
    'levels: while let Some(one) = done {
        done = pass(frames, marks, one);
    }
}
