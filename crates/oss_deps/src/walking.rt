//! The walk from an access back over earlier siblings and up the levels, to the nearest access that stands in its way.

ghost use Rattle.std.specs.Prelude.{◌≡◌, ◌↔◌, ◌<◌, length, IsTrue, MatchOption, None};
ghost use Rattle.oss_deps.specs.Places.{AreLinked, AreMarked, AreModesCovered, IsFirstOf, IsWithin, first_at, place_forest};
ghost use Rattle.oss_deps.specs.Wants.{Fits, IsBar, IsBarBeside, IsBarOf, IsLevelClear, IsSatisfied};

use crate::frame::{Frame, Mark};
use crate::want::{Want, may_pass, want_above};
use oss_model::TaskNo;

/// The nearest earlier sibling whose access stands in the way of the access at a place, by its place. It goes
/// back from one place to the one before it, and no further than the first sibling that is not done.
fn bar_beside(frames: &[Frame], marks: &[Mark], want: Want, at: usize) -> Option<usize>
    requires linked { AreLinked frames.now }
    requires marked { AreMarked frames.now marks.now None }
    requires within { IsWithin frames.now at }
    ensures { MatchOption result (IsLevelClear frames.now marks.now want at) (λ u.
        IsBarBeside frames.now marks.now want u at) }
{
    let up = frames[at].up;
    let first = match marks[up].first {
        Some(first) => first,
        None => return None,
    };
    let mut behind = at;
    'places: while behind > first {
        let one = behind - 1;
        if frames[one].up == up && !may_pass(want, frames[one].mode, marks[one].is_closed()) {
            return Some(one);
        }
        behind = one;
    }
    None
}

/// The access that stands in the way of the access at a place, by its place: on the lowest level that has one,
/// the nearest.
fn bar_of(frames: &[Frame], marks: &[Mark], wanted: Want, at: usize) -> Option<usize>
    requires linked { AreLinked frames.now }
    requires marked { AreMarked frames.now marks.now None }
    requires covered { AreModesCovered frames.now }
    requires within { IsWithin frames.now at }
    requires fits { Fits frames.now wanted at }
    ensures { MatchOption result (IsSatisfied (place_forest frames.now marks.now) wanted at) (λ u.
        IsBar frames.now marks.now u wanted at) }
{
    let mut place = at;
    let mut want = wanted;
    'levels: while place > 0 {
        let bar = bar_beside(frames, marks, want, place);
        if bar.is_some() {
            return bar;
        }
        let up = frames[place].up;
        want = want_above(want, frames[up].mode);
        place = up;
    }
    None
}

/// The task of that access.
pub(crate) fn bar_task(frames: &[Frame], marks: &[Mark], want: Want, at: usize) -> Option<TaskNo>
    requires linked { AreLinked frames.now }
    requires marked { AreMarked frames.now marks.now None }
    requires covered { AreModesCovered frames.now }
    requires within { IsWithin frames.now at }
    requires fits { Fits frames.now want at }
    ensures { MatchOption result (IsSatisfied (place_forest frames.now marks.now) want at) (λ t.
        IsBarOf frames.now marks.now want at t.0) }
{
    match bar_of(frames, marks, want, at) {
        Some(bar) => Some(TaskNo(frames[bar].task)),
        None => None,
    }
}

/// The task of the first access that is not done of those of the children, by the place of the creator's.
pub(crate) fn first_task(frames: &[Frame], marks: &[Mark], at: usize) -> Option<TaskNo>
    requires linked { AreLinked frames.now }
    requires marked { AreMarked frames.now marks.now None }
    requires within { at < length frames.now }
    ensures { MatchOption result (first_at marks.now at ≡ None) (λ t. IsFirstOf frames.now marks.now at t.0) }
{
    match marks[at].first {
        Some(first) => Some(TaskNo(frames[first].task)),
        None => None,
    }
}

/// No earlier access stands in the way of the access at a place, on any level.
pub(crate) fn is_satisfied(frames: &[Frame], marks: &[Mark], wanted: Want, at: usize) -> bool
    requires linked { AreLinked frames.now }
    requires marked { AreMarked frames.now marks.now None }
    requires covered { AreModesCovered frames.now }
    requires within { IsWithin frames.now at }
    requires fits { Fits frames.now wanted at }
    ensures { IsTrue result ↔ IsSatisfied (place_forest frames.now marks.now) wanted at }
{
    bar_of(frames, marks, wanted, at).is_none()
}
