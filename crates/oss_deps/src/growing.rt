//! How one access is added to a stretch that has room for it, and what changes in the links and marks of the others.

ghost use Rattle.std.specs.Prelude.{◌≡◌, ◌<◌, ℕ, None, Some, false, length, slice_get, slice_index_or};
ghost use Rattle.oss_deps.specs.declared.frame.Frame.{Frame as Link};
ghost use Rattle.oss_deps.specs.declared.frame.Mark.{Mark as Flag};
ghost use Rattle.oss_deps.specs.Columns.{HasRoom};
ghost use Rattle.oss_deps.specs.Places.{AreGrown, AreLinked, AreMarksGrown, IsOldFrame, IsOldMark, blank, first_or, with_next};

use crate::column::Column;
use crate::frame::{Frame, Mark};
use oss_syntax::Mode;

/// The last sibling gets a next one.
fn set_next(frames: &mut [Frame], last: Option<usize>, new: usize)
    requires { (l : ℕ) → last ≡ Some l → l < length frames.old }
    ensures { frames.new ≡ with_next last new frames.old }
{
    match last {
        Some(last) => frames[last].next = Some(new),
        None => {}
    }
}

/// Links an access that is to be added, as the newest one of a child of that at a place.
fn link(frames: &mut [Frame], up: usize, new: usize)
    requires linked { AreLinked frames.old }
    requires within { up < length frames.old }
    ensures { (k : ℕ) (f : Link) → slice_get frames.old k ≡ Some f →
        IsOldFrame new up (slice_index_or frames.old up blank).last k f (slice_get frames.new k) }
{
    let last = frames[up].last;
    set_next(frames, last, new);
    frames[up].last = Some(new);
}

/// The first one that is not done, where there is one more behind all others.
fn first_or(first: Option<usize>, new: usize) -> Option<usize>
    ensures { result ≡ first_or first new }
{
    match first {
        Some(first) => Some(first),
        None => Some(new),
    }
}

/// Notes an access that is to be added, as one of a child of that at a place.
fn note(marks: &mut [Mark], up: usize, new: usize)
    requires { up < length marks.old }
    ensures { (k : ℕ) (m : Flag) → slice_get marks.old k ≡ Some m → IsOldMark new up k m (slice_get marks.new k) }
{
    let first = first_or(marks[up].first, new);
    marks[up].first = first;
}

/// Adds an access behind all others of a stretch of cells, which has room for it: the access of the task with a
/// number, below that of its creator at a place.
pub(crate) fn add(column: &mut Column, number: usize, task: u64, up: usize, mode: Mode)
    requires linked { AreLinked column.old.frames.items }
    requires same { length column.old.marks.items ≡ length column.old.frames.items }
    requires within { up < length column.old.frames.items }
    requires room { HasRoom column.old }
    ensures frames { AreGrown column.old.frames.items column.new.frames.items up
        (slice_index_or column.old.frames.items up blank).last (record {
          number = number;
          task = task;
          up = up;
          mode = mode;
          last = None;
          next = None;
        }) }
    ensures marks { AreMarksGrown column.old.marks.items column.new.marks.items up }
    ensures lo { column.new.lo ≡ column.old.lo }
    ensures hi { column.new.hi ≡ column.old.hi }
    ensures asked { column.new.asked ≡ column.old.asked }
{
    let new = column.frames.len();
    link(column.frames.as_mut_slice(), up, new);
    note(column.marks.as_mut_slice(), up, new);
    column.frames.push_reserved(Frame {
        number,
        task,
        up,
        mode,
        last: None,
        next: None,
    });
    column.marks.push_reserved(Mark {
        given: false,
        first: None,
    });
}
