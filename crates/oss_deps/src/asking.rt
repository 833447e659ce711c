//! The questions to the plain lists. Each goes from stretch to stretch over a range, and ends at the first obstacle.

ghost use Rattle.std.specs.Prelude.{◌≡◌, ◌↔◌, ◌≤◌, ◌<◌, ◌+◌, ℕ, IsTrue, MatchOption, None};
ghost use Rattle.oss_syntax.specs.declared.access.Op.{Op as Operator};
ghost use Rattle.oss_syntax.specs.declared.access.Mode.TheVariants.{Fold};
ghost use Rattle.oss_model.specs.Forest.{IsJoinSatisfied};
ghost use Rattle.oss_deps.specs.declared.opened.Open.{Open as Entry};
ghost use Rattle.oss_deps.specs.Opens.{AreChildrenDone, mode_at, opened_forest};
ghost use Rattle.oss_deps.specs.Places.{AreLinked, AreMarked, AreModesCovered, IsFirstOf, IsWithin, first_at, mode_at_place, place_forest};
ghost use Rattle.oss_deps.specs.Wants.{IsBarOf, IsSatisfied};
ghost use Rattle.oss_deps.specs.Kept.{given_at};
ghost use Rattle.oss_deps.specs.Columns.{IsNumber, IsNumberOf, IsPlaceOf, IsPlain, IsShown, IsNamedOver};
ghost use Rattle.oss_deps.specs.Met.{AreAccessesMet, AreClear, IsAccessMet, IsBarredOver};
ghost use Rattle.oss_deps.specs.Hindrances.{HasUndoneChild, Hinders};
ghost use Rattle.oss_model.specs.Order.{IsIn};

use crate::column::Column;
use crate::frame::{Frame, Mark};
use crate::lookups::place_of;
use crate::plain::PlainDeps;
use crate::walking::{bar_task, first_task, is_satisfied};
use crate::want::Want;
use oss_model::TaskNo;
use oss_syntax::{Access, Mode, Range};

impl Column {
    /// The task whose access stands in the way of that of a task.
    fn bar_of(&self, number: usize, want: Want) -> Option<TaskNo>
        requires linked { AreLinked self.now.frames.items }
        requires marked { AreMarked self.now.frames.items self.now.marks.items None }
        requires covered { AreModesCovered self.now.frames.items }
        requires shown { IsShown self.now.frames.items number }
        requires plain { IsPlain want }
        ensures { (k : ℕ) → IsPlaceOf self.now.frames.items number k →
            MatchOption result (IsSatisfied (place_forest self.now.frames.items self.now.marks.items) want k)
            (λ t. IsBarOf self.now.frames.items self.now.marks.items want k t.0) }
    {
        match place_of(self.frames.as_slice(), number) {
            Some(at) => bar_task(self.frames.as_slice(), self.marks.as_slice(), want, at),
            None => unreachable!(),
        }
    }

    /// The slot of a task may be joined.
    fn is_joinable(&self, number: usize) -> bool
        requires linked { AreLinked self.now.frames.items }
        requires marked { AreMarked self.now.frames.items self.now.marks.items None }
        requires covered { AreModesCovered self.now.frames.items }
        requires shown { IsShown self.now.frames.items number }
        ensures { (k : ℕ) (op : Operator) → IsPlaceOf self.now.frames.items number k →
            mode_at_place self.now.frames.items k ≡ Fold op →
            (IsTrue result ↔ IsSatisfied (place_forest self.now.frames.items self.now.marks.items) (Want.ToJoin op) k) }
    {
        match place_of(self.frames.as_slice(), number) {
            Some(at) => is_join_clear(self.frames.as_slice(), self.marks.as_slice(), at),
            None => unreachable!(),
        }
    }

    /// The first child of the task whose access is not done. There is none where the task has no access.
    fn undone_child(&self, number: usize) -> Option<TaskNo>
        requires linked { AreLinked self.now.frames.items }
        requires marked { AreMarked self.now.frames.items self.now.marks.items None }
        ensures some { (k : ℕ) → IsPlaceOf self.now.frames.items number k →
            MatchOption result (first_at self.now.marks.items k ≡ None) (λ t.
            IsFirstOf self.now.frames.items self.now.marks.items k t.0) }
        ensures none { ((k : ℕ) → IsPlaceOf self.now.frames.items number k → ⊥) → result ≡ None }
    {
        match place_of(self.frames.as_slice(), number) {
            Some(at) => first_task(self.frames.as_slice(), self.marks.as_slice(), at),
            None => None,
        }
    }
}

/// The access at a place may be joined.
fn is_join_clear(frames: &[Frame], marks: &[Mark], at: usize) -> bool
    requires linked { AreLinked frames.now }
    requires marked { AreMarked frames.now marks.now None }
    requires covered { AreModesCovered frames.now }
    requires within { IsWithin frames.now at }
    ensures { (op : Operator) → mode_at_place frames.now at ≡ Fold op →
        (IsTrue result ↔ IsSatisfied (place_forest frames.now marks.now) (Want.ToJoin op) at) }
{
    match frames[at].mode {
        Mode::Fold(op) => is_satisfied(frames, marks, Want::ToJoin(op), at),
        Mode::Read => false,
        Mode::Write => false,
    }
}

impl PlainDeps {
    /// The task whose access stands in the way of that of a task to a cell of a range.
    fn bar_over(&self, number: usize, want: Want, range: Range) -> Option<TaskNo>
        requires plain { IsPlain want }
        requires named { IsNamedOver self.now.opens number range.lo range.hi }
        ensures { (o : Entry) → IsNumber self.now.opens number o →
            MatchOption result (AreClear self.now want o range.lo range.hi) (λ u.
            IsBarredOver self.now want o range.lo range.hi u.0) }
    {
        let mut cell = range.lo;
        'stretches: while cell < range.hi {
            match self.map.get(cell) {
                Some(at) => {
                    let column = &self.columns[at];
                    let bar = column.bar_of(number, want);
                    if bar.is_some() {
                        return bar;
                    }
                    cell = column.hi;
                }
                None => unreachable!(),
            }
        }
        None
    }

    /// The task whose access stands in the way of an access of a task.
    fn obstacle_at(&self, number: usize, access: Access) -> Option<TaskNo>
        requires { (o : Entry) × IsNumber self.now.opens number o × IsIn access o.accesses }
        ensures { (o : Entry) → IsNumber self.now.opens number o →
            MatchOption result (IsAccessMet self.now o access) (λ u.
            Hinders self.now.opens (given_at self.now.pieces self.now.columns) o.task u.0) }
    {
        // the invariant is known where a field is read
        let _ = &self.alloc;
        if !access.strong {
            return None;
        }
        match access.mode {
            Mode::Read => self.bar_over(number, Want::ToRead, access.range),
            Mode::Write => self.bar_over(number, Want::ToWrite, access.range),
            Mode::Fold(_) => None,
        }
    }

    /// The task whose access stands in the way of a task.
    pub(crate) fn obstacle_to(&self, number: usize) -> Option<TaskNo>
        requires { (o : Entry) × IsNumber self.now.opens number o }
        ensures { (o : Entry) → IsNumber self.now.opens number o →
            MatchOption result (AreAccessesMet self.now o) (λ u.
            Hinders self.now.opens (given_at self.now.pieces self.now.columns) o.task u.0) }
    {
        for access in self.opens[number - 1].accesses.as_slice() {
            let obstacle = self.obstacle_at(number, *access);
            if obstacle.is_some() {
                return obstacle;
            }
        }
        None
    }

    /// The slot of a task may be joined into a cell.
    pub(crate) fn is_joinable(&self, number: usize, cell: u32) -> bool
        requires { IsNamedOver self.now.opens number cell (cell + 1) }
        ensures { (o : Entry) (op : Operator) → IsNumber self.now.opens number o → mode_at cell o ≡ Fold op →
            (IsTrue result ↔ IsJoinSatisfied (opened_forest self.now.opens
            (given_at self.now.pieces self.now.columns) cell) op o.task) }
    {
        match self.map.get(cell) {
            Some(at) => self.columns[at].is_joinable(number),
            None => unreachable!(),
        }
    }

    /// A child of the task whose access to a cell of a range is not done.
    pub(crate) fn undone_over(&self, number: usize, range: Range) -> Option<TaskNo>
        ensures { (t : ℕ) → IsNumberOf self.now.opens number t → MatchOption result ((c : ℕ) → range.lo ≤ c →
            c < range.hi → AreChildrenDone self.now.opens (given_at self.now.pieces self.now.columns) t c) (λ u.
            HasUndoneChild self.now.opens (given_at self.now.pieces self.now.columns) t range.lo range.hi u.0) }
    {
        let mut cell = range.lo;
        'stretches: while cell < range.hi {
            match self.map.get(cell) {
                Some(at) => {
                    let column = &self.columns[at];
                    let child = column.undone_child(number);
                    if child.is_some() {
                        return child;
                    }
                    cell = column.hi;
                }
                None => return None,
            }
        }
        None
    }
}
