//! Which tasks wait for which.

ghost use Rattle.std.specs.Prelude.{◌≡◌, ◌<◌, ◌⊎◌, ℕ, false, length, true, MatchOption};
ghost use Rattle.oss_model.specs.Context.{in_clauses};
ghost use Rattle.oss_meaning.specs.Clauses.{waited_for};
ghost use Rattle.oss_meaning.specs.Sections.{declared_on};
ghost use Rattle.oss_body.specs.Relation.{has_begun};
ghost use Rattle.oss_deps.specs.Opens.{AreChildrenDone, IsKnown, IsMet};
ghost use Rattle.oss_deps.specs.Seen.{IsSame};
ghost use Rattle.oss_enabled_moves.specs.Enabled.{IsActMet, IsNewestComplete};
ghost use Rattle.oss_enabled_moves.specs.Hindering.{GoesFree, HasUndoneIn, IsAwaited, IsBarred, IsHeldBack, IsNewestOpen};

use crate::enabling::is_fault;
use oss_body::Act;
use oss_deps::Deps;
use oss_kept_tasks::BoxedBody;
use oss_model::TaskNo;
use oss_syntax::Range;
use oss_tree::Tree;

/// A task because of which the next act of a task with this body may not be made as yet: one whose access stands
/// in its way, or a child for which it waits. `None` exactly where nothing hinders the task: its next act may be
/// made, or it has none, since it has ended or stands before a fault. Conditions: it is a task of the tree, and
/// the dependency system knows it. It takes no memory, and the dependency system stays.
pub fn hindrance_of<D: Deps>(
    body: &BoxedBody,
    tree: &Tree,
    deps: &mut D,
    task: TaskNo,
) -> Option<TaskNo>
    requires there { task.0 < length tree.now.tasks }
    requires known { IsKnown (D.seen deps.old).opens task.0 }
    ensures hindrance { MatchOption result (GoesFree body.now tree.now.tasks (D.seen deps.old) task.0) (λ u.
        IsHeldBack body.now tree.now.tasks (D.seen deps.old) task.0 u.0) }
    ensures same { IsSame (D.seen deps.old) (D.seen deps.new) }
{
    if body.ended() {
        return None;
    }
    if is_fault(body.pending()) {
        return None;
    }
    match barred_by(body, deps, task) {
        Some(obstacle) => Some(obstacle),
        None => awaited_by(tree, deps, task, body.pending()),
    }
}

/// A task whose access stands in the way of a task with this body before its first act. It takes no memory, and
/// the dependency system stays.
fn barred_by<D: Deps>(body: &BoxedBody, deps: &mut D, task: TaskNo) -> Option<TaskNo>
    requires { IsKnown (D.seen deps.old).opens task.0 }
    ensures barred { MatchOption result (has_begun body.now ≡ false → (task.0 ≡ 0) ⊎
        IsMet (D.seen deps.old).opens (D.seen deps.old).given task.0) (λ u.
        IsBarred body.now (D.seen deps.old) task.0 u.0) }
    ensures same { IsSame (D.seen deps.old) (D.seen deps.new) }
{
    if body.begun() {
        return None;
    }
    if task.0 == 0 {
        return None;
    }
    deps.obstacle(task)
}

/// A task for which this act of a task waits. It takes no memory, and the dependency system stays.
fn awaited_by<D: Deps>(tree: &Tree, deps: &mut D, task: TaskNo, act: &Act) -> Option<TaskNo>
    requires there { task.0 < length tree.now.tasks }
    requires known { IsKnown (D.seen deps.old).opens task.0 }
    ensures awaited { MatchOption result (IsActMet tree.now.tasks (D.seen deps.old) task.0 act.now) (λ u.
        IsAwaited tree.now.tasks (D.seen deps.old) task.0 act.now u.0) }
    ensures same { IsSame (D.seen deps.old) (D.seen deps.new) }
{
    match act {
        Act::Await => newest_open(tree, task),
        Act::Wait => tree.unfinished_child(task),
        Act::WaitOn(ranges) => undone_in(deps, task, ranges.as_slice()),
        Act::Tick => None,
        Act::Load(_) => None,
        Act::Store(_, _) => None,
        Act::Fold { .. } => None,
        Act::Create { .. } => None,
        Act::Release { .. } => None,
        Act::Print { .. } => None,
        Act::End => None,
        Act::Fault { .. } => None,
    }
}

/// The newest child of this task, where it is not complete.
fn newest_open(tree: &Tree, task: TaskNo) -> Option<TaskNo>
    requires { task.0 < length tree.now.tasks }
    ensures { MatchOption result (IsNewestComplete tree.now.tasks task.0) (λ u.
        IsNewestOpen tree.now.tasks task.0 u.0) }
{
    let _tasks = tree.count();
    match tree.task(task).children.as_slice().last() {
        Some(child) => {
            if tree.complete(*child) {
                None
            } else {
                Some(*child)
            }
        }
        None => None,
    }
}

/// A child of this task with an access to a cell of these ranges that is not done.
fn undone_in<D: Deps>(deps: &mut D, task: TaskNo, ranges: &[Range]) -> Option<TaskNo>
    requires { IsKnown (D.seen deps.old).opens task.0 }
    ensures child { MatchOption result ((c : ℕ) → in_clauses (declared_on waited_for ranges.now) c ≡ true →
        AreChildrenDone (D.seen deps.old).opens (D.seen deps.old).given task.0 c) (λ u.
        HasUndoneIn (D.seen deps.old) task.0 ranges.now u.0) }
    ensures same { IsSame (D.seen deps.old) (D.seen deps.new) }
{
    for range in ranges {
        match deps.undone_child(task, *range) {
            Some(child) => return Some(child),
            None => {}
        }
    }
    None
}
