//! What acts wait for.

ghost use Rattle.std.specs.Prelude.{◌≡◌, ◌<◌, ◌↔◌, ℕ, true, length, IsTrue};
ghost use Rattle.oss_model.specs.Context.{in_clauses};
ghost use Rattle.oss_meaning.specs.Clauses.{waited_for};
ghost use Rattle.oss_meaning.specs.Sections.{declared_on};
ghost use Rattle.oss_deps.specs.Opens.{AreChildrenDone, IsKnown};
ghost use Rattle.oss_deps.specs.Seen.{IsSame};
ghost use Rattle.oss_enabled_moves.specs.Enabled.{IsActMet, IsNewestComplete};

use oss_body::Act;
use oss_deps::Deps;
use oss_model::TaskNo;
use oss_syntax::Range;
use oss_tree::Tree;

/// Whether that has come for which an act of this task waits. It takes no memory, and the dependency system stays.
pub(crate) fn is_act_met<D: Deps>(tree: &Tree, deps: &mut D, task: TaskNo, act: &Act) -> bool
    requires there { task.0 < length tree.now.tasks }
    requires known { IsKnown (D.seen deps.old).opens task.0 }
    ensures met { IsTrue result ↔ IsActMet tree.now.tasks (D.seen deps.old) task.0 act.now }
    ensures same { IsSame (D.seen deps.old) (D.seen deps.new) }
{
    match act {
        Act::Await => is_newest_complete(tree, task),
        Act::Wait => tree.unfinished_child(task).is_none(),
        Act::WaitOn(ranges) => are_children_done(deps, task, ranges.as_slice()),
        Act::Tick => true,
        Act::Load(_) => true,
        Act::Store(_, _) => true,
        Act::Fold { .. } => true,
        Act::Create { .. } => true,
        Act::Release { .. } => true,
        Act::Print { .. } => true,
        Act::End => true,
        Act::Fault { .. } => true,
    }
}

/// Whether the newest child of this task is complete, if it has one.
fn is_newest_complete(tree: &Tree, task: TaskNo) -> bool
    requires { task.0 < length tree.now.tasks }
    ensures { IsTrue result ↔ IsNewestComplete tree.now.tasks task.0 }
{
    let _tasks = tree.count();
    match tree.task(task).children.as_slice().last() {
        Some(child) => tree.complete(*child),
        None => true,
    }
}

/// Whether each access of a child of this task to a cell of these ranges is done.
fn are_children_done<D: Deps>(deps: &mut D, task: TaskNo, ranges: &[Range]) -> bool
    requires { IsKnown (D.seen deps.old).opens task.0 }
    ensures done { IsTrue result ↔ ((c : ℕ) → in_clauses (declared_on waited_for ranges.now) c ≡ true →
        AreChildrenDone (D.seen deps.old).opens (D.seen deps.old).given task.0 c) }
    ensures same { IsSame (D.seen deps.old) (D.seen deps.new) }
{
    for range in ranges {
        if !deps.children_done(task, *range) {
            return false;
        }
    }
    true
}
