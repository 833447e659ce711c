//! Which moves may be made.

ghost use Rattle.std.specs.Prelude.{◌≡◌, ◌<◌, ◌↔◌, ℕ, false, length, IsTrue, MatchOption, Some, option_copied, slice_get};
ghost use Rattle.oss_body.specs.Acts.{goes_on};
ghost use Rattle.oss_deps.specs.Opens.{IsKnown};
ghost use Rattle.oss_deps.specs.Seen.{IsSame};
ghost use Rattle.oss_ranges.specs.Cells.{value_at};
ghost use Rattle.oss_syntax.specs.declared.access.Op.{Op as Operator};
ghost use Rattle.oss_kept_tasks.specs.declared.held.Held.{Held as Kept};
ghost use Rattle.oss_kept_tasks.specs.declared.held.Owed.TheVariants as ways;
ghost use Rattle.oss_enabled_moves.specs.Enabled.{IsFoldOf, IsThrough, MayFold, MayGive, MayGoOn, MayJoin, MayLet, MayStep};

use crate::waiting::is_act_met;
use oss_body::Act;
use oss_deps::Deps;
use oss_kept_tasks::{BoxedBody, Held, Owed};
use oss_model::TaskNo;
use oss_syntax::Op;
use oss_tree::Tree;

/// What is kept of the task with this number; `None` exactly where there is none.
fn held_at(tasks: &[Held], task: TaskNo) -> Option<&Held>
    ensures { option_copied result ≡ slice_get tasks.now task.0 }
{
    tasks.get(task.0 as usize)
}

/// Whether the next act of a task may be made. Conditions: these are the tasks of the tree, and the dependency
/// system knows each of them. It takes no memory, and the dependency system stays.
pub fn may_step<D: Deps>(tasks: &[Held], tree: &Tree, deps: &mut D, task: TaskNo) -> bool
    requires sizes { length tree.now.tasks ≡ length tasks.now }
    requires known { (v : ℕ) → v < length tasks.now → IsKnown (D.seen deps.old).opens v }
    ensures may { IsTrue result ↔ MayStep tasks.now tree.now.tasks (D.seen deps.old) task.0 }
    ensures same { IsSame (D.seen deps.old) (D.seen deps.new) }
{
    match held_at(tasks, task) {
        Some(held) => may_go_on(&held.body, tree, deps, task),
        None => false,
    }
}

/// The same of a task with this body.
pub(crate) fn may_go_on<D: Deps>(body: &BoxedBody, tree: &Tree, deps: &mut D, task: TaskNo) -> bool
    requires there { task.0 < length tree.now.tasks }
    requires known { IsKnown (D.seen deps.old).opens task.0 }
    ensures may { IsTrue result ↔ MayGoOn body.now tree.now.tasks (D.seen deps.old) task.0 }
    ensures same { IsSame (D.seen deps.old) (D.seen deps.new) }
{
    if body.ended() {
        return false;
    }
    if is_fault(body.pending()) {
        return false;
    }
    if !body.begun() && task.0 != 0 && !deps.met(task) {
        return false;
    }
    is_act_met(tree, deps, task, body.pending())
}

/// Whether this is a fault in the place of an act.
pub(crate) fn is_fault(act: &Act) -> bool
    ensures { IsTrue result ↔ (goes_on act.now ≡ false) }
{
    matches!(act, Act::Fault { .. })
}

/// Whether a task with this body has ended, and its clause `wait` is met. Condition: it is a task of the tree. It
/// takes no memory.
pub fn is_through(tree: &Tree, task: TaskNo, body: &BoxedBody) -> bool
    requires { task.0 < length tree.now.tasks }
    ensures { IsTrue result ↔ IsThrough tree.now.tasks task.0 body.now }
{
    body.ended() && (!body.waits() || tree.unfinished_child(task).is_none())
}

/// Whether a task may give up a cell by a let. Condition: these are the tasks of the tree. It takes no memory.
pub fn may_let(tasks: &[Held], tree: &Tree, task: TaskNo, cell: u32) -> bool
    requires { length tree.now.tasks ≡ length tasks.now }
    ensures { IsTrue result ↔ MayLet tasks.now tree.now.tasks task.0 cell }
{
    match held_at(tasks, task) {
        Some(held) => may_give(held, tree, task, cell),
        None => false,
    }
}

/// The same of a task that is kept so.
fn may_give(held: &Held, tree: &Tree, task: TaskNo, cell: u32) -> bool
    requires { task.0 < length tree.now.tasks }
    ensures { IsTrue result ↔ MayGive held.now tree.now.tasks task.0 cell }
{
    if !is_let(held.owed.get(cell)) {
        return false;
    }
    held.body.has_released(cell) || is_through(tree, task, &held.body)
}

/// Whether a cell that is owed so is given up by a let.
pub fn is_let(owed: Option<Owed>) -> bool
    ensures { IsTrue result ↔ (owed ≡ Some ways.Let) }
{
    match owed {
        Some(Owed::Let) => true,
        Some(Owed::Join(_)) => false,
        None => false,
    }
}

/// The operator of the join by which a cell that is owed so is given up; `None` exactly where it is given up by no
/// join.
pub fn join_of(owed: Option<Owed>) -> Option<Op>
    ensures { MatchOption result ((op : Operator) → owed ≡ Some (ways.Join op) → ⊥) (λ op. owed ≡ Some (ways.Join op)) }
{
    match owed {
        Some(Owed::Join(op)) => Some(op),
        Some(Owed::Let) => None,
        None => None,
    }
}

/// Whether the slot of a task may be joined into a cell. Conditions: these are the tasks of the tree, and each
/// cell that one owes by a join it was opened with for a reduction by that operator. It takes no memory, and the
/// dependency system stays.
pub fn may_join<D: Deps>(tasks: &[Held], tree: &Tree, deps: &mut D, task: TaskNo, cell: u32) -> bool
    requires sizes { length tree.now.tasks ≡ length tasks.now }
    requires folding { (v c : ℕ) (held : Kept) (op : Operator) → slice_get tasks.now v ≡ Some held →
        value_at held.owed.pieces c ≡ Some (ways.Join op) → IsFoldOf (D.seen deps.old).opens v c op }
    ensures may { IsTrue result ↔ ((op : Operator) ×
        MayJoin tasks.now tree.now.tasks (D.seen deps.old) task.0 cell op) }
    ensures same { IsSame (D.seen deps.old) (D.seen deps.new) }
{
    match held_at(tasks, task) {
        Some(held) => may_fold(held, tree, deps, task, cell),
        None => false,
    }
}

/// Whether the slot of a task that is kept so may be joined into a cell. Conditions: it is a task of the tree, and a
/// cell that it owes by a join it was opened with for a reduction by that operator. It takes no memory, and the
/// dependency system stays.
pub fn may_fold<D: Deps>(held: &Held, tree: &Tree, deps: &mut D, task: TaskNo, cell: u32) -> bool
    requires there { task.0 < length tree.now.tasks }
    requires folding { (op : Operator) → value_at held.now.owed.pieces cell ≡ Some (ways.Join op) →
        IsFoldOf (D.seen deps.old).opens task.0 cell op }
    ensures may { IsTrue result ↔ ((op : Operator) × MayFold held.now tree.now.tasks (D.seen deps.old) task.0 cell op) }
    ensures same { IsSame (D.seen deps.old) (D.seen deps.new) }
{
    match join_of(held.owed.get(cell)) {
        Some(_op) => is_through(tree, task, &held.body) && deps.may_join(task, cell),
        None => false,
    }
}
