//! Whether any move is left.

ghost use Rattle.std.specs.Prelude.{◌≡◌, ◌<◌, ◌↔◌, ◌⊎◌, ℕ, true, length, IsTrue, Some, slice_get};
ghost use Rattle.oss_deps.specs.Opens.{IsKnown};
ghost use Rattle.oss_deps.specs.Seen.{IsSame};
ghost use Rattle.oss_ranges.specs.Cells.{value_at};
ghost use Rattle.oss_syntax.specs.declared.access.Op.{Op as Operator};
ghost use Rattle.oss_kept_tasks.specs.declared.held.Held.{Held as Kept};
ghost use Rattle.oss_kept_tasks.specs.declared.held.Owed.TheVariants as ways;
ghost use Rattle.oss_enabled_moves.specs.Enabled.{IsFoldOf, MayAnything, MayFold, MayGive, MayGoOn};

use crate::enabling::{is_let, is_through, join_of, may_fold, may_go_on};
use oss_deps::Deps;
use oss_kept_tasks::{Held, Owed};
use oss_model::TaskNo;
use oss_tree::Tree;

/// A program has at most so many cells.
const CELLS: u32 = 1_048_576;

/// Whether a cell that is owed so may be given up by a let, the task being through or having released it.
fn is_given(owed: Option<Owed>, through: bool, released: bool) -> bool
    ensures { IsTrue result ↔ ((owed ≡ Some ways.Let) × ((released ≡ true) ⊎ (through ≡ true))) }
{
    is_let(owed) && (released || through)
}

/// Whether a task that is kept so may give up any cell by a let. It costs what its ranges of owed and of
/// released cells do.
fn may_give_any(held: &Held, tree: &Tree, task: TaskNo) -> bool
    requires { task.0 < length tree.now.tasks }
    ensures { IsTrue result ↔ ((c : ℕ) × MayGive held.now tree.now.tasks task.0 c) }
{
    let through = is_through(tree, task, &held.body);
    let mut from = 0;
    'runs: while from < CELLS {
        let (owed, end) = held.owed.run_from(from, CELLS);
        let (released, until) = held.body.released_run(from, end);
        if is_given(owed, through, released) {
            return true;
        }
        from = until;
    }
    false
}

/// Whether any slot of a task that is kept so may be joined.
fn may_fold_any<D: Deps>(held: &Held, tree: &Tree, deps: &mut D, task: TaskNo) -> bool
    requires there { task.0 < length tree.now.tasks }
    requires folding { (c : ℕ) (op : Operator) → value_at held.now.owed.pieces c ≡ Some (ways.Join op) →
        IsFoldOf (D.seen deps.old).opens task.0 c op }
    ensures may { IsTrue result ↔ ((c : ℕ) × (op : Operator) ×
        MayFold held.now tree.now.tasks (D.seen deps.old) task.0 c op) }
    ensures same { IsSame (D.seen deps.old) (D.seen deps.new) }
{
    let mut from = 0;
    'runs: while from < CELLS {
        let (owed, end) = held.owed.run_from(from, CELLS);
        if join_of(owed).is_none() {
            from = end;
        } else if may_fold(held, tree, deps, task, from) {
            return true;
        } else {
            from += 1;
        }
    }
    false
}

/// Whether a task that is kept so may do anything: make its next act, give up a cell or have a slot joined.
fn may_anything<D: Deps>(held: &Held, tree: &Tree, deps: &mut D, task: TaskNo) -> bool
    requires there { task.0 < length tree.now.tasks }
    requires known { IsKnown (D.seen deps.old).opens task.0 }
    requires folding { (c : ℕ) (op : Operator) → value_at held.now.owed.pieces c ≡ Some (ways.Join op) →
        IsFoldOf (D.seen deps.old).opens task.0 c op }
    ensures may { IsTrue result ↔ MayAnything held.now tree.now.tasks (D.seen deps.old) task.0 }
    ensures same { IsSame (D.seen deps.old) (D.seen deps.new) }
{
    if may_give_any(held, tree, task) {
        return true;
    }
    if may_go_on(&held.body, tree, deps, task) {
        return true;
    }
    may_fold_any(held, tree, deps, task)
}

/// Whether no task may do anything: make its next act, give up a cell or have a slot joined. Conditions: these are
/// the tasks of the tree, the dependency system knows each of them, and each cell that one owes by a join it was
/// opened with for a reduction by that operator. It takes no memory, and the dependency system stays.
pub fn is_still<D: Deps>(tasks: &[Held], tree: &Tree, deps: &mut D) -> bool
    requires sizes { length tree.now.tasks ≡ length tasks.now }
    requires known { (v : ℕ) → v < length tasks.now → IsKnown (D.seen deps.old).opens v }
    requires folding { (v c : ℕ) (held : Kept) (op : Operator) → slice_get tasks.now v ≡ Some held →
        value_at held.owed.pieces c ≡ Some (ways.Join op) → IsFoldOf (D.seen deps.old).opens v c op }
    ensures still { IsTrue result ↔ ((v : ℕ) (held : Kept) → slice_get tasks.now v ≡ Some held →
        MayAnything held tree.now.tasks (D.seen deps.old) v → ⊥) }
    ensures same { IsSame (D.seen deps.old) (D.seen deps.new) }
{
    for at in 0..tasks.len() {
        if may_anything(&tasks[at], tree, deps, TaskNo(at as u64)) {
            return false;
        }
    }
    true
}
