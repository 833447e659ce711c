//! Steps of tasks.

ghost use Rattle.std.specs.Prelude.{◌≡◌, ◌<◌, length, OnOk};
ghost use Rattle.oss_body.specs.Relation.{is_over};
ghost use Rattle.oss_core.specs.Changes.{noted};
ghost use Rattle.oss_core.specs.Going.{HasGoneOn, HasStepped, StandsBefore, StandsBeforeStep};

use crate::happening::{happen, note_print};
use crate::machine::Core;
use oss_code::Code;
use oss_deps::Deps;
use oss_kept_tasks::{BoxedBody, Held};
use oss_model::TaskNo;
use oss_tree::Tree;
use std::alloc::AllocError;

/// The body at a place goes on by its next act, for which a load has found this number. After want of memory it
/// is of no use.
pub(crate) fn go_on(
    tasks: &mut Vec<Held>,
    code: &Code,
    at: usize,
    loaded: u64,
) -> Result<(), AllocError>
    requires { StandsBefore tasks.old.items at }
    ensures { OnOk result (HasGoneOn code.now at loaded tasks.old.items tasks.new.items) }
{
    let held = &mut tasks[at];
    held.body.advance(code, loaded)
}

/// Notes that a task has ended, where its body has.
fn note_end(tree: &mut Tree, task: TaskNo, body: &BoxedBody)
    requires { task.0 < length tree.old.tasks }
    ensures tasks { tree.new.tasks ≡ noted task.0 (is_over body.now) tree.old.tasks }
    ensures prints { tree.new.prints ≡ tree.old.prints }
{
    if body.ended() {
        tree.ended(task);
    }
}

impl<D: Deps> Core<D> {
    ghost use Rattle.oss_core.specs.Cores.{kept_of};

    /// The next act of a task, which creates no task of the machine, is made. After want of memory the core is
    /// given up.
    pub(crate) fn step(&mut self, code: &Code, task: TaskNo) -> Result<(), AllocError>
        requires sizes { length self.old.tree.tasks ≡ length self.old.tasks.items }
        requires before { StandsBeforeStep self.old.tasks.items task.0 }
        ensures { OnOk result (HasStepped code.now task.0 (kept_of D.seen self.old) (kept_of D.seen self.new)) }
    {
        let at = task.0 as usize;
        let loaded = happen(self.tasks[at].body.pending(), &mut self.cells);
        note_print(self.alloc, self.tasks[at].body.pending(), &mut self.tree)?;
        go_on(&mut self.tasks, code, at, loaded)?;
        note_end(&mut self.tree, task, &self.tasks[at].body);
        Ok(())
    }
}
