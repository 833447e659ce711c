//! What is told of a core from outside.

ghost use Rattle.std.specs.Prelude.{◌≡◌, ◌<◌, length};
ghost use Rattle.oss_tree.specs.Tasks.{HasPoint};

use crate::machine::Core;
use oss_deps::Deps;
use oss_model::{Point, TaskNo};
use oss_tree::Tree;

impl<D: Deps> Core<D> {
    ghost use Rattle.oss_core.specs.Cores.{kept_of};

    /// How many tasks there are, main and each that was created. It takes no memory.
    pub fn count(&self) -> u64
        ensures { result ≡ length self.now.tree.tasks }
    {
        self.tree.count()
    }

    /// The tree of its tasks. It takes no memory.
    pub fn tree(&self) -> &Tree
        ensures { result.now ≡ self.now.tree }
    {
        &self.tree
    }

    /// The point of the task with this number. Condition: there is one. It takes no memory.
    pub fn point(&self, task: TaskNo) -> &Point
        requires { task.0 < length self.now.tree.tasks }
        ensures { HasPoint self.now.tree.tasks task.0 result.now }
    {
        self.tree.point(task)
    }

    /// The memory.
    pub fn cells(&self) -> &[u64]
        ensures { result.now ≡ (kept_of D.seen self.now).cells }
    {
        self.cells.as_slice()
    }
}
