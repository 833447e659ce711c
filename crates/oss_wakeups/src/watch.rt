//! Who is awake, and who watches whom.

ghost use Rattle.std.specs.Prelude.{◌≡◌, [], ℕ, length, IfOk};

use oss_model::TaskNo;
use std::alloc::{AllocError, Global};

/// The tasks of a machine that are to be asked whether they may do something; and of the others, which wait,
/// for which task each does. A waiting task watches one task that stands in its way, and is asked again only
/// once that task, or one below it, has ended or given something up.
pub struct Watch {
    pub(crate) alloc: Global,
    /// The tasks that are awake, in point order.
    pub(crate) awake: Vec<TaskNo>,
    /// Of each task, by its number, whether it sleeps.
    pub(crate) asleep: Vec<bool>,
    /// Of each task, by its number, which tasks watch it.
    pub(crate) watchers: Vec<Vec<TaskNo>>,
}

// By hand, so that who lets one go calls this, and does not take it apart at each exit.
impl Drop for Watch {
    fn drop(self) {
        let Watch {
            alloc: _,
            awake,
            asleep,
            watchers,
        } = self;
        drop(awake);
        drop(asleep);
        drop(watchers);
    }
}

impl Watch {
    /// Nobody is known as yet.
    pub(crate) fn empty(alloc: Global) -> Watch
        ensures awake { result.awake.items ≡ [] }
        ensures asleep { result.asleep.items ≡ [] }
        ensures watchers { result.watchers.items ≡ [] }
    {
        Watch {
            alloc,
            awake: Vec::new(alloc),
            asleep: Vec::new(alloc),
            watchers: Vec::new(alloc),
        }
    }

    /// The tasks that are awake, in point order. It takes no memory.
    pub fn awake(&self) -> &[TaskNo]
        ensures { result.now ≡ self.now.awake.items }
    {
        self.awake.as_slice()
    }
}
