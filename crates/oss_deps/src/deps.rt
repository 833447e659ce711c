//! What each dependency system does, as one contract: the task machine is written once over it, and one system
//! can stand in for another.

ghost use Rattle.std.specs.Prelude.{◌≡◌, ◌≤◌, ◌<◌, ◌↔◌, ℕ, IsOk, IsTrue, MatchOption, OnErr, OnOk, Some};
ghost use Rattle.oss_syntax.specs.declared.access.Op.{Op as Operator};
ghost use Rattle.oss_syntax.specs.declared.access.Mode.TheVariants.{Fold};
ghost use Rattle.oss_model.specs.Forest.{IsJoinSatisfied};
ghost use Rattle.oss_deps.specs.Opens.{AreChildrenDone, IsFolding, IsKnown, IsMet, mode_in, opened_forest};
ghost use Rattle.oss_deps.specs.Hindrances.{HasUndoneChild, Hinders};
ghost use Rattle.oss_deps.specs.Seen.{CanGive, CanOpen, Gives, IsSame, Opens, Prepares, Reserves};

use oss_model::TaskNo;
use oss_syntax::{Access, List, Range};
use std::alloc::AllocError;

/// A dependency system: it is told which tasks are opened and which cells they give up, and tells what may go
/// on. It is seen as the list of opens, the given cells, the cuts, at which a range that is given may end, and
/// the reserved accesses. Tasks go by numbers, and main is number 0. After want of memory a system is as it
/// was.
pub trait Deps: Drop {
    ghost use Rattle.oss_deps.specs.Seen.{Seen};

    ghost seen: { Self → Seen };

    /// These accesses are the reserved ones: the next `open` cannot fail, if it has these accesses and no
    /// `prepare` comes before it.
    fn reserve(&mut self, accesses: &List<Access>) -> Result<(), AllocError>
        ensures ok { OnOk result (Reserves accesses.now (seen self.old) (seen self.new)) }
        ensures err { OnErr result (IsSame (seen self.old) (seen self.new)) };

    /// Opens a task behind all others. The ends of its accesses become cuts, and no accesses are reserved any
    /// more. Condition: the task is neither main nor open; its creator is main or open, and nested less than 64
    /// deep; the accesses rise, and are covered by cells of the creator that it has not given up.
    fn open(
        &mut self,
        task: TaskNo,
        parent: TaskNo,
        accesses: &List<Access>,
    ) -> Result<(), AllocError>
        requires { CanOpen (seen self.old) (record { task = task.0; parent = parent.0; accesses = accesses.now }) }
        ensures ok { OnOk result (Opens (record { task = task.0; parent = parent.0; accesses = accesses.now })
            (seen self.old) (seen self.new)) }
        ensures err { OnErr result (IsSame (seen self.old) (seen self.new)) }
        ensures sure { (seen self.old).reserved ≡ Some accesses.now → IsOk result };

    /// The ends of a range become cuts, and no accesses are reserved any more.
    fn prepare(&mut self, range: Range) -> Result<(), AllocError>
        ensures ok { OnOk result (Prepares range (seen self.old) (seen self.new)) }
        ensures err { OnErr result (IsSame (seen self.old) (seen self.new)) };

    /// A task gives up the cells of a range. Condition: they are cells of the task that it has not given up,
    /// and both ends of the range are cuts. It takes no memory.
    fn give(&mut self, task: TaskNo, range: Range)
        requires { CanGive task.0 range (seen self.old) }
        ensures { Gives task.0 range (seen self.old) (seen self.new) };

    /// Whether the task may begin, as far as its cells go. Main always may. Condition: the task is main or
    /// open. It takes no memory.
    fn met(&mut self, task: TaskNo) -> bool
        requires { IsKnown (seen self.old).opens task.0 }
        ensures met { IsTrue result ↔ IsMet (seen self.old).opens (seen self.old).given task.0 }
        ensures same { IsSame (seen self.old) (seen self.new) };

    /// A task of which an access stands in the way of this one: as long as that access is not done, whatever is
    /// opened and given up meanwhile, the task may not begin. `None` exactly where the task may begin, as far
    /// as its cells go. Condition: the task is main or open. It takes no memory.
    fn obstacle(&mut self, task: TaskNo) -> Option<TaskNo>
        requires { IsKnown (seen self.old).opens task.0 }
        ensures obstacle { MatchOption result (IsMet (seen self.old).opens (seen self.old).given task.0) (λ u.
            Hinders (seen self.old).opens (seen self.old).given task.0 u.0) }
        ensures same { IsSame (seen self.old) (seen self.new) };

    /// Whether the slot of the task may be joined into the cell. Condition: the task is open, and its access to
    /// the cell is a reduction. It takes no memory.
    fn may_join(&mut self, task: TaskNo, cell: u32) -> bool
        requires { IsFolding (seen self.old).opens task.0 cell }
        ensures join { (op : Operator) → mode_in (seen self.old).opens cell task.0 ≡ Fold op →
            (IsTrue result ↔ IsJoinSatisfied (opened_forest (seen self.old).opens (seen self.old).given cell) op
            task.0) }
        ensures same { IsSame (seen self.old) (seen self.new) };

    /// Whether each access of a child of the task to a cell of the range is done. Condition: the task is main
    /// or open. It takes no memory.
    fn children_done(&mut self, task: TaskNo, range: Range) -> bool
        requires { IsKnown (seen self.old).opens task.0 }
        ensures done { IsTrue result ↔ ((c : ℕ) → range.lo ≤ c → c < range.hi →
            AreChildrenDone (seen self.old).opens (seen self.old).given task.0 c) }
        ensures same { IsSame (seen self.old) (seen self.new) };

    /// A child of the task with an access to a cell of the range that is not done. `None` exactly where each
    /// such access is done. Condition: the task is main or open. It takes no memory.
    fn undone_child(&mut self, task: TaskNo, range: Range) -> Option<TaskNo>
        requires { IsKnown (seen self.old).opens task.0 }
        ensures child { MatchOption result ((c : ℕ) → range.lo ≤ c → c < range.hi →
            AreChildrenDone (seen self.old).opens (seen self.old).given task.0 c) (λ u.
            HasUndoneChild (seen self.old).opens (seen self.old).given task.0 range.lo range.hi u.0) }
        ensures same { IsSame (seen self.old) (seen self.new) };
}
