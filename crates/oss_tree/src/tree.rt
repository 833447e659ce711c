//! The tree itself. Marks that move with each change tell what is complete, so a question costs the same for each tree.
ghost use Rattle.std.specs.Prelude.{◌≡◌, ◌<◌, ◌++◌, ◌∷◌, ◌↔◌, ℕ, [], length, slice_get, slice_set, Some, IfOk, IsTrue, MatchOption, OnErr, OnOk};
ghost use Rattle.oss_tree.specs.Tasks.{AreChildrenComplete, AreComplete, HasPoint, IsComplete, IsFirstUnfinished, IsLeastOpen, IsTree, MayCreate, changed, ended_task, given_task, grown, number, opening};
ghost use Rattle.oss_tree.specs.Output.{IsOutput, up_to};
ghost use Rattle.oss_tree.specs.declared.task.Task.{Task as Meant};

use crate::marks::{is_settled, reopen, settle};
use crate::output::{Print, output, output_before};
use crate::paths::find;
use crate::task::Task;
use oss_model::{Point, TaskNo};
use oss_syntax::{Bytes, List};
use std::alloc::{AllocError, Global};
use std::marker::Model;

/// The tasks of a run by their numbers, and what they printed. Contracts see the tasks, each at the place of
/// its number, and the prints in the order of time.
pub struct Tree {
    alloc: Global,
    /// By their numbers.
    tasks: Vec<Task>,
    /// How many of the first children of each task are complete.
    marks: Vec<usize>,
    /// In the order of time.
    prints: Vec<Print>,
}

// By hand, so that who lets one go calls this, and does not take it apart at each exit.
impl Drop for Tree {
    fn drop(self) {
        let Tree {
            alloc: _,
            tasks,
            marks,
            prints,
        } = self;
        drop(tasks);
        drop(marks);
        drop(prints);
    }
}

impl Model for Tree {
    ghost use Rattle.oss_tree.specs.Tasks.{IsTree, Kept};
    ghost use Rattle.oss_tree.specs.Marks.{AreMarked};

    ghost Value = { Kept };

    ghost view = { λ t. record { tasks = t.tasks.items; prints = t.prints.items } };

    ghost invariant = { λ t. IsTree t.tasks.items × AreMarked t.tasks.items t.marks.items };
}

impl Tree {
    /// The tree of main alone, which has no cells to give up, without prints.
    pub fn new(alloc: Global) -> Result<Tree, AllocError>
        ensures { IfOk result (λ tree. tree ≡ opening) }
    {
        let main = Task {
            point: Point::main(alloc)?,
            parent: None,
            children: List::new(alloc),
            wait: false,
            ended: false,
            gave_all: true,
        };
        let mut tasks = Vec::new(alloc);
        tasks.push(main)?;
        let mut marks = Vec::new(alloc);
        marks.push(0)?;
        Ok(Tree {
            alloc,
            tasks,
            marks,
            prints: Vec::new(alloc),
        })
    }

    /// Adds a task that this one creates, behind the others that it has created, with or without the clause
    /// `wait`: the answer is its number, which is how many tasks there were. Condition: the creator has created
    /// fewer than 65,535 tasks, and is nested less than 64 deep. After want of memory the tree is as it was.
    pub fn add(&mut self, parent: TaskNo, wait: bool) -> Result<TaskNo, AllocError>
        requires { MayCreate self.old.tasks parent.0 }
        ensures number { IfOk result (λ child. child ≡ number (length self.old.tasks)) }
        ensures added { OnOk result (self.new ≡ record {
          tasks = grown self.old.tasks parent.0 wait;
          prints = self.old.prints;
        }) }
        ensures refused { OnErr result (self.new ≡ self.old) }
    {
        let at = parent.0 as usize;
        let creator = &self.tasks[at];
        let point = creator.point.child(creator.children.len() as u16)?;
        let child = TaskNo(self.tasks.len() as u64);
        let task = Task {
            point,
            parent: Some(parent),
            children: List::new(self.alloc),
            wait,
            ended: false,
            gave_all: false,
        };
        self.marks.reserve(1)?;
        push_child(&mut self.tasks, at, child, task)?;
        self.marks.push(0)?;
        reopen(self.tasks.as_slice(), self.marks.as_mut_slice(), at);
        Ok(child)
    }

    /// How many tasks there are, main and each that was added. It takes no memory.
    pub fn count(&self) -> u64
        ensures count { result ≡ length self.now.tasks }
        ensures tree { IsTree self.now.tasks }
    {
        self.tasks.len() as u64
    }

    /// The task with this number. Condition: it is one of the tree. It takes no memory.
    pub fn task(&self, task: TaskNo) -> &Task
        requires { task.0 < length self.now.tasks }
        ensures { slice_get self.now.tasks task.0 ≡ Some result.now }
    {
        &self.tasks[task.0 as usize]
    }

    /// The point of the task with this number. Condition: it is one of the tree. It takes no memory.
    pub fn point(&self, task: TaskNo) -> &Point
        requires { task.0 < length self.now.tasks }
        ensures { HasPoint self.now.tasks task.0 result.now }
    {
        &self.tasks[task.0 as usize].point
    }

    /// The task that has this point; `None` exactly where none has. It takes no memory, and costs what the
    /// point is long.
    pub fn find(&self, point: &[u16]) -> Option<TaskNo>
        ensures { MatchOption result ((t : ℕ) → HasPoint self.now.tasks t point.now →
            ⊥) (λ task. HasPoint self.now.tasks task.0 point.now) }
    {
        find(self.tasks.as_slice(), point)
    }

    /// The body of this task has ended. Condition: it is one of the tree. It takes no memory.
    pub fn ended(&mut self, task: TaskNo)
        requires { task.0 < length self.old.tasks }
        ensures { self.new ≡ record { tasks = changed self.old.tasks task.0 ended_task; prints = self.old.prints } }
    {
        let at = task.0 as usize;
        self.tasks[at].ended = true;
        settle(self.tasks.as_slice(), self.marks.as_mut_slice(), at);
    }

    /// This task has given up each of its cells. Condition: it is one of the tree. It takes no memory.
    pub fn gave_all(&mut self, task: TaskNo)
        requires { task.0 < length self.old.tasks }
        ensures { self.new ≡ record { tasks = changed self.old.tasks task.0 given_task; prints = self.old.prints } }
    {
        let at = task.0 as usize;
        self.tasks[at].gave_all = true;
        settle(self.tasks.as_slice(), self.marks.as_mut_slice(), at);
    }

    /// Whether this task is complete: it has ended and given up all its cells, and each task that it created is
    /// complete. Condition: it is one of the tree. It takes no memory, and costs the same for each tree.
    pub fn complete(&self, task: TaskNo) -> bool
        requires { task.0 < length self.now.tasks }
        ensures { IsTrue result ↔ IsComplete self.now.tasks task.0 }
    {
        is_settled(
            self.tasks.as_slice(),
            self.marks.as_slice(),
            task.0 as usize,
        )
    }

    /// The first child of this task that is not complete; `None` exactly where each is. Condition: it is a task
    /// of the tree. It takes no memory, and costs the same for each tree.
    pub fn unfinished_child(&self, task: TaskNo) -> Option<TaskNo>
        requires { task.0 < length self.now.tasks }
        ensures { MatchOption result (AreChildrenComplete self.now.tasks task.0) (λ child.
            IsFirstUnfinished self.now.tasks task.0 child.0) }
    {
        let at = task.0 as usize;
        let mark = self.marks[at];
        self.tasks[at].children.get(mark).copied()
    }

    /// The open task with the least key: each task with a key before its own has ended and given up all its
    /// cells. `None` exactly where each task is complete. It takes no memory, and costs what tasks are nested.
    pub fn least_open(&self) -> Option<TaskNo>
        ensures { MatchOption result (AreComplete self.now.tasks) (λ task. IsLeastOpen self.now.tasks task.0) }
    {
        if is_settled(self.tasks.as_slice(), self.marks.as_slice(), 0) {
            return None;
        }
        let mut at = TaskNo(0);
        while let Some(child) = self.unfinished_child(at) {
            at = child;
        }
        Some(at)
    }

    /// This text was printed at this point, behind all that was printed before. After want of memory the tree
    /// is as it was.
    pub fn print(&mut self, at: Point, text: Bytes) -> Result<(), AllocError>
        ensures printed { OnOk result (self.new ≡ record {
          tasks = self.old.tasks;
          prints = self.old.prints ++
              record { at = at; text = text } ∷ [];
        }) }
        ensures refused { OnErr result (self.new ≡ self.old) }
    {
        self.prints.push(Print { at, text })?;
        Ok(())
    }

    /// All that was printed, in point order; prints at one point stay in the order of time. Want of memory is
    /// the one error.
    pub fn output(&self) -> Result<Bytes, AllocError>
        ensures { IfOk result (λ text. IsOutput self.now.prints text) }
    {
        output(self.alloc, self.prints.as_slice())
    }

    /// What was printed at this point and at those before it, in point order. Want of memory is the one error.
    pub fn output_before(&self, at: &Point) -> Result<Bytes, AllocError>
        ensures { IfOk result (λ text. IsOutput (up_to at.now self.now.prints) text) }
    {
        output_before(self.alloc, self.prints.as_slice(), at)
    }
}

/// Adds a task behind all others, and its number to the children of its creator; neither where memory is wanting.
fn push_child(
    tasks: &mut Vec<Task>,
    creator: usize,
    child: TaskNo,
    task: Task,
) -> Result<(), AllocError>
    requires { creator < length tasks.old.items }
    ensures added { OnOk result ((one : Meant) → slice_get tasks.old.items creator ≡ Some one →
        tasks.new.items ≡ slice_set tasks.old.items creator
        (record one { children = one.children ++ child ∷ [] }) ++ task ∷ []) }
    ensures refused { OnErr result (tasks.new.items ≡ tasks.old.items) }
{
    tasks.reserve(1)?;
    tasks[creator].children.push(child)?;
    tasks.push(task)?;
    Ok(())
}
