//! What a dependency system was told, by which each call keeps to its condition.

ghost use Rattle.std.specs.Prelude.{◌≡◌, ◌≤◌, ◌<◌, ◌↔◌, [], ◌∷◌, ◌++◌, true, IfNone, IfOk, IfSome, IsTrue, MatchOption, Ok as Gave, length, ℕ};
ghost use Rattle.oss_syntax.specs.declared.access.Op.{Op as Operator};
ghost use Rattle.oss_syntax.specs.declared.access.Mode.TheVariants.{Fold};
ghost use Rattle.oss_model.specs.Forest.{IsJoinSatisfied};
ghost use Rattle.oss_model.specs.Rights.{covers, op_eq};
ghost use Rattle.oss_deps.specs.Columns.{IsNumberOf};
ghost use Rattle.oss_deps.specs.Hindrances.{HasUndoneChild, Hinders};
ghost use Rattle.oss_deps.specs.Opens.{AreChildrenDone, IsKnown, IsMet, access_at, mode_in, opened_forest};
ghost use Rattle.oss_deps.specs.Seen.{IsNew};
ghost use Rattle.oss_deps_tests.specs.Told.{HasModeOver, IsApart, IsKept, IsLent, IsShallow, IsTold, MayGive, MayOpen};

use oss_deps::{Deps, Open};
use oss_model::TaskNo;
use oss_syntax::{Access, List, Mode, Op, Range};
use std::alloc::{AllocError, Global};

/// A dependency system, the tasks that were opened in it, and the ranges that were given up.
#[derive(Drop)]
pub struct Told<D: Deps> {
    alloc: Global,
    system: D,
    opens: Vec<Open>,
    gives: Vec<(u64, Range)>,
    joins: usize,
}

/// How many tasks were opened up to this one: 0 for main.
fn number_of(opens: &[Open], task: u64) -> Option<usize>
    ensures found { IfSome result (λ n. IsNumberOf opens.now n task) }
    ensures none { IfNone result (IsKnown opens.now task → ⊥) }
{
    if task == 0 {
        return Some(0);
    }
    for (at, one) in opens.iter().enumerate() {
        if one.task == task {
            return Some(at + 1);
        }
    }
    None
}

/// The task is nested at most so deep.
fn is_shallow(opens: &[Open], task: u64, levels: u64) -> bool
    ensures { IsTrue result → IsShallow opens.now task levels }
{
    let number = match number_of(opens, task) {
        Some(number) => number,
        None => return false,
    };
    if number == 0 {
        return true;
    }
    if levels == 0 {
        return false;
    }
    is_shallow(opens, opens[number - 1].parent, levels - 1)
}

/// The first of the accesses, if it has each cell of a range.
fn first_over(accesses: &[Access], range: Range) -> Option<Access>
    ensures { IfSome result (λ a. (c : ℕ) → range.lo ≤ c → c < range.hi → access_at accesses.now c ≡ Some a) }
{
    if accesses.is_empty() {
        return None;
    }
    let first = accesses[0];
    if first.range.lo <= range.lo && range.hi <= first.range.hi {
        Some(first)
    } else {
        None
    }
}

/// The mode of the task's access to the cells of a range, if one access has them all.
fn mode_over(opens: &[Open], task: u64, range: Range) -> Option<Mode>
    ensures { IfSome result (λ m. HasModeOver opens.now task range.lo range.hi m) }
{
    let number = match number_of(opens, task) {
        Some(number) => number,
        None => return None,
    };
    if number == 0 {
        return None;
    }
    match first_over(opens[number - 1].accesses.as_slice(), range) {
        Some(access) => Some(access.mode),
        None => None,
    }
}

fn covers(held: Mode, wanted: Mode) -> bool
    ensures { result ≡ covers held wanted }
{
    match held {
        Mode::Write => true,
        Mode::Read => matches!(wanted, Mode::Read),
        Mode::Fold(op) => folds_by(op, wanted),
    }
}

fn folds_by(op: Op, mode: Mode) -> bool
    ensures { result ≡ covers (Mode.Fold op) mode }
{
    match mode {
        Mode::Read => false,
        Mode::Write => false,
        Mode::Fold(other) => is_same_op(op, other),
    }
}

fn is_same_op(left: Op, right: Op) -> bool
    ensures { result ≡ op_eq left right }
{
    match left {
        Op::Add => matches!(right, Op::Add),
        Op::And => matches!(right, Op::And),
        Op::Or => matches!(right, Op::Or),
        Op::Xor => matches!(right, Op::Xor),
    }
}

/// What was given up is of another task, or has no cell of a range.
fn is_apart(task: u64, range: Range, given: (u64, Range)) -> bool
    ensures { IsTrue result → IsApart task range.lo range.hi given }
{
    given.0 != task || range.hi <= given.1.lo || given.1.hi <= range.lo
}

/// The task has given up no cell of a range.
fn is_kept(gives: &[(u64, Range)], task: u64, range: Range) -> bool
    ensures { IsTrue result → IsKept gives.now task range.lo range.hi }
{
    for at in 0..gives.len() {
        if !is_apart(task, range, gives[at]) {
            return false;
        }
    }
    true
}

/// The creator has what the access takes.
fn is_lent(opens: &[Open], gives: &[(u64, Range)], parent: u64, access: Access) -> bool
    ensures { IsTrue result → IsLent opens.now gives.now parent access }
{
    if parent == 0 {
        return true;
    }
    match mode_over(opens, parent, access.range) {
        Some(mode) => covers(mode, access.mode) && is_kept(gives, parent, access.range),
        None => false,
    }
}

/// The task may be opened.
fn may_open(opens: &[Open], gives: &[(u64, Range)], task: u64, parent: u64, access: Access) -> bool
    ensures { IsTrue result → MayOpen opens.now gives.now (record {
      task = task;
      parent = parent;
      accesses = access ∷ [];
    }) }
{
    match number_of(opens, task) {
        Some(_) => false,
        None => is_shallow(opens, parent, 4) && is_lent(opens, gives, parent, access),
    }
}

/// The task may give up a range between cuts.
fn may_give(opens: &[Open], gives: &[(u64, Range)], task: u64, range: Range) -> bool
    ensures { IsTrue result → MayGive opens.now gives.now task range }
{
    match mode_over(opens, task, range) {
        Some(_) => is_kept(gives, task, range),
        None => false,
    }
}

/// The list with one access.
fn one(alloc: Global, access: Access) -> Result<List<Access>, AllocError>
    ensures { IfOk result (λ accesses. accesses ≡ access ∷ []) }
{
    Ok(List::from_vec(Vec::from_slice(alloc, &[access])?))
}

impl<D: Deps> Told<D> {
    /// A system to which nothing was told yet.
    pub fn new(alloc: Global, system: D) -> Told<D>
        requires { IsNew (D.seen system) }
        ensures { IsTold (D.seen result.system) result.opens.items result.gives.items }
    {
        Told {
            alloc,
            system,
            opens: Vec::new(alloc),
            gives: Vec::new(alloc),
            joins: 0,
        }
    }

    /// The system.
    pub fn system(&self) -> &D
        ensures { result.now ≡ self.now.system }
    {
        &self.system
    }

    /// An access is reserved. After want of memory what was told is as before.
    pub fn reserve(&mut self, access: Access) -> Result<(), AllocError>
        requires { IsTold (D.seen self.old.system) self.old.opens.items self.old.gives.items }
        ensures told { IsTold (D.seen self.new.system) self.new.opens.items self.new.gives.items }
        ensures same { (self.new.opens ≡ self.old.opens) × (self.new.gives ≡ self.old.gives) }
    {
        let accesses = one(self.alloc, access)?;
        self.system.reserve(&accesses)
    }

    /// How many tasks were opened, how many ranges given up, and how often it was asked whether a slot may be joined.
    pub fn counts(&self) -> (usize, usize, usize)
        ensures { result ≡ (length self.now.opens.items, length self.now.gives.items, self.now.joins) }
    {
        (self.opens.len(), self.gives.len(), self.joins)
    }

    /// Whether a task is nested at most so deep: main at most 0, its children at most 1. It is not where the
    /// task was not opened.
    pub fn is_nested_within(&self, task: u64, levels: u64) -> bool
        ensures { IsTrue result → IsShallow self.now.opens.items task levels }
    {
        is_shallow(self.opens.as_slice(), task, levels)
    }

    /// Whether the task is known, by what was told, to meet the condition of `open`. It may meet it where this
    /// is not known: an access is looked for in one access of the creator, never in several beside each other.
    pub fn may_open(&self, task: u64, parent: u64, access: Access) -> bool
        ensures { IsTrue result → MayOpen self.now.opens.items self.now.gives.items
            (record { task = task; parent = parent; accesses = access ∷ [] }) }
    {
        may_open(
            self.opens.as_slice(),
            self.gives.as_slice(),
            task,
            parent,
            access,
        )
    }

    /// Whether the task is known, by what was told, to meet the condition of `give`, once the ends of the range
    /// are cuts.
    pub fn may_give(&self, task: u64, range: Range) -> bool
        ensures { IsTrue result → MayGive self.now.opens.items self.now.gives.items task range }
    {
        may_give(self.opens.as_slice(), self.gives.as_slice(), task, range)
    }

    /// Opens a task with one access, where `may_open` allows it, and tells whether it was opened. Where it was
    /// not, and after want of memory, what was told is as before.
    pub fn open(&mut self, task: u64, parent: u64, access: Access) -> Result<bool, AllocError>
        requires { IsTold (D.seen self.old.system) self.old.opens.items self.old.gives.items }
        ensures told { IsTold (D.seen self.new.system) self.new.opens.items self.new.gives.items }
        ensures opened { result ≡ Gave true → self.new.opens.items ≡ self.old.opens.items ++
            record { task = task; parent = parent; accesses = access ∷ [] } ∷ [] }
        ensures not_opened { (result ≡ Gave true → ⊥) → self.new.opens.items ≡ self.old.opens.items }
        ensures gives { self.new.gives ≡ self.old.gives }
    {
        if !self.may_open(task, parent, access) {
            return Ok(false);
        }
        self.opens.reserve(1)?;
        let accesses = one(self.alloc, access)?;
        self.system.open(TaskNo(task), TaskNo(parent), &accesses)?;
        self.opens.push_reserved(Open {
            task,
            parent,
            accesses,
        });
        Ok(true)
    }

    /// A task gives up a range, whose ends are made cuts before, where `may_give` allows it. Tells whether it
    /// was given up. Where it was not, and after want of memory, what was told is as before.
    pub fn give(&mut self, task: u64, range: Range) -> Result<bool, AllocError>
        requires { IsTold (D.seen self.old.system) self.old.opens.items self.old.gives.items }
        ensures told { IsTold (D.seen self.new.system) self.new.opens.items self.new.gives.items }
        ensures given { result ≡ Gave true → self.new.gives.items ≡ self.old.gives.items ++ (task, range) ∷ [] }
        ensures not_given { (result ≡ Gave true → ⊥) → self.new.gives.items ≡ self.old.gives.items }
        ensures opens { self.new.opens ≡ self.old.opens }
    {
        if !self.may_give(task, range) {
            return Ok(false);
        }
        self.gives.reserve(1)?;
        self.system.prepare(range)?;
        self.system.give(TaskNo(task), range);
        self.gives.push_reserved((task, range));
        Ok(true)
    }

    /// Whether the task may begin; none exactly where there is no such task.
    pub fn met(&mut self, task: u64) -> Option<bool>
        requires { IsTold (D.seen self.old.system) self.old.opens.items self.old.gives.items }
        ensures told { IsTold (D.seen self.new.system) self.new.opens.items self.new.gives.items }
        ensures same { (self.new.opens ≡ self.old.opens) × (self.new.gives ≡ self.old.gives) }
        ensures some { IfSome result (λ r. IsTrue r ↔
            IsMet (D.seen self.old.system).opens (D.seen self.old.system).given task) }
        ensures none { IfNone result (IsKnown self.old.opens.items task → ⊥) }
    {
        match number_of(self.opens.as_slice(), task) {
            Some(_) => Some(self.system.met(TaskNo(task))),
            None => None,
        }
    }

    /// Whether the slot of the task for the first cell of a range may be joined; none where it is not known
    /// that the task has one access to the range, and that a reduction.
    pub fn may_join(&mut self, task: u64, range: Range) -> Option<bool>
        requires { IsTold (D.seen self.old.system) self.old.opens.items self.old.gives.items }
        ensures told { IsTold (D.seen self.new.system) self.new.opens.items self.new.gives.items }
        ensures same { (self.new.opens ≡ self.old.opens) × (self.new.gives ≡ self.old.gives) }
        ensures some { IfSome result (λ r. (op : Operator) →
            mode_in (D.seen self.old.system).opens range.lo task ≡ Fold op →
            (IsTrue r ↔ IsJoinSatisfied (opened_forest (D.seen self.old.system).opens
            (D.seen self.old.system).given range.lo) op task)) }
    {
        match mode_over(self.opens.as_slice(), task, range) {
            Some(Mode::Fold(_)) => {
                self.joins = self.joins.saturating_add(1);
                Some(self.system.may_join(TaskNo(task), range.lo))
            }
            _ => None,
        }
    }

    /// Whether the accesses of the task's children to a range are done; none exactly where there is no such task.
    pub fn children_done(&mut self, task: u64, range: Range) -> Option<bool>
        requires { IsTold (D.seen self.old.system) self.old.opens.items self.old.gives.items }
        ensures told { IsTold (D.seen self.new.system) self.new.opens.items self.new.gives.items }
        ensures same { (self.new.opens ≡ self.old.opens) × (self.new.gives ≡ self.old.gives) }
        ensures some { IfSome result (λ r. IsTrue r ↔ ((c : ℕ) → range.lo ≤ c → c < range.hi →
            AreChildrenDone (D.seen self.old.system).opens (D.seen self.old.system).given task c)) }
        ensures none { IfNone result (IsKnown self.old.opens.items task → ⊥) }
    {
        match number_of(self.opens.as_slice(), task) {
            Some(_) => Some(self.system.children_done(TaskNo(task), range)),
            None => None,
        }
    }

    /// The task that stands in the way of a task, if any does; none exactly where there is no such task.
    pub fn obstacle(&mut self, task: u64) -> Option<Option<TaskNo>>
        requires { IsTold (D.seen self.old.system) self.old.opens.items self.old.gives.items }
        ensures told { IsTold (D.seen self.new.system) self.new.opens.items self.new.gives.items }
        ensures same { (self.new.opens ≡ self.old.opens) × (self.new.gives ≡ self.old.gives) }
        ensures some { IfSome result (λ r. MatchOption r (IsMet (D.seen self.old.system).opens
            (D.seen self.old.system).given task) (λ u. Hinders (D.seen self.old.system).opens
            (D.seen self.old.system).given task u.0)) }
        ensures none { IfNone result (IsKnown self.old.opens.items task → ⊥) }
    {
        match number_of(self.opens.as_slice(), task) {
            Some(_) => Some(self.system.obstacle(TaskNo(task))),
            None => None,
        }
    }

    /// A child of the task with an access to a range that is not done, if there is one; none exactly where
    /// there is no such task.
    pub fn undone_child(&mut self, task: u64, range: Range) -> Option<Option<TaskNo>>
        requires { IsTold (D.seen self.old.system) self.old.opens.items self.old.gives.items }
        ensures told { IsTold (D.seen self.new.system) self.new.opens.items self.new.gives.items }
        ensures same { (self.new.opens ≡ self.old.opens) × (self.new.gives ≡ self.old.gives) }
        ensures some { IfSome result (λ r. MatchOption r ((c : ℕ) → range.lo ≤ c → c < range.hi →
            AreChildrenDone (D.seen self.old.system).opens (D.seen self.old.system).given task c) (λ u.
            HasUndoneChild (D.seen self.old.system).opens (D.seen self.old.system).given task range.lo range.hi u.0)) }
        ensures none { IfNone result (IsKnown self.old.opens.items task → ⊥) }
    {
        match number_of(self.opens.as_slice(), task) {
            Some(_) => Some(self.system.undone_child(TaskNo(task), range)),
            None => None,
        }
    }
}
