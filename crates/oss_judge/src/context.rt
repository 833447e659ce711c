//! The context of a task: the judge tells by it whether an act has a fault, and notes in it what the act has done.
ghost use Rattle.std.specs.Prelude.{◌≡◌, ℕ, Bool, ◌+◌, ◌<◌, ◌≤◌, ◌||◌, false, true, if◌then◌else◌, [], length, map, Some, None, IfErr, IfOk, OnErr, OnOk};
ghost use Rattle.std.specs.Result.{result_err};
ghost use Rattle.oss_model.specs.Rights.{Folds, Holds, Reads, Writes, first_mark, is_fresh, is_released, mark_from, right_from, touch_fault};
ghost use Rattle.oss_model.specs.Context.{child_context, clause_fault, create_fault, lend, lent_of, made, main_context, mark_of, release, release_fault, right_of, tick_fault, wait_on_fault, waited, waited_on, wrote};
ghost use Rattle.oss_model.specs.Bodies.{one_more_created};
ghost use Rattle.oss_judge.specs.Given.{IsGiven};
ghost use Rattle.oss_judge.specs.Joined.{IsRising, held_mark, held_right};
ghost use Rattle.oss_judge.specs.Parts.{cover_fault, fold_part, reading};
ghost use Rattle.oss_judge.specs.Refusal.{IsRefusal};
ghost use Rattle.oss_judge.specs.Seen.{lending_seen, mark_at, mark_seen, right_at, right_seen};
ghost use Rattle.oss_judge.specs.View.{EndsBefore, start_context};
ghost use Rattle.oss_syntax.specs.declared.access.Mode.TheVariants as Mode;

use crate::changes::{change_all, change_both, endings, lendings, takings, writings};
use crate::checks::{check_covered, check_waited_on};
use crate::given::mark_all;
use crate::given_rights::Given;
use crate::joined::accesses_of;
use crate::lending::{self, Lending};
use crate::mark::{self, Mark};
use crate::refused::{JudgeRefused, refused_by};
use crate::right::{self, Right};
use crate::touches;
use oss_model::FaultKind;
use oss_ranges::RangeMap;
use oss_syntax::{Access, List, Mode, Op, Range};
use std::alloc::{AllocError, Global};
use std::marker::Model;

/// What the judge knows of one task: its right to each cell of the program, what it has lent, which cells it
/// has yet to write, and how far it has used up its limits. It keeps ranges of cells, so its size is that of
/// the task's clauses and of what the task has done with their parts.
pub struct Context {
    alloc: Global,
    cells: u32,
    rights: RangeMap<Right>,
    lent: RangeMap<Lending>,
    marks: RangeMap<Mark>,
    ticks: u32,
    fuel: u32,
    created: u32,
    depth: u32,
    is_final: bool,
}

// By hand, so that who lets one go calls this, and does not take it apart at each exit.
impl Drop for Context {
    fn drop(self) {
        let Context {
            alloc: _,
            cells: _,
            rights,
            lent,
            marks,
            ticks: _,
            fuel: _,
            created: _,
            depth: _,
            is_final: _,
        } = self;
        drop(rights);
        drop(lent);
        drop(marks);
    }
}

impl Model for Context {
    ghost use Rattle.std.specs.Prelude.{◌≤◌};
    ghost use Rattle.oss_model.specs.Context.{Context as Meaning, table_from};

    ghost Value = { Meaning };

    ghost use Rattle.oss_judge.specs.Seen.{entry_at};
    ghost use Rattle.oss_judge.specs.View.{EndsBefore};

    ghost view = { λ x. record {
      entries = table_from (entry_at x.rights.pieces x.lent.pieces x.marks.pieces) 0
          x.cells;
      ticks = x.ticks;
      fuel = x.fuel;
      created = x.created;
      depth = x.depth;
      final = x.is_final;
    } };

    ghost invariant = { λ x. (x.cells ≤ 1048576) × (x.created ≤ 65535) × EndsBefore x.cells x.rights.pieces ×
        EndsBefore x.cells x.lent.pieces × EndsBefore x.cells x.marks.pieces };
}

impl Context {
    /// The context of main, which may write every cell. It takes memory for one range.
    pub fn main(alloc: Global, cells: u32, fuel: u32) -> Result<Context, AllocError>
        requires { cells ≤ 1048576 }
        ensures { IfOk result (λ main. main ≡ main_context cells fuel) }
    {
        let rights = all_rights(alloc, cells)?;
        Ok(Context {
            alloc,
            cells,
            rights,
            lent: RangeMap::new(alloc),
            marks: RangeMap::new(alloc),
            ticks: 0,
            fuel,
            created: 0,
            depth: 0,
            is_final: false,
        })
    }

    /// The right to a cell: nothing, nothing any more, or what the clauses of the task say. It takes no memory.
    pub fn right(&self, cell: u32) -> Right
        ensures { right_seen result ≡ right_of self.now cell }
    {
        right::told(self.rights.get(cell))
    }

    /// What is lent of a cell.
    fn lending(&self, cell: u32) -> Lending
        ensures { lending_seen result ≡ lent_of self.now cell }
    {
        lending::told(self.lent.get(cell))
    }

    /// The mark of a cell.
    fn mark(&self, cell: u32) -> Mark
        ensures { mark_seen result ≡ mark_of self.now cell }
    {
        mark::told(self.marks.get(cell))
    }

    /// The fault of a read of a cell. It takes no memory.
    pub fn may_read(&self, cell: u32) -> Result<(), FaultKind>
        ensures { result_err result ≡ touch_fault (right_of self.now cell) (lent_of self.now cell)
            (mark_of self.now cell) Reads }
    {
        touches::may_read(self.right(cell), self.lending(cell), self.mark(cell))
    }

    /// The fault of a write of a cell. It takes no memory.
    pub fn may_write(&self, cell: u32) -> Result<(), FaultKind>
        ensures { result_err result ≡ touch_fault (right_of self.now cell) (lent_of self.now cell)
            (mark_of self.now cell) Writes }
    {
        touches::may_write(self.right(cell), self.lending(cell))
    }

    /// The fault of a fold into a cell. It takes no memory.
    pub fn may_fold(&self, cell: u32, op: Op) -> Result<(), FaultKind>
        ensures { result_err result ≡ touch_fault (right_of self.now cell) (lent_of self.now cell)
            (mark_of self.now cell) (Folds op) }
    {
        touches::may_fold(self.right(cell), self.lending(cell), self.mark(cell), op)
    }

    /// The operator of the reduction whose right the task has to a cell; `None` where it has no such right.
    pub fn fold_op(&self, cell: u32) -> Option<Op>
        ensures { result ≡ fold_part (right_of self.now cell) }
    {
        self.right(cell).fold_op()
    }

    /// Whether the task has released a cell. It takes no memory.
    pub fn has_released(&self, cell: u32) -> bool
        ensures { result ≡ is_released (right_of self.now cell) }
    {
        self.right(cell).is_released()
    }

    /// A run of cells from one on, up to another: whether the task has released each of them, or none, and
    /// where the run ends, which is at the other one or where that changes. It costs what the ranges that the task has
    /// do, and takes no memory.
    pub fn released_run(&self, from: u32, to: u32) -> (bool, u32)
        requires { from < to }
        ensures alike { (cell : ℕ) → from ≤ cell → cell < result.1 → is_released (right_of self.now cell) ≡ result.0 }
        ensures some { from < result.1 }
        ensures within { result.1 ≤ to }
        ensures whole { result.1 < to → is_released (right_of self.now result.1) ≡ result.0 → ⊥ }
    {
        let (right, end) = self.right_run(from, to);
        let released = right.is_released();
        (released, self.end_of_run(released, end, to))
    }

    /// The first cell from one on, up to another, that the task has released where `released` is false, or has not
    /// where it is true; the other one where there is none.
    fn end_of_run(&self, released: bool, from: u32, to: u32) -> u32
        requires { from ≤ to }
        ensures alike { (cell : ℕ) → from ≤ cell → cell < result → is_released (right_of self.now cell) ≡ released }
        ensures some { from ≤ result }
        ensures within { result ≤ to }
        ensures whole { result < to → is_released (right_of self.now result) ≡ released → ⊥ }
    {
        let mut end = from;
        while end < to {
            let (right, next) = self.right_run(end, to);
            if right.is_released() != released {
                return end;
            }
            end = next;
        }
        end
    }

    /// A run of cells from one on, up to another: the right to each of them, and where the run ends. It costs what the
    /// ranges that the task has do, and takes no memory.
    pub fn right_run(&self, from: u32, to: u32) -> (Right, u32)
        requires { from < to }
        ensures alike { (cell : ℕ) → from ≤ cell → cell < result.1 → right_of self.now cell ≡ right_seen result.0 }
        ensures some { from < result.1 }
        ensures within { result.1 ≤ to }
    {
        let (right, end) = self.rights.run_from(from, to);
        (right::told(right), end)
    }

    /// Whether a cell is written already, or is none, so that marking it as written changes nothing. It takes
    /// no memory.
    #[inline(always)]
    pub fn is_written(&self, cell: u32) -> bool
        ensures { result ≡ true → wrote cell self.now ≡ self.now }
    {
        if cell >= self.cells {
            return true;
        }
        match self.marks.get(cell) {
            Some(_) => false,
            None => true,
        }
    }

    /// Marks a cell as written. A cell that is written already takes no memory. Where memory is wanting the
    /// context stays.
    pub fn wrote(&mut self, cell: u32) -> Result<(), AllocError>
        ensures ok { OnOk result (self.new ≡ wrote cell self.old) }
        ensures err { OnErr result (self.new ≡ self.old) }
    {
        if cell >= self.cells {
            return Ok(());
        }
        match self.marks.get(cell) {
            Some(_) => {
                self.marks.clear(Range {
                    lo: cell,
                    hi: cell + 1,
                })?;
                Ok(())
            }
            None => Ok(()),
        }
    }

    /// The fault of a tick.
    pub fn may_tick(&self) -> Result<(), FaultKind>
        ensures { result_err result ≡ tick_fault self.now }
    {
        if self.ticks < self.fuel {
            Ok(())
        } else {
            Err(FaultKind::OutOfFuel)
        }
    }

    /// Does one more tick. Where the fuel is used up the context stays.
    pub fn tick(&mut self) -> Result<(), FaultKind>
        ensures fault { result_err result ≡ tick_fault self.old }
        ensures ok { OnOk result (self.new ≡ record self.old { ticks = self.old.ticks + 1 }) }
        ensures err { OnErr result (self.new ≡ self.old) }
    {
        if self.ticks < self.fuel {
            self.ticks += 1;
            Ok(())
        } else {
            Err(FaultKind::OutOfFuel)
        }
    }

    /// The fault of the beginning of a creation, before its clauses are evaluated.
    pub fn may_create(&self) -> Result<(), FaultKind>
        ensures { result_err result ≡ create_fault self.now }
    {
        if self.depth >= 64 {
            return Err(FaultKind::TooDeep);
        }
        if self.created >= 65_535 {
            return Err(FaultKind::TooManyTasks);
        }
        Ok(())
    }

    /// The fault of a creation with these clauses, after its beginning. The new task is final where this one
    /// is, or where it is the last that is not included.
    pub fn may_give(&self, clauses: &List<Access>, last: bool) -> Result<(), JudgeRefused>
        ensures allowed { OnOk result (clause_fault self.now clauses.now (self.now.final || last) ≡ None) }
        ensures refused { IfErr result (IsRefusal (clause_fault self.now clauses.now (self.now.final || last))) }
    {
        let given = Given::of(self.alloc, clauses, self.is_child_final(last))?;
        refused_by(self.may_give_these(&given, clauses))
    }

    /// The fault of a creation with these clauses, after its beginning, where it is known what they give to the
    /// new task: `MixedAccess` where two of them cannot be joined, else `Released` where the task has released
    /// one of the cells, and else `NotCovered` where its right to one of them does not cover what the clauses
    /// give. It takes no memory.
    pub fn may_give_these(&self, given: &Given, clauses: &List<Access>) -> Result<(), FaultKind>
        ensures { (final : Bool) → IsGiven final clauses.now given.now →
            result_err result ≡ clause_fault self.now clauses.now final }
    {
        if given.is_mixed {
            return Err(FaultKind::MixedAccess);
        }
        self.check_given(&given.rights, clauses)
    }

    /// The fault of the cells that clauses name, where they give these rights. That two of the clauses cannot
    /// be joined is not asked.
    fn check_given(&self, given: &RangeMap<Right>, clauses: &List<Access>) -> Result<(), FaultKind>
        ensures { result_err result ≡ cover_fault (right_of self.now) (right_at given.now.pieces) clauses.now }
    {
        check_covered(&self.rights, given, clauses.as_slice())
    }

    /// The context of a new task with these clauses. It is final where its creator is, or where it is the last
    /// that is not included.
    pub fn child(&self, clauses: &List<Access>, last: bool) -> Result<Context, JudgeRefused>
        requires { create_fault self.now ≡ None }
        ensures ok { IfOk result (λ child. child ≡ child_context self.now clauses.now last) }
        ensures allowed { OnOk result (clause_fault self.now clauses.now (self.now.final || last) ≡ None) }
        ensures refused { IfErr result (IsRefusal (clause_fault self.now clauses.now (self.now.final || last))) }
    {
        let given = Given::of(self.alloc, clauses, self.is_child_final(last))?;
        self.child_given(&given, clauses, last)
    }

    /// The context of a new task with these clauses, if it has no fault, where it is known what they give.
    fn child_given(
        &self,
        given: &Given,
        clauses: &List<Access>,
        last: bool,
    ) -> Result<Context, JudgeRefused>
        requires depth { self.now.depth < 64 }
        requires given { IsGiven (self.now.final || last) clauses.now given.now }
        ensures ok { IfOk result (λ child. child ≡ child_context self.now clauses.now last) }
        ensures allowed { OnOk result (clause_fault self.now clauses.now (self.now.final || last) ≡ None) }
        ensures refused { IfErr result (IsRefusal (clause_fault self.now clauses.now (self.now.final || last))) }
    {
        match self.may_give_these(given, clauses) {
            Ok(()) => match self.start(given, clauses, last) {
                Ok(child) => Ok(child),
                Err(full) => Err(JudgeRefused::Memory(full)),
            },
            Err(kind) => Err(JudgeRefused::Fault(kind)),
        }
    }

    /// The context in which a new task with these clauses starts, where it is known what they give to it,
    /// whether or not they may be given. It is final where its creator is, or where it is the last that is not
    /// included. Where memory is wanting nothing has happened.
    pub fn start(
        &self,
        given: &Given,
        clauses: &List<Access>,
        last: bool,
    ) -> Result<Context, AllocError>
        requires { self.now.depth < 64 }
        ensures { IfOk result (λ child. IsGiven (self.now.final || last) clauses.now given.now →
            child ≡ child_context self.now clauses.now last) }
    {
        let mut rights = RangeMap::new(self.alloc);
        let mut marks = RangeMap::new(self.alloc);
        match self.fill(&mut rights, &mut marks, &given.rights, clauses) {
            Ok(()) => Ok(self.started(rights, marks, self.is_child_final(last))),
            Err(full) => Err(full),
        }
    }

    /// A new task is final.
    fn is_child_final(&self, last: bool) -> bool
        ensures { result ≡ (self.now.final || last) }
    {
        self.is_final || last
    }

    /// Puts the rights and the marks with which a new task starts in the place of others. The given rights are
    /// those of its clauses.
    fn fill(
        &self,
        rights: &mut RangeMap<Right>,
        marks: &mut RangeMap<Mark>,
        given: &RangeMap<Right>,
        clauses: &List<Access>,
    ) -> Result<(), AllocError>
        requires { marks.old.pieces ≡ [] }
        ensures rights { OnOk result ((c : ℕ) → c < length self.now.entries →
            right_at rights.new.pieces c ≡ right_at given.now.pieces c) }
        ensures marks { OnOk result ((c : ℕ) → c < length self.now.entries →
            mark_at marks.new.pieces c ≡ first_mark (right_at given.now.pieces c) (is_fresh clauses.now c)) }
        ensures rights_end { OnOk result (EndsBefore (length self.now.entries) rights.new.pieces) }
        ensures marks_end { OnOk result (EndsBefore (length self.now.entries) marks.new.pieces) }
    {
        copy_to(given, rights)?;
        mark_all(marks, given, clauses.as_slice())?;
        rights.truncate(self.cells)?;
        marks.truncate(self.cells)?;
        Ok(())
    }

    /// The context in which a new task starts that has these rights and marks.
    fn started(&self, rights: RangeMap<Right>, marks: RangeMap<Mark>, is_final: bool) -> Context
        requires depth { self.now.depth < 64 }
        requires rights { EndsBefore (length self.now.entries) rights.pieces }
        requires marks { EndsBefore (length self.now.entries) marks.pieces }
        ensures { result ≡ start_context self.now (right_at rights.pieces) (mark_at marks.pieces) is_final }
    {
        Context {
            alloc: self.alloc,
            cells: self.cells,
            rights,
            lent: RangeMap::new(self.alloc),
            marks,
            ticks: 0,
            fuel: self.fuel,
            created: 0,
            depth: self.depth + 1,
            is_final,
        }
    }

    /// Notes that the task has created one more.
    pub fn created(&mut self)
        requires { self.old.created < 65535 }
        ensures { self.new ≡ record self.old { created = self.old.created + 1 } }
    {
        self.created += 1;
    }

    /// Notes a creation of a task to which nothing is lent, as one that is included: one more is created, and
    /// what the child has a right to write counts as written. Where memory is wanting the context stays.
    pub fn noted(&mut self, child: &Context) -> Result<(), AllocError>
        requires { self.old.created < 65535 }
        ensures ok { OnOk result (self.new ≡ made (right_of child.now) (one_more_created self.old)) }
        ensures err { OnErr result (self.new ≡ self.old) }
    {
        self.made_by(child)?;
        self.created();
        Ok(())
    }

    /// Notes a creation, and lends the child the cells to which it has a right: one more is created, and what
    /// the child has a right to write counts as written. Where memory is wanting the context stays.
    pub fn noted_and_lent(&mut self, child: &Context) -> Result<(), AllocError>
        requires { self.old.created < 65535 }
        ensures ok { OnOk result (self.new ≡ made (right_of child.now)
            (lend (right_of child.now) (one_more_created self.old))) }
        ensures err { OnErr result (self.new ≡ self.old) }
    {
        self.lend_and_mark(&child.rights)?;
        self.created();
        Ok(())
    }

    /// Lends cells by these rights to them, and marks those as written that the rights give to write.
    fn lend_and_mark(&mut self, given: &RangeMap<Right>) -> Result<(), AllocError>
        ensures ok { OnOk result (self.new ≡ made (right_at given.now.pieces)
            (lend (right_at given.now.pieces) self.old)) }
        ensures err { OnErr result (self.new ≡ self.old) }
    {
        let lent = lendings(self.alloc, &self.lent, given, self.cells)?;
        let written = writings(self.alloc, &self.marks, given, self.cells)?;
        change_both(
            &mut self.lent,
            &mut self.marks,
            lent.as_slice(),
            written.as_slice(),
        )?;
        Ok(())
    }

    /// Lends the cells of a child's accesses to it. Where memory is wanting the context stays.
    pub fn lend(&mut self, accesses: &List<Access>) -> Result<(), AllocError>
        ensures ok { OnOk result (self.new ≡ lend (right_from false accesses.now) self.old) }
        ensures err { OnErr result (self.new ≡ self.old) }
    {
        let given = Given::of(self.alloc, accesses, false)?;
        self.lend_rights(&given.rights)
    }

    /// Lends the cells of a child to it, with the right that it has to each. Where memory is wanting the context stays.
    pub fn lend_to(&mut self, child: &Context) -> Result<(), AllocError>
        ensures ok { OnOk result (self.new ≡ lend (right_of child.now) self.old) }
        ensures err { OnErr result (self.new ≡ self.old) }
    {
        self.lend_rights(&child.rights)?;
        Ok(())
    }

    /// Lends cells by these rights to them.
    fn lend_rights(&mut self, given: &RangeMap<Right>) -> Result<(), AllocError>
        ensures ok { OnOk result (self.new ≡ lend (right_at given.now.pieces) self.old) }
        ensures err { OnErr result (self.new ≡ self.old) }
    {
        let changes = lendings(self.alloc, &self.lent, given, self.cells)?;
        change_all(&mut self.lent, changes.as_slice())?;
        Ok(())
    }

    /// Marks the cells as written that a child's accesses give it to write. Where memory is wanting the context stays.
    pub fn made(&mut self, accesses: &List<Access>) -> Result<(), AllocError>
        ensures ok { OnOk result (self.new ≡ made (right_from false accesses.now) self.old) }
        ensures err { OnErr result (self.new ≡ self.old) }
    {
        let given = Given::of(self.alloc, accesses, false)?;
        self.mark_rights(&given.rights)
    }

    /// Marks the cells as written that a child has a right to write. Where memory is wanting the context stays.
    pub fn made_by(&mut self, child: &Context) -> Result<(), AllocError>
        ensures ok { OnOk result (self.new ≡ made (right_of child.now) self.old) }
        ensures err { OnErr result (self.new ≡ self.old) }
    {
        self.mark_rights(&child.rights)?;
        Ok(())
    }

    /// Marks the cells as written that these rights give to write.
    fn mark_rights(&mut self, given: &RangeMap<Right>) -> Result<(), AllocError>
        ensures ok { OnOk result (self.new ≡ made (right_at given.now.pieces) self.old) }
        ensures err { OnErr result (self.new ≡ self.old) }
    {
        let changes = writings(self.alloc, &self.marks, given, self.cells)?;
        change_all(&mut self.marks, changes.as_slice())?;
        Ok(())
    }

    /// The fault of a release of the cells of these clauses.
    pub fn may_release(&self, clauses: &List<Access>) -> Result<(), JudgeRefused>
        ensures allowed { OnOk result (release_fault self.now clauses.now ≡ None) }
        ensures refused { IfErr result (IsRefusal (release_fault self.now clauses.now)) }
    {
        let given = Given::of(self.alloc, clauses, false)?;
        refused_by(self.may_release_these(&given, clauses))
    }

    /// The fault of a release of the cells of these clauses, where it is known what they give to a task that is
    /// not final: `Released` where the task has released one of the cells, and else `NotCovered` where its
    /// right to one of them does not cover what the clauses give. It takes no memory.
    pub fn may_release_these(&self, given: &Given, clauses: &List<Access>) -> Result<(), FaultKind>
        ensures { IsGiven false clauses.now given.now → result_err result ≡ release_fault self.now clauses.now }
    {
        self.check_given(&given.rights, clauses)
    }

    /// Ends the right to the cells of these clauses, of which it was tested that they may be released. Where
    /// memory is wanting the context stays.
    pub fn released(&mut self, clauses: &List<Access>) -> Result<(), AllocError>
        ensures ok { OnOk result (self.new ≡ release clauses.now self.old) }
        ensures err { OnErr result (self.new ≡ self.old) }
    {
        let changes = endings(self.alloc, clauses.as_slice(), self.cells)?;
        change_all(&mut self.rights, changes.as_slice())?;
        Ok(())
    }

    /// Ends the right to the cells of these clauses. Where it is refused the context stays.
    pub fn release(&mut self, clauses: &List<Access>) -> Result<(), JudgeRefused>
        ensures ok { OnOk result (self.new ≡ release clauses.now self.old) }
        ensures allowed { OnOk result (release_fault self.old clauses.now ≡ None) }
        ensures refused { IfErr result (IsRefusal (release_fault self.old clauses.now)) }
        ensures err { OnErr result (self.new ≡ self.old) }
    {
        self.may_release(clauses)?;
        self.released(clauses)?;
        Ok(())
    }

    /// Takes back all that is lent, after a wait for the children. It takes no memory.
    pub fn waited(&mut self)
        ensures { self.new ≡ waited self.old }
    {
        self.lent = RangeMap::new(self.alloc);
    }

    /// The fault of a wait for the children's accesses to the cells of these ranges: `Released` where the task
    /// has released one of the cells, and else `NotCovered` where it never had a right to one of them. It takes
    /// no memory.
    pub fn may_wait_on(&self, named: &List<Range>) -> Result<(), FaultKind>
        ensures { result_err result ≡ wait_on_fault self.now (map reading named.now) }
    {
        check_waited_on(&self.rights, named.as_slice())
    }

    /// Takes back what is lent of the cells of these ranges, of which it was tested that the task may wait for
    /// them. Where memory is wanting the context stays.
    pub fn took_back(&mut self, named: &List<Range>) -> Result<(), AllocError>
        ensures ok { OnOk result (self.new ≡ waited_on (map reading named.now) self.old) }
        ensures err { OnErr result (self.new ≡ self.old) }
    {
        let changes = takings(self.alloc, named.as_slice())?;
        change_all(&mut self.lent, changes.as_slice())?;
        Ok(())
    }

    /// Takes back what is lent of the cells of these ranges, after a wait for the children's accesses to them.
    /// `Ok` means that the wait has no fault and that this is done. Otherwise the context stays as it was: the
    /// fault is `Released` where the task has released one of the cells, and else `NotCovered` where it never
    /// had a right to one of them. Want of memory may come in place of each of these answers.
    pub fn waited_on(&mut self, named: &List<Range>) -> Result<(), JudgeRefused>
        ensures ok { OnOk result (self.new ≡ waited_on (map reading named.now) self.old) }
        ensures allowed { OnOk result (wait_on_fault self.old (map reading named.now) ≡ None) }
        ensures refused { IfErr result (IsRefusal (wait_on_fault self.old (map reading named.now))) }
        ensures err { OnErr result (self.new ≡ self.old) }
    {
        self.may_wait_on(named)?;
        self.took_back(named)?;
        Ok(())
    }

    /// The accesses of the task: they give the rights that it holds and the marks of the cells that it may
    /// write, each cell once, in rising order and as few as can be.
    pub fn accesses(&self) -> Result<List<Access>, AllocError>
        ensures rights { IfOk result (λ accesses. (c : ℕ) →
            right_from false accesses c ≡ held_right (right_of self.now c)) }
        ensures marks { IfOk result (λ accesses. (c : ℕ) →
            mark_from false accesses c ≡ held_mark (right_of self.now c) (mark_of self.now c)) }
        ensures rising { IfOk result (λ accesses. IsRising accesses) }
    {
        let accesses = accesses_of(self.alloc, &self.rights, &self.marks)?;
        Ok(List::from_vec(accesses))
    }

    /// A copy of the context.
    pub fn copy(&self) -> Result<Context, AllocError>
        ensures { IfOk result (λ copy. copy ≡ self.now) }
    {
        let mut rights = RangeMap::new(self.alloc);
        let mut lent = RangeMap::new(self.alloc);
        let mut marks = RangeMap::new(self.alloc);
        let rights_made = copy_to(&self.rights, &mut rights);
        let lent_made = copy_to(&self.lent, &mut lent);
        let marks_made = copy_to(&self.marks, &mut marks);
        match rights_made.and(lent_made).and(marks_made) {
            Ok(()) => Ok(Context {
                alloc: self.alloc,
                cells: self.cells,
                rights,
                lent,
                marks,
                ticks: self.ticks,
                fuel: self.fuel,
                created: self.created,
                depth: self.depth,
                is_final: self.is_final,
            }),
            Err(full) => Err(full),
        }
    }

    /// How many tasks stand above this one: 64 at most.
    pub fn depth(&self) -> u32
        ensures { result ≡ self.now.depth }
    {
        self.depth
    }

    /// How many ticks the task may make in all.
    pub fn fuel(&self) -> u32
        ensures { result ≡ self.now.fuel }
    {
        self.fuel
    }

    /// How many tasks this one has created.
    pub fn created_count(&self) -> u32
        ensures count { result ≡ self.now.created }
        ensures few { result ≤ 65535 }
    {
        self.created
    }

    /// Whether the task is final, so that it includes the tasks that it creates.
    pub fn is_final(&self) -> bool
        ensures { result ≡ self.now.final }
    {
        self.is_final
    }
}

/// Puts a copy of a map in the place of another, which it drops.
fn copy_to<T: Copy + Eq>(map: &RangeMap<T>, copy: &mut RangeMap<T>) -> Result<(), AllocError>
    ensures { OnOk result (copy.new.pieces ≡ map.now.pieces) }
{
    *copy = map.copy()?;
    Ok(())
}

/// The rights of main to so many cells.
fn all_rights(alloc: Global, cells: u32) -> Result<RangeMap<Right>, AllocError>
    requires { cells ≤ 1048576 }
    ensures rights { IfOk result (λ rights. (c : ℕ) → c < cells → right_at rights.pieces c ≡ Holds Mode.Write true) }
    ensures ends { IfOk result (λ rights. EndsBefore cells rights.pieces) }
{
    let mut rights = RangeMap::new(alloc);
    if cells == 0 {
        return Ok(rights);
    }
    rights.assign(Range { lo: 0, hi: cells }, Right::Holds(Mode::Write, true))?;
    Ok(rights)
}
