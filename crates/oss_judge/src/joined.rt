//! The accesses of a task, by ranges.
ghost use Rattle.std.specs.Prelude.{◌≡◌, ℕ, Bool, ◌<◌, ◌≤◌, ◌↔◌, false, IfOk, IsTrue, OnOk};
ghost use Rattle.oss_model.specs.Rights.{Holds, NoRight, first_mark, mark_from, right_from};
ghost use Rattle.oss_judge.specs.Joined.{Adds, Continues, IsBelow, IsRising, IsRun, held_mark, held_right};
ghost use Rattle.oss_judge.specs.Seen.{mark_at, mark_seen, right_at};

use crate::mark::{self, Mark};
use crate::right::{self, Right};
use oss_ranges::RangeMap;
use oss_syntax::{Access, Mode, Range};
use std::alloc::{AllocError, Global};

/// How many cells a program may have.
const CELLS: u32 = 1_048_576;

/// The accesses that give the rights and the marks of maps, in rising order and as few as can be.
pub(crate) fn accesses_of(
    alloc: Global,
    rights: &RangeMap<Right>,
    marks: &RangeMap<Mark>,
) -> Result<Vec<Access>, AllocError>
    ensures rights { IfOk result (λ accesses. (c : ℕ) →
        right_from false accesses.items c ≡ held_right (right_at rights.now.pieces c)) }
    ensures marks { IfOk result (λ accesses. (c : ℕ) →
        mark_from false accesses.items c ≡ held_mark (right_at rights.now.pieces c) (mark_at marks.now.pieces c)) }
    ensures rising { IfOk result (λ accesses. IsRising accesses.items) }
{
    let mut accesses = Vec::new(alloc);
    let mut from = 0;
    'runs: while from < CELLS {
        let run = run_at(rights, marks, from);
        match run.access {
            Some(access) => add(&mut accesses, access)?,
            None => {}
        }
        from = run.end;
    }
    Ok(accesses)
}

/// Cells that stand side by side and are alike: the access to them, if the task has a right to them, and the
/// cell behind them.
#[derive(Clone, Copy)]
struct Run {
    access: Option<Access>,
    end: u32,
}

/// The run of cells that begins with `from`. Only where there is a right the marks are asked, so that all runs
/// together cost what the runs of the rights cost and those of the marks inside of them.
fn run_at(rights: &RangeMap<Right>, marks: &RangeMap<Mark>, from: u32) -> Run
    requires { from < 1048576 }
    ensures run { IsRun (right_at rights.now.pieces) (mark_at marks.now.pieces) from result.end result.access }
    ensures some { from < result.end }
    ensures within { result.end ≤ 1048576 }
    ensures past { (c : ℕ) → 1048576 ≤ c → right_at rights.now.pieces c ≡ NoRight }
{
    let (own, end) = rights.run_from(from, CELLS);
    match right::told(own).held() {
        Some((mode, strong)) => {
            let (mark, end) = marks.run_from(from, end);
            let access = Access {
                range: Range { lo: from, hi: end },
                mode,
                strong,
                fresh: is_written_first(mode, mark::told(mark)),
            };
            Run {
                access: Some(access),
                end,
            }
        }
        None => Run { access: None, end },
    }
}

/// A cell with a right of this mode is written before it is read.
fn is_written_first(mode: Mode, mark: Mark) -> bool
    ensures { (strong : Bool) → first_mark (Holds mode strong) result ≡ held_mark (Holds mode strong) (mark_seen mark) }
{
    match mode {
        Mode::Write => match mark {
            Mark::Unwritten => true,
            Mark::Written => false,
        },
        Mode::Read => false,
        Mode::Fold(_) => false,
    }
}

/// Adds an access behind all others: to the last one, where that ends there and is alike.
fn add(accesses: &mut Vec<Access>, next: Access) -> Result<(), AllocError>
    requires below { IsBelow next.range.lo accesses.old.items }
    requires rising { IsRising accesses.old.items }
    ensures { OnOk result (Adds next accesses.old.items accesses.new.items) }
{
    match accesses.pop() {
        Some(last) => {
            if is_continued(&last, &next) {
                accesses.push(joined(&last, &next))?;
            } else {
                accesses.push(last)?;
                accesses.push(next)?;
            }
        }
        None => accesses.push(next)?,
    }
    Ok(())
}

/// The second access goes on where the first ends, alike.
fn is_continued(first: &Access, second: &Access) -> bool
    ensures { IsTrue result ↔ Continues first.now second.now }
{
    first.range.hi == second.range.lo
        && first.mode == second.mode
        && first.strong == second.strong
        && first.fresh == second.fresh
}

/// One access in place of two.
fn joined(first: &Access, second: &Access) -> Access
    requires { first.now.range.hi ≡ second.now.range.lo }
    ensures lo { result.range.lo ≡ first.now.range.lo }
    ensures hi { result.range.hi ≡ second.now.range.hi }
    ensures mode { result.mode ≡ second.now.mode }
    ensures strong { result.strong ≡ second.now.strong }
    ensures fresh { result.fresh ≡ second.now.fresh }
{
    Access {
        range: Range {
            lo: first.range.lo,
            hi: second.range.hi,
        },
        mode: second.mode,
        strong: second.strong,
        fresh: second.fresh,
    }
}
