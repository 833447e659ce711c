//! What all clauses of a task say of its cells, and what they lack: worked examples of the definitions, cell by cell.

ghost use Rattle.std.specs.Prelude.{◌<◌, ◌≤◌};

use oss_needs::{Clause, Demand, Given, Lack};
use oss_syntax::{Access, Mode, Op, Range};
use oss_task_needs::{Givens, Mending, TaskNeeds};
use std::alloc::{AllocError, Global};
use std::process::Abort;
use std::test::Fail;

/// `in(x)`, `out(x)`, `inout(x)`, and with weak before them.
fn clause(mode: Mode, strong: bool, fresh: bool) -> Clause {
    Clause {
        mode,
        strong,
        fresh,
    }
}

/// A clause of a pragma that says this of some cells.
fn access(lo: u32, hi: u32, clause: Clause) -> Access
    requires some { lo < hi }
    requires within { hi ≤ 1048576 }
{
    Access {
        range: Range { lo, hi },
        mode: clause.mode,
        strong: clause.strong,
        fresh: clause.fresh,
    }
}

/// `in` of the cells 0 to 2; then stores into the cells 1 and 3.
fn read_and_stored(alloc: Global) -> Result<Mending, AllocError> {
    let read = clause(Mode::Read, true, false);
    let givens = Givens::of(alloc, &[access(0, 3, read)], false)?;
    let mut needs = TaskNeeds::new(alloc);
    needs.ask(Range { lo: 1, hi: 2 }, Demand::Store)?;
    needs.ask(Range { lo: 3, hi: 4 }, Demand::Store)?;
    Mending::of(alloc, &givens, &needs)
}

#[test]
fn stores_under_a_clause_to_read(rt: HostRuntime) -> Result<(), Fail> {
    let read = clause(Mode::Read, true, false);
    let write = clause(Mode::Write, true, false);
    let fresh = clause(Mode::Write, true, true);
    let mending = read_and_stored(rt.alloc())?;
    let wanted = [Some(read), Some(write), Some(read), Some(fresh), None];
    for cell in 0..5u32 {
        assert!(&rt; mending.clauses.get(cell) == wanted[cell as usize]);
    }
    let lacks = [
        None,
        Some(Lack::Adds(fresh)),
        None,
        Some(Lack::Adds(fresh)),
        None,
    ];
    for cell in 0..5u32 {
        assert!(&rt; mending.lacks.get(cell) == lacks[cell as usize]);
    }
    drop(mending);
    Ok(())
}

#[test]
fn what_a_task_lacks_its_creator_lacks_weakly(rt: HostRuntime) -> Result<(), Fail> {
    let mending = read_and_stored(rt.alloc())?;
    let mut needs = TaskNeeds::new(rt.alloc());
    needs.ask(Range { lo: 0, hi: 1 }, Demand::Load)?;
    needs.ask_for(&mending.clauses)?;
    drop(mending);
    let givens = Givens::of(rt.alloc(), &[], false)?;
    let above = Mending::of(rt.alloc(), &givens, &needs)?;
    let lacks = [
        Some(clause(Mode::Read, true, false)),
        Some(clause(Mode::Write, false, false)),
        Some(clause(Mode::Read, false, false)),
        Some(clause(Mode::Write, false, true)),
        None,
    ];
    for cell in 0..5u32 {
        assert!(&rt; above.clauses.get(cell) == lacks[cell as usize]);
    }
    drop(above);
    drop(givens);
    drop(needs);
    Ok(())
}

#[test]
fn clauses_of_a_pragma_together(rt: HostRuntime) -> Result<(), Fail> {
    let read = clause(Mode::Read, true, false);
    let out = clause(Mode::Write, true, true);
    let sum = clause(Mode::Fold(Op::Add), false, false);
    let clauses = [access(0, 2, read), access(1, 3, out), access(2, 4, sum)];
    let givens = Givens::of(rt.alloc(), &clauses, false)?;
    assert!(&rt; givens.at(0) == Given::Says(read));
    assert!(&rt; givens.at(1) == Given::Says(clause(Mode::Write, true, false)));
    assert!(&rt; givens.at(2) == Given::Mixed);
    assert!(&rt; givens.at(3) == Given::Says(sum));
    assert!(&rt; givens.at(4) == Given::Nothing);
    drop(givens);
    let last = Givens::of(rt.alloc(), &clauses, true)?;
    assert!(&rt; last.at(3) == Given::Says(clause(Mode::Fold(Op::Add), true, false)));
    drop(last);
    Ok(())
}
