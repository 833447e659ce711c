//! Open tasks that were worked by hand, act by act.

ghost use Rattle.std.specs.Prelude.{◌<◌, ◌≤◌};

use oss_needs::{Clause, Demand, Lack};
use oss_open_needs::OpenNeeds;
use oss_syntax::{Access, Mode, Range};
use std::process::Abort;
use std::test::Fail;

/// `in(x)`, `out(x)`, `inout(x)`, and with weak before them.
fn clause(mode: Mode, strong: bool, fresh: bool) -> Clause {
    Clause {
        mode,
        strong,
        fresh,
    }
}

/// A clause of a pragma that says this of a cell.
fn on(cell: u32, clause: Clause) -> Access
    requires { cell < 1048576 }
{
    Access {
        range: Range {
            lo: cell,
            hi: cell + 1,
        },
        mode: clause.mode,
        strong: clause.strong,
        fresh: clause.fresh,
    }
}

/// Main creates a task with `weakinout(x)`, which creates one with `in(x)`, which stores into x.
#[test]
fn a_store_below_two_tasks(rt: HostRuntime) -> Result<(), Fail> {
    let x = Range { lo: 0, hi: 1 };
    let mut tasks = OpenNeeds::new(rt.alloc())?;
    tasks.open(&[on(0, clause(Mode::Write, false, false))], false)?;
    tasks.open(&[on(0, clause(Mode::Read, true, false))], false)?;
    tasks.ask(x, Demand::Store)?;
    let inner = tasks.close()?;
    assert!(&rt;
        matches!(&inner, Some(inner) if inner.lacks.get(0) == Some(Lack::Adds(clause(Mode::Write, true, true)))
            && inner.clauses.get(0) == Some(clause(Mode::Write, true, false)))
    );
    drop(inner);
    let outer = tasks.close()?;
    assert!(&rt;
        matches!(&outer, Some(outer) if outer.lacks.get(0).is_none()
            && outer.clauses.get(0) == Some(clause(Mode::Write, false, false)))
    );
    drop(outer);
    let main = tasks.close()?;
    assert!(&rt; main.is_none());
    drop(main);
    drop(tasks);
    Ok(())
}

/// A task without clauses releases x and waits for y; a final one with `weakin(x)` loads x.
#[test]
fn releases_waits_and_final_tasks(rt: HostRuntime) -> Result<(), Fail> {
    let y = Range { lo: 1, hi: 2 };
    let mut tasks = OpenNeeds::new(rt.alloc())?;
    tasks.open(&[], false)?;
    tasks.release(&[on(0, clause(Mode::Write, true, true))])?;
    tasks.wait(&[y])?;
    let first = tasks.close()?;
    assert!(&rt;
        matches!(&first, Some(first) if first.lacks.get(0) == Some(Lack::Adds(clause(Mode::Write, false, false)))
            && first.lacks.get(1) == Some(Lack::Adds(clause(Mode::Read, false, false))))
    );
    drop(first);
    tasks.open(&[on(0, clause(Mode::Read, false, false))], true)?;
    tasks.ask(Range { lo: 0, hi: 1 }, Demand::Load)?;
    let last = tasks.close()?;
    assert!(&rt; matches!(&last, Some(last) if last.lacks.get(0).is_none()));
    drop(last);
    drop(tasks);
    Ok(())
}
