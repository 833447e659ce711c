//! Phases over a table that only counts: a run has so many entries in all, and a table has no more than it was opened with. Each stretch of work
//! takes one entry, and the first that finds none left sends everybody home.

ghost use Rattle.std.specs.Prelude.{◌≡◌, ◌<◌, ◌≤◌};

use oss_crew::{Ending, News, Shift, Stretch};
use oss_phases::{Closed, Opened, Outcome, Phased, run_phases};
use std::alloc::{AllocError, Global};
use std::sync::Wait;
use std::sync::atomic::{AtomicU64, Ordering};
use std::test::Fail;
use std::thread::Threads;

/// How many parts the first seat of a table has.
const PARTS: u32 = 65537;

/// A run at rest: how many entries it has so far.
#[derive(Drop)]
struct Counted {
    entries: u64,
}

/// A worker's seat: its parts of the table.
#[derive(Drop)]
struct Chair {
    parts: u32,
}

/// A table of entries.
#[derive(Drop)]
struct Table {
    entries: u32,
    crew: u32,
    /// How many entries the run has in all.
    all: u64,
    /// How many are taken, or were asked for in vain.
    asked: AtomicU64,
}

impl Shift<Chair> for Table {
    ghost use Rattle.std.specs.Prelude.{◌≡◌, ◌<◌};

    ghost limit = { λ table. table.entries };

    ghost crew = { λ table. table.crew };

    ghost rests = { λ table chair. Unit {0} };

    ghost works = { λ table chair. Unit {0} };

    ghost mark = { λ chair. chair.parts };

    fn begin(&self, _worker: u32, _chair: &mut Chair, _number: u32) -> bool {
        true
    }

    fn go_on(&self, _worker: u32, _chair: &mut Chair) -> Result<Stretch, AllocError> {
        let before = self.asked.fetch_add(1, Ordering::SeqCst);
        let ending = if before < self.all.min(self.entries as u64) {
            Ending::More
        } else {
            Ending::Stop
        };
        Ok(Stretch {
            ending,
            news: News::new(),
        })
    }

    fn put_down(&self, _chair: &mut Chair) {}
}

/// A run of so many entries, and what was seen of its phases.
#[derive(Drop)]
struct Run {
    alloc: Global,
    all: u64,
    /// How many tables were opened.
    phases: AtomicU64,
    /// How many entries the last of them had.
    last: AtomicU64,
    /// How many seats were joined to a first one.
    joins: AtomicU64,
}

impl Run {
    fn new(alloc: Global, all: u64) -> Run {
        Run {
            alloc,
            all,
            phases: AtomicU64::new(0),
            last: AtomicU64::new(0),
            joins: AtomicU64::new(0),
        }
    }
}

impl Phased<Counted, Table, Chair, u64> for Run {
    ghost use Rattle.std.specs.Prelude.{◌≡◌, ◌<◌};

    ghost reached = { λ run held. Unit {0} };

    ghost needs = { λ held. held.entries };

    ghost ends = { λ run held answer. answer ≡ held.entries };

    ghost has = { λ run count. Unit {0} };

    ghost opened = { λ run table. Unit {0} };

    fn opening(&self) -> Result<Counted, AllocError> {
        Ok(Counted { entries: 1 })
    }

    fn answer(&self, held: &mut Counted) -> Result<Option<u64>, AllocError> {
        if held.entries < self.all {
            return Ok(None);
        }
        Ok(Some(held.entries))
    }

    fn needs(&self, held: &Counted) -> u64 {
        held.entries
    }

    fn open(
        &self,
        held: Counted,
        entries: u32,
        workers: u32,
    ) -> Result<Opened<Table, Chair>, AllocError> {
        self.phases.fetch_add(1, Ordering::SeqCst);
        self.last.store(entries as u64, Ordering::SeqCst);
        let mut ready = Vec::new(self.alloc);
        ready.push(0)?;
        Ok(Opened {
            table: Table {
                entries,
                crew: workers,
                all: self.all,
                asked: AtomicU64::new(held.entries),
            },
            seat: Chair { parts: PARTS },
            ready,
        })
    }

    fn split(&self, _table: &Table, chair: &mut Chair) -> Result<Chair, AllocError> {
        chair.parts -= 1;
        Ok(Chair { parts: 1 })
    }

    fn join(&self, _table: &Table, chair: &mut Chair, other: Chair) {
        self.joins.fetch_add(1, Ordering::SeqCst);
        chair.parts += other.parts;
    }

    fn close(&self, table: Table, _chair: Chair) -> Result<Closed<Counted>, AllocError> {
        let entries = self.all.min(table.entries as u64);
        Ok(Closed {
            held: Counted { entries },
            wanted: self.all - entries,
        })
    }
}

/// The run of so many entries in all, on tables of at most so many, ends with their number.
fn ends<R: Threads + Wait + Sync>(
    rt: &R,
    alloc: Global,
    run: &Run,
    most: u32,
    workers: u32,
) -> Result<bool, Fail>
    requires most { (0 < most) × (most ≤ 16777216) }
    requires workers { (0 < workers) × (workers ≤ 64) }
{
    match run_phases(rt, alloc, run, most, workers)? {
        Outcome::Ended(answer, held) => {
            let is_right = answer == run.all && held.entries == run.all;
            drop(held);
            Ok(is_right)
        }
        Outcome::TooMany => Ok(false),
    }
}

/// A run of main alone has its answer before any table is opened.
#[test]
fn a_run_that_has_ended_opens_no_table(rt: HostRuntime) -> Result<(), Fail> {
    let run = Run::new(rt.alloc(), 1);
    assert_eq!(rt; ends(&rt, rt.alloc(), &run, 1, 3)?, true);
    assert_eq!(rt; run.phases.load(Ordering::SeqCst), 0);
    Ok(())
}

/// The first table has room for 65,536 entries.
#[test]
fn a_run_that_fits_takes_one_phase(rt: HostRuntime) -> Result<(), Fail> {
    let run = Run::new(rt.alloc(), 65536);
    assert_eq!(rt; ends(&rt, rt.alloc(), &run, 16777216, 1)?, true);
    assert_eq!(rt; run.phases.load(Ordering::SeqCst), 1);
    assert_eq!(rt; run.last.load(Ordering::SeqCst), 65536);
    assert_eq!(rt; run.joins.load(Ordering::SeqCst), 0);
    Ok(())
}

/// One with a task of 70,000 cells does not fit into the first table, and fits into the next, of twice the size.
#[test]
fn a_table_that_is_too_small_is_doubled(rt: HostRuntime) -> Result<(), Fail> {
    let run = Run::new(rt.alloc(), 70002);
    assert_eq!(rt; ends(&rt, rt.alloc(), &run, 131072, 3)?, true);
    assert_eq!(rt; run.phases.load(Ordering::SeqCst), 2);
    assert_eq!(rt; run.last.load(Ordering::SeqCst), 131072);
    assert_eq!(rt; run.joins.load(Ordering::SeqCst), 4);
    Ok(())
}

/// A table of 100,000 entries at most is no place for them.
#[test]
fn a_table_has_no_more_than_it_may(rt: HostRuntime) -> Result<(), Fail> {
    let run = Run::new(rt.alloc(), 100001);
    assert_eq!(rt; ends(&rt, rt.alloc(), &run, 100000, 2)?, false);
    assert_eq!(rt; run.phases.load(Ordering::SeqCst), 1);
    assert_eq!(rt; run.last.load(Ordering::SeqCst), 65536);
    let run = Run::new(rt.alloc(), 100000);
    assert_eq!(rt; ends(&rt, rt.alloc(), &run, 100000, 2)?, true);
    assert_eq!(rt; run.phases.load(Ordering::SeqCst), 2);
    assert_eq!(rt; run.last.load(Ordering::SeqCst), 100000);
    Ok(())
}

/// What is asked for in vain may need more than twice the entries: 65,536 are doubled three times at once.
#[test]
fn a_table_is_doubled_as_often_as_it_takes(rt: HostRuntime) -> Result<(), Fail> {
    let run = Run::new(rt.alloc(), 300000);
    assert_eq!(rt; ends(&rt, rt.alloc(), &run, 16777216, 2)?, true);
    assert_eq!(rt; run.phases.load(Ordering::SeqCst), 2);
    assert_eq!(rt; run.last.load(Ordering::SeqCst), 524288);
    Ok(())
}
