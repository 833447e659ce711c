//! Ten jobs on one, three, four and 64 workers; who does which is worked out by hand.

use oss_thread_groups::{Work, in_groups};
use std::alloc::{AllocError, Global};
use std::process::Abort;
use std::test::Fail;
use std::thread::Threads;

/// Doubles a number.
struct Doubling;

impl Work<u32, u64> for Doubling {
    ghost use Rattle.std.specs.Prelude.{◌≡◌, ◌*◌};

    ghost gives = { λ work job done. done ≡ job * 2 };

    fn run(&self, _worker: u32, job: u32) -> Result<u64, AllocError> {
        Ok(u64::from(job) * 2)
    }
}

/// A job, and the worker that did it.
#[derive(Drop)]
struct Done {
    job: u32,
    worker: u32,
}

/// Tells which worker does a job.
struct Telling;

impl Work<u32, Done> for Telling {
    ghost use Rattle.std.specs.Prelude.{◌≡◌};

    ghost gives = { λ work job done. done.job ≡ job };

    fn run(&self, worker: u32, job: u32) -> Result<Done, AllocError> {
        Ok(Done { job, worker })
    }
}

/// The jobs.
const JOBS: &[u32] = &[1, 2, 3, 4, 5, 6, 7, 8, 9, 10];

/// The jobs are each doubled once, in their order, on so many workers.
fn assert_doubled<R: Abort + Threads + Sync>(
    rt: &R,
    alloc: Global,
    workers: u32,
) -> Result<(), Fail> {
    assert!(rt; 0 < workers);
    let done = in_groups(rt, alloc, &Doubling, Vec::from_slice(alloc, JOBS)?, workers)?;
    let wanted: [u64; 10] = [2, 4, 6, 8, 10, 12, 14, 16, 18, 20];
    assert!(rt; done.as_slice() == wanted.as_slice());
    Ok(())
}

/// On so many workers, the jobs are done by these.
fn assert_workers<R: Abort + Threads + Sync>(
    rt: &R,
    alloc: Global,
    workers: u32,
    wanted: &[u32],
) -> Result<(), Fail> {
    assert!(rt; 0 < workers);
    let done = in_groups(rt, alloc, &Telling, Vec::from_slice(alloc, JOBS)?, workers)?;
    assert!(rt; done.len() == 10 && wanted.len() == 10);
    for ((one, job), worker) in done.iter().zip(JOBS).zip(wanted) {
        assert!(rt; one.job == *job && one.worker == *worker && *worker < workers);
    }
    Ok(())
}

#[test]
fn each_job_is_done_once_in_order(rt: HostRuntime) -> Result<(), Fail> {
    let alloc = rt.alloc();
    assert_doubled(&rt, alloc, 1)?;
    assert_doubled(&rt, alloc, 3)?;
    assert_doubled(&rt, alloc, 4)?;
    assert_doubled(&rt, alloc, 64)
}

#[test]
fn neighbours_have_one_worker(rt: HostRuntime) -> Result<(), Fail> {
    let alloc = rt.alloc();
    assert_workers(&rt, alloc, 1, &[0, 0, 0, 0, 0, 0, 0, 0, 0, 0])?;
    assert_workers(&rt, alloc, 3, &[0, 0, 0, 0, 1, 1, 1, 1, 2, 2])?;
    assert_workers(&rt, alloc, 4, &[0, 0, 0, 1, 1, 1, 2, 2, 2, 3])?;
    assert_workers(&rt, alloc, 64, &[0, 1, 2, 3, 4, 5, 6, 7, 8, 9])
}

#[test]
fn no_jobs_are_one_empty_group(rt: HostRuntime) -> Result<(), Fail> {
    let done = in_groups(&rt, rt.alloc(), &Doubling, Vec::new(rt.alloc()), 64)?;
    assert!(rt; done.is_empty());
    Ok(())
}
