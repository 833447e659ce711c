//! Groups of neighbouring jobs, one for each worker that has any. The counts alone tell which worker has which job.

ghost use Rattle.std.specs.Prelude.{◌≡◌, ◌<◌, ◌≤◌, length, IfOk};
ghost use Rattle.std.specs.Int.{div_ceil};
ghost use Rattle.std.specs.List.{AllByRecursion};
ghost use Rattle.oss_thread_groups.specs.Groups.{AreGiven, AreNumbered, jobs_of};

use crate::work::Work;
use std::alloc::{AllocError, Global};

/// Neighbouring jobs, and the worker that they are run as.
#[derive(Drop)]
pub(crate) struct Group<J: Drop> {
    pub(crate) worker: u32,
    pub(crate) jobs: Vec<J>,
}

/// The jobs in at most so many groups of neighbours, whose workers are counted from 0. Each group but the last
/// has as many jobs as there are for each worker, rounded up. Where there are no jobs, the one group is empty.
/// Want of memory is the one error.
pub(crate) fn into_groups<J: Drop>(
    alloc: Global,
    jobs: Vec<J>,
    workers: u32,
) -> Result<Vec<Group<J>>, AllocError>
    requires { 0 < workers }
    ensures neighbours { IfOk result (λ groups. jobs_of groups.items ≡ jobs.items) }
    ensures few { IfOk result (λ groups. length groups.items ≤ workers) }
    ensures numbered { IfOk result (λ groups. AreNumbered 0 groups.items) }
    ensures below { IfOk result (λ groups. AllByRecursion (λ group. group.worker < workers) groups.items) }
    ensures even { IfOk result (λ groups. AllByRecursion (λ group. length group.jobs.items ≤ div_ceil
        (length jobs.items) workers) groups.items) }
{
    let size = jobs.len().div_ceil(workers as usize);
    let mut groups = Vec::new(alloc);
    let mut rest = jobs;
    let mut worker = 0;
    while rest.len() > size {
        let behind = rest.split_off(size)?;
        groups.push(Group { worker, jobs: rest })?;
        worker += 1;
        rest = behind;
    }
    groups.push(Group { worker, jobs: rest })?;
    Ok(groups)
}

/// Does the jobs of a group in their order, as its worker. Want of memory is the one error.
pub(crate) fn run_group<J: Drop, X: Drop, W: Work<J, X>>(
    alloc: Global,
    work: &W,
    group: Group<J>,
) -> Result<Vec<X>, AllocError>
    ensures { IfOk result (λ done. AreGiven (W.gives work.now) group.jobs.items done.items) }
{
    let Group { worker, jobs } = group;
    let mut done = Vec::new(alloc);
    for job in jobs {
        let answer = work.run(worker, job)?;
        done.push(answer)?;
    }
    Ok(done)
}
