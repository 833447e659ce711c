//! Jobs in groups, each group on a thread of its own where one can be made. The answers come back in the order
//! of the jobs.

ghost use Rattle.std.specs.Prelude.{◌≡◌, ℕ, ◌<◌, length, slice_index_or, IfOk};
ghost use Rattle.oss_thread_groups.specs.Groups.{AreGiven, IsJoined};

use crate::group::{Group, into_groups, run_group};
use crate::work::Work;
use std::alloc::{AllocError, Global};
use std::thread;
use std::thread::Threads;

/// Does all jobs, by at most so many workers, 1 or more, each with neighbouring jobs. A worker has a thread of
/// its own where one can be made, and else its jobs are done one after the other with those of others. The
/// answers stand in the order of their jobs, and are the same for each number of workers as far as `gives`
/// settles them. Want of memory is the one error; some jobs are then done and others not, and all answers are
/// given up.
pub fn in_groups<R: Threads + Sync, J: Send + Drop, X: Send + Drop, W: Work<J, X> + Sync>(
    rt: &R,
    alloc: Global,
    work: &W,
    jobs: Vec<J>,
    workers: u32,
) -> Result<Vec<X>, AllocError>
    requires { 0 < workers }
    ensures { IfOk result (λ done. AreGiven (W.gives work.now) jobs.items done.items) }
{
    let groups = into_groups(alloc, jobs, workers)?;
    let parts = run_groups(rt, alloc, work, groups)?;
    joined(alloc, parts)
}

/// Does the jobs of each group, each group on a thread of its own where one can be made. Want of memory inside
/// of a group is the error of that group.
fn run_groups<R: Threads + Sync, J: Send + Drop, X: Send + Drop, W: Work<J, X> + Sync>(
    rt: &R,
    alloc: Global,
    work: &W,
    groups: Vec<Group<J>>,
) -> Result<Vec<Result<Vec<X>, AllocError>>, AllocError>
    ensures len { IfOk result (λ parts. length parts.items ≡ length groups.items) }
    ensures each { IfOk result (λ parts. (i : ℕ) (d : _) (e : _) → i < length groups.items
        → IfOk (slice_index_or parts.items i d) (λ done. AreGiven (W.gives work.now) (slice_index_or groups.items i e).jobs.items done.items)) }
{
    thread::map_vec(rt, groups, &|group| run_group(alloc, work, group))
}

/// What was made of all groups, in their order. Want of memory, here or in a group, is the one error.
fn joined<X: Drop>(
    alloc: Global,
    parts: Vec<Result<Vec<X>, AllocError>>,
) -> Result<Vec<X>, AllocError>
    ensures { IfOk result (λ all. IsJoined parts.items all.items) }
{
    let mut all = Vec::new(alloc);
    for part in parts {
        let mut done = part?;
        all.append(&mut done)?;
    }
    Ok(all)
}
