//! The count of a new task: one for its opening, and one for each entry for which it waits.

ghost use Rattle.std.specs.Prelude.{◌≡◌, ◌≤◌, ◌<◌, ◌+◌, ◌-◌, ◌==◌, ◌&&◌};
ghost use Rattle.oss_field.specs.Plans.{is_missing};
ghost use Rattle.oss_jobs.specs.Jobs.{last_at, task_of};
ghost use Rattle.oss_creations.specs.Accesses.{waits_at, waits_below, waits_of};

use oss_jobs::Job;
use oss_syntax::{Access, Mode};

/// Whether the count of a new child waits for its entry on a cell: it is strong, reads or writes, and begins no list of main.
fn is_waited(job: &Job, mode: Mode, strong: bool, cell: u32) -> bool
    ensures { result ≡ waits_at job.now mode strong cell }
{
    match mode {
        Mode::Read => strong && !begins_list(job, cell),
        Mode::Write => strong && !begins_list(job, cell),
        Mode::Fold(_) => false,
    }
}

/// Whether a new child's entry on a cell begins a list of main: the job is that of main, which has no child there.
fn begins_list(job: &Job, cell: u32) -> bool
    ensures { result ≡ ((task_of job.now == 0) && is_missing (last_at job.now cell)) }
{
    job.task() == 0 && job.last(cell).is_none()
}

/// For how many of an access's cells it waits.
fn count_in(job: &Job, access: &Access) -> u32
    ensures { result ≡ waits_below job.now access.now.mode access.now.strong access.now.range.hi -
        waits_below job.now access.now.mode access.now.strong access.now.range.lo }
{
    let mut count = 0;
    for cell in access.range.lo..access.range.hi {
        if is_waited(job, access.mode, access.strong, cell) {
            count += 1;
        }
    }
    count
}

/// The count of a new child with these accesses.
pub(crate) fn count_of(job: &Job, accesses: &[Access]) -> u32
    requires { waits_of job.now accesses.now ≤ 1048576 }
    ensures { result ≡ 1 + waits_of job.now accesses.now }
{
    let mut count = 1;
    for access in accesses {
        count += count_in(job, access);
    }
    count
}
