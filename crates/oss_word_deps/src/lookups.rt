//! Entries by task and cell. Those of a task rise with their cells, so one is found by halving.

ghost use Rattle.std.specs.Prelude.{◌≡◌, ◌↔◌, ◌<◌, ◌≤◌, ◌+◌, ℕ, ◌-◌, length, IfSome, IfNone, IsTrue, Some, slice_get};
ghost use Rattle.oss_word_deps.specs.declared.entry.Entry.{Entry as Row};
ghost use Rattle.oss_word_deps.specs.declared.entry.Job.{Job as Span};
ghost use Rattle.oss_word_deps.specs.Ledger.{entry_of};
ghost use Rattle.oss_word_deps.specs.Asked.{IsJobOf, IsRowOf};
ghost use Rattle.oss_word_deps.specs.Booked.{IsJob};

use crate::entry::{Entry, Job};

/// The task was opened as the one of its number, as it is where tasks are opened in the order of their numbers.
fn is_in_order(jobs: &[Job], task: u64) -> bool
    ensures { IsTrue result → IsJobOf jobs.now (task - 1) task × (0 < task) }
{
    if task == 0 {
        return false;
    }
    if task > jobs.len() as u64 {
        return false;
    }
    jobs[(task - 1) as usize].task == task
}

/// The place of the job of a task.
pub(crate) fn job_of(jobs: &[Job], task: u64) -> Option<usize>
    ensures found { IfSome result (λ n. IsJobOf jobs.now n task) }
    ensures none { IfNone result ((n : ℕ) → IsJobOf jobs.now n task → ⊥) }
{
    if is_in_order(jobs, task) {
        return Some((task - 1) as usize);
    }
    for (at, job) in jobs.iter().enumerate() {
        if job.task == task {
            return Some(at);
        }
    }
    None
}

/// The first entry of a task at this cell or a later one, and the end of its entries where there is none.
pub(crate) fn entry_from(entries: &[Entry], job: Job, cell: u32) -> u32
    requires { IsJob entries.now job }
    ensures inside { (job.first ≤ result) × (result ≤ job.end) }
    ensures before { (v : ℕ) (e : Row) → job.first ≤ v → v < result → entry_of entries.now v ≡ Some e → e.cell < cell }
    ensures behind { (v : ℕ) (e : Row) → result ≤ v → v < job.end → entry_of entries.now v ≡ Some e → cell ≤ e.cell }
{
    let mut lo = job.first;
    let mut hi = job.end;
    'halves: while lo < hi {
        let middle = lo + (hi - lo) / 2;
        if entries[middle as usize - 1].cell < cell {
            lo = middle + 1;
        } else {
            hi = middle;
        }
    }
    lo
}

/// The entry of a task at a cell.
pub(crate) fn entry_at(entries: &[Entry], job: Job, cell: u32) -> Option<u32>
    requires { IsJob entries.now job }
    ensures some { IfSome result (λ v. IsRowOf entries.now cell job.task v) }
    ensures none { IfNone result ((v : ℕ) → IsRowOf entries.now cell job.task v → ⊥) }
{
    let found = entry_from(entries, job, cell);
    if found == job.end {
        return None;
    }
    if entries[found as usize - 1].cell == cell {
        Some(found)
    } else {
        None
    }
}
