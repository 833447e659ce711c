//! The links of a new task's entries.

ghost use Rattle.std.specs.Prelude.{◌≡◌, ◌<◌, ◌≤◌, ◌+◌, ◌-◌, ℕ, suc, length, min, List as Items};
ghost use Rattle.oss_body.specs.Relation.{IsBody};
ghost use Rattle.oss_code.specs.declared.code.CodeParts.{CodeParts};
ghost use Rattle.oss_machine.specs.Frames.{CodeScript};
ghost use Rattle.oss_model.specs.Bodies.{Start};
ghost use Rattle.oss_jobs.specs.Entries.{cells_in};
ghost use Rattle.oss_creations.specs.Accesses.{Gives, IsEntryOf, IsRunOf, after_behind, last_told, parent_told};
ghost use Rattle.oss_creations.specs.Creating.{HasLinked, HasLinkedOne, IsInfo, IsMaking, OfNew};
ghost use Rattle.oss_field.specs.Hanging.{StandsToLink};
ghost use Rattle.oss_jobs.specs.Jobs.{body_of};
ghost use Rattle.oss_words.specs.Bits.{FitsInfo};
ghost use Rattle.oss_acts.specs.Working.{IsAt};

use crate::delivering::deliver_rest;
use oss_field::{Field, FieldSeat};
use oss_jobs::Job;
use oss_syntax::{Access, Mode};
use oss_words::{After, EntryInfo};

/// The creator's entry there, and 0 for main.
fn parent_of(job: &Job, cell: Option<u32>) -> u32
    ensures { result ≡ parent_told job.now cell }
{
    match cell {
        None => job.task(),
        Some(cell) => { if job.task() == 0 { 0 } else { job.entry(cell) } }
    }
}

/// The creator's last child there.
fn last_of(job: &Job, cell: Option<u32>) -> Option<u32>
    ensures { result ≡ last_told job.now cell }
{
    match cell {
        None => job.last_child(),
        Some(cell) => job.last(cell),
    }
}

/// Where a new entry is linked: behind the last child there, or else as the first one of this parent, or of main.
fn after_of(last: Option<u32>, task: u32, parent: u32) -> After
    ensures { result ≡ after_behind last task parent }
{
    match last {
        Some(sibling) => After::Sibling(sibling),
        None => {
            if task == 0 {
                After::FirstOfMain
            } else {
                After::FirstOf(parent)
            }
        }
    }
}

/// How deep a new child stands.
fn depth_of(job: &Job) -> u8
    ensures { (code : CodeParts) (start : Start CodeScript) (found : Items ℕ) → IsBody code start found (body_of job.now) →
        result ≡ min (suc (length start.path)) 127 }
{
    job.body().point().as_slice().len().min(127) as u8
}

/// The info of an entry of a new child.
fn info_of(job: &Job, mode: Mode, strong: bool, task: u32, cell: Option<u32>) -> EntryInfo
    ensures { IsInfo job.now mode strong task cell result }
{
    EntryInfo {
        mode,
        strong,
        depth: depth_of(job),
        parent: parent_of(job, cell),
        task,
    }
}

/// Links an entry that the seat stands to link, and delivers all messages that follow.
fn link_and_deliver(
    field: &Field,
    seat: &mut FieldSeat,
    job: &Job,
    entry: u32,
    info: &EntryInfo,
    cell: Option<u32>,
    after: After,
    news: &mut Vec<u32>,
)
    requires field { seat.old.field ≡ field.now.table }
    requires inside { entry < field.now.entries }
    requires fits { FitsInfo info.now }
    requires may { StandsToLink field.now.code job.now entry info.now cell after seat.old.known }
    ensures same { (seat.new.field ≡ seat.old.field) × (seat.new.id ≡ seat.old.id) }
    ensures linked { HasLinkedOne entry seat.old.known seat.new.known }
{
    field.link(seat, job, entry, info, cell, after);
    deliver_rest(field, seat, news);
}

/// Links the next entry of a task that the seat makes: the task's own, or that on a cell.
pub(crate) fn link_entry(
    field: &Field,
    seat: &mut FieldSeat,
    job: &Job,
    entry: u32,
    mode: Mode,
    strong: bool,
    task: u32,
    cell: Option<u32>,
    news: &mut Vec<u32>,
)
    requires field { IsAt field.now seat.old.field }
    requires making { (stop : ℕ) × (entry < stop) ×
        IsMaking field.now.code field.now.entries job.now task 0 entry stop seat.old.known }
    requires new { OfNew field.now.code job.now (λ own. IsEntryOf own task entry mode strong cell) }
    ensures same { (seat.new.field ≡ seat.old.field) × (seat.new.id ≡ seat.old.id) }
    ensures linked { HasLinked task entry (entry + 1) seat.old.known seat.new.known }
{
    let info = info_of(job, mode, strong, task, cell);
    let after = after_of(last_of(job, cell), job.task(), info.parent);
    link_and_deliver(field, seat, job, entry, &info, cell, after, news);
}

/// Links the entries on an access's cells, of which this is the first.
fn link_cells(
    field: &Field,
    seat: &mut FieldSeat,
    job: &Job,
    access: &Access,
    task: u32,
    first: u32,
    news: &mut Vec<u32>,
)
    requires field { IsAt field.now seat.old.field }
    requires making { (stop : ℕ) × (first + (access.now.range.hi - access.now.range.lo) ≤ stop) ×
        IsMaking field.now.code field.now.entries job.now task 0 first stop seat.old.known }
    requires new { OfNew field.now.code job.now (λ own. IsRunOf own task first access.now.range.lo access.now.range.hi
        access.now.mode access.now.strong) }
    ensures same { (seat.new.field ≡ seat.old.field) × (seat.new.id ≡ seat.old.id) }
    ensures linked { HasLinked task first (first + (access.now.range.hi - access.now.range.lo)) seat.old.known
        seat.new.known }
{
    for cell in access.range.lo..access.range.hi {
        let entry = first + (cell - access.range.lo);
        link_entry(
            field,
            seat,
            job,
            entry,
            access.mode,
            access.strong,
            task,
            Some(cell),
            news,
        );
    }
}

/// Links the entries on all cells of a task that the seat makes. Its own is linked.
pub(crate) fn link_accesses(
    field: &Field,
    seat: &mut FieldSeat,
    job: &Job,
    accesses: &[Access],
    task: u32,
    news: &mut Vec<u32>,
)
    requires field { IsAt field.now seat.old.field }
    requires making { IsMaking field.now.code field.now.entries job.now task 0 (task + 1)
        (task + 1 + cells_in accesses.now) seat.old.known }
    requires new { OfNew field.now.code job.now (λ own. Gives own accesses.now) }
    ensures same { (seat.new.field ≡ seat.old.field) × (seat.new.id ≡ seat.old.id) }
    ensures linked { HasLinked task (task + 1) (task + 1 + cells_in accesses.now) seat.old.known seat.new.known }
{
    let mut next = task + 1;
    for access in accesses {
        link_cells(field, seat, job, access, task, next, news);
        next += access.range.hi - access.range.lo;
    }
}
