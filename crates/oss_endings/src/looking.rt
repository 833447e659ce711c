//! Looks at the flags of entries, which tell what a job waits for.

ghost use Rattle.std.specs.Prelude.{◌≡◌, ◌≢◌, ◌<◌, ◌&&◌, ℕ, Bool, true, false, length, None};
ghost use Rattle.oss_body.specs.Relation.{has_wait};
ghost use Rattle.oss_field.specs.Giving.{IsSeenGiven};
ghost use Rattle.oss_field.specs.Reading.{after_flags};
ghost use Rattle.oss_jobs.specs.Jobs.{body_of, last_child_of, task_of};
ghost use Rattle.oss_machine.specs.Frames.{CodeScript};
ghost use Rattle.oss_model.specs.Bodies.{Body as Meant};
ghost use Rattle.oss_words.specs.Bits.{state_at};
ghost use Rattle.oss_acts.specs.Working.{IsAt, Works};
ghost use Rattle.oss_endings.specs.Ending.{AreDone, IsNewestDone, IsNewestUndone, IsSeenOpen, IsUndone, IsWaitMet, entry_there, last_there};
ghost use Rattle.oss_endings.specs.Letting.{Looks};

use oss_field::{Field, FieldSeat};
use oss_jobs::Job;
use oss_words::{EntryState, state_of};

/// The flags of an entry.
fn look(field: &Field, seat: &mut FieldSeat, entry: u32) -> EntryState
    requires field { IsAt field.now seat.old.field }
    requires inside { entry < field.now.entries }
    ensures same { (seat.new.field ≡ seat.old.field) × (seat.new.id ≡ seat.old.id) }
    ensures found { (word : ℕ) × (result ≡ state_at word) ×
        (seat.new.known ≡ after_flags (length field.now.code.first) entry word seat.old.known) }
{
    let word = field.flags(seat, entry);
    state_of(word)
}

/// Whether an entry with these flags is done, and all that hang before it.
fn is_past(state: &EntryState) -> bool
    ensures { result ≡ (state.now.clear && state.now.done) }
{
    state.clear && state.done
}

/// The entry of the job's task on a cell, or its own.
pub(crate) fn entry_of(job: &Job, cell: Option<u32>) -> u32
    ensures { result ≡ entry_there job.now cell }
{
    match cell {
        Some(cell) => job.entry(cell),
        None => job.task(),
    }
}

/// The last child there.
fn last_of(job: &Job, cell: Option<u32>) -> Option<u32>
    ensures { result ≡ last_there job.now cell }
{
    match cell {
        Some(cell) => job.last(cell),
        None => job.last_child(),
    }
}

/// The flags of an entry of the job's task, on a cell or its own.
pub(crate) fn look_at(
    field: &Field,
    seat: &mut FieldSeat,
    job: &Job,
    cell: Option<u32>,
) -> EntryState
    requires field { IsAt field.now seat.old.field }
    requires works { (x : Meant CodeScript) × Works field.now.code job.now x seat.old.known }
    requires below { task_of job.now ≢ 0 }
    ensures same { (seat.new.field ≡ seat.old.field) × (seat.new.id ≡ seat.old.id) }
    ensures found { (word : ℕ) × (result ≡ state_at word) ×
        (seat.new.known ≡ after_flags (length field.now.code.first) (entry_there job.now cell) word seat.old.known) }
{
    field.has_entries(seat);
    let entry = entry_of(job, cell);
    look(field, seat, entry)
}

/// Whether the seat finds that an entry of the job's task is given up.
pub(crate) fn is_given(field: &Field, seat: &mut FieldSeat, job: &Job, cell: Option<u32>) -> bool
    requires field { IsAt field.now seat.old.field }
    requires works { (x : Meant CodeScript) × Works field.now.code job.now x seat.old.known }
    requires below { task_of job.now ≢ 0 }
    ensures same { (seat.new.field ≡ seat.old.field) × (seat.new.id ≡ seat.old.id) }
    ensures looks { Looks seat.old.known seat.new.known }
    ensures given { result ≡ true → IsSeenGiven seat.new.known (entry_there job.now cell) }
    ensures open { result ≡ false → IsSeenOpen seat.new.known (entry_there job.now cell) }
{
    let state = look_at(field, seat, job, cell);
    state.given
}

/// Whether all children of the job's task are done: those with the cell, or, for `None`, all, as the seat finds by the
/// flags of the last. It is what a wait for them asks.
pub fn all_done(field: &Field, seat: &mut FieldSeat, job: &Job, cell: Option<u32>) -> bool
    requires field { IsAt field.now seat.old.field }
    requires works { (x : Meant CodeScript) × Works field.now.code job.now x seat.old.known }
    ensures same { (seat.new.field ≡ seat.old.field) × (seat.new.id ≡ seat.old.id) }
    ensures looks { Looks seat.old.known seat.new.known }
    ensures works { (x : Meant CodeScript) → Works field.now.code job.now x seat.old.known →
        Works field.now.code job.now x seat.new.known }
    ensures done { result ≡ true → AreDone job.now seat.new.known cell }
    ensures undone { result ≡ false → IsUndone job.now seat.new.known cell }
{
    field.has_entries(seat);
    match last_of(job, cell) {
        Some(last) => {
            let state = look(field, seat, last);
            is_past(&state)
        }
        None => true,
    }
}

/// Whether the last child of the job's task is done, if there is one, as the seat finds by its flags. It is what the
/// wait for an included task asks.
pub fn newest_done(field: &Field, seat: &mut FieldSeat, job: &Job) -> bool
    requires field { IsAt field.now seat.old.field }
    requires works { (x : Meant CodeScript) × Works field.now.code job.now x seat.old.known }
    ensures same { (seat.new.field ≡ seat.old.field) × (seat.new.id ≡ seat.old.id) }
    ensures looks { Looks seat.old.known seat.new.known }
    ensures works { (x : Meant CodeScript) → Works field.now.code job.now x seat.old.known →
        Works field.now.code job.now x seat.new.known }
    ensures done { result ≡ true → IsNewestDone job.now seat.new.known }
    ensures undone { result ≡ false → IsNewestUndone job.now seat.new.known }
{
    field.has_entries(seat);
    match job.last_child() {
        Some(last) => {
            let state = look(field, seat, last);
            state.done
        }
        None => true,
    }
}

/// Whether the clause `wait` of the job's task asks for nothing, or all its children are done, as the seat finds.
pub fn wait_is_met(field: &Field, seat: &mut FieldSeat, job: &Job) -> bool
    requires field { IsAt field.now seat.old.field }
    requires works { (x : Meant CodeScript) × Works field.now.code job.now x seat.old.known }
    ensures same { (seat.new.field ≡ seat.old.field) × (seat.new.id ≡ seat.old.id) }
    ensures looks { Looks seat.old.known seat.new.known }
    ensures works { (x : Meant CodeScript) → Works field.now.code job.now x seat.old.known →
        Works field.now.code job.now x seat.new.known }
    ensures met { result ≡ true → IsWaitMet job.now seat.new.known }
    ensures unmet { result ≡ false → IsUndone job.now seat.new.known None }
{
    if job.body().waits() {
        all_done(field, seat, job, None)
    } else {
        true
    }
}
